//! Marks of checks, with their labels.
ghost use Rattle.std.specs.Prelude.{◌≡◌, length, IfOk};
ghost use Rattle.sentence.specs.Statements.{mark_of as said_mark};
ghost use Rattle.sentence.specs.Trees.{mark_back};
ghost use Rattle.term.specs.Statements.{mark_of};
ghost use Rattle.cat.specs.Placing.{tokens_of};
ghost use Rattle.cat.specs.Resolving.{mark_at, before_word};

use super::scope::Scope;
use sentence::statement::Mark as Said;
use std::alloc::AllocError;
use term::statement::Mark;

/// How many tokens stand before the word of a check.
pub(crate) fn before_word(mark: Said<usize>, negated: bool) -> usize
    ensures { result ≡ before_word (said_mark mark) negated }
{
    usize::from(matches!(mark, Said::Flagged(_))) + usize::from(negated)
}

/// How many tokens stand behind the expression of a check.
pub(crate) fn behind_term(mark: Said<usize>) -> usize
    ensures { result ≡ length (mark_back (said_mark mark)) }
{
    match mark {
        Said::Plain => 0,
        Said::Labelled(_) | Said::Flagged(_) => 2,
    }
}

impl<'a> Scope<'a> {
    // No `map` of the mark: to copy the label may want for memory.
    /// The mark of a check, with its label at a token.
    pub(crate) fn labelled(&self, token: usize, mark: Said<usize>) -> Result<Mark, AllocError>
        ensures { IfOk result (λ m. mark_of m ≡ mark_at (tokens_of self.now) token (said_mark mark)) }
    {
        let label = self.name_at(token);
        match mark {
            Said::Plain => Ok(Mark::Plain),
            Said::Labelled(_) => Ok(Mark::Labelled(Vec::from_slice(self.heap, label)?)),
            Said::Flagged(_) => Ok(Mark::Flagged(Vec::from_slice(self.heap, label)?)),
        }
    }
}
