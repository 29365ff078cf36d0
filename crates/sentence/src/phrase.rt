//! Reading statements.
ghost use Rattle.std.specs.Prelude.{◌≡◌, ◌+◌, ◌<◌, ◌≤◌, [], length, IfOk, IfErr};
ghost use Rattle.sentence.specs.declared.fault.SentenceFault.TheVariants.{Place};
ghost use Rattle.sentence.specs.Looks.{StandsAt};
ghost use Rattle.sentence.specs.Machine.{ready, let_seen, name_due, flag_seen, tilde_seen, operand, nothing, of_check, first, marked};
ghost use Rattle.sentence.specs.Parsing.{Halts};
ghost use Rattle.sentence.specs.Statements.{Stated, Binds, Marks, mark_of};

use super::fault::SentenceFault;
use super::parser::Parser;
use super::placed::Placed;
use super::role::*;
use super::sign::*;
use super::statement::*;

// Here and in the parser's `mark`, `claim` and `denial` the flag is a `bool`, as in the grammar's `of_check flag negated word`: a
// struct with the negation, or a mark whose label is to come, would be taken apart again in each clause.
/// The mark of a check with its label at a place.
fn labelled(flag: bool, at: usize) -> Mark<usize>
    ensures { mark_of result ≡ marked flag }
{
    if flag {
        Mark::Flagged(at)
    } else {
        Mark::Labelled(at)
    }
}

impl<'a> Parser<'a> {
    /// The place behind a sort of this role, which has to stand at a place.
    #[inline(always)]
    fn behind(self, place: usize, role: Role) -> Result<usize, SentenceFault>
        ensures stands { IfOk result (λ k. StandsAt self.entry.sorts.now place role × (k ≡ place + 1)) }
        ensures lacks { IfErr result (λ f. (¬ StandsAt self.entry.sorts.now place role) × (f ≡ Place place)) }
    {
        if self.stands(place, role) {
            Ok(place + 1)
        } else {
            Err(SentenceFault::Place(place))
        }
    }

    /// A binding: a name, `=` and an expression.
    fn binding(self, at: usize) -> Result<Placed<Binding>, SentenceFault>
        ensures { Binds self.entry.sorts.now at result }
    {
        let equals = self.behind(at, Role::Starts(Start::Leaf(Leaf::Name)))?;
        let start = self.behind(equals, Role::Speaks(Speech::Equals))?;
        let piece = self.ladder(start, 1)?;
        Ok(piece.map(|tree| Binding { name: at, tree }))
    }

    /// The bindings of a group, behind `let rec`.
    fn group(self, at: usize) -> Result<Placed<Statement>, SentenceFault>
        ensures { Stated (λ p. name_due p first) self.entry.sorts.now at result }
    {
        let head = self.binding(at)?;
        let mut more: Vec<Binding> = Vec::new(self.heap);
        let mut next = head.next;
        // Each binding says where the next one begins, and may refuse.
        while self.stands(next, Role::Speaks(Speech::Ands)) {
            let bound = self.binding(next + 1)?;
            more.push(bound.item)?;
            next = bound.next;
        }
        Ok(Placed {
            item: Statement::Group(head.item, more),
            next,
        })
    }

    /// What follows `let`.
    fn binds(self, at: usize) -> Result<Placed<Statement>, SentenceFault>
        ensures { Stated (λ p. let_seen p) self.entry.sorts.now at result }
    {
        if self.stands(at, Role::Speaks(Speech::Recs)) {
            return self.group(at + 1);
        }
        let bound = self.binding(at)?;
        Ok(bound.map(|binding| Statement::Let(binding)))
    }

    /// The mark of a check, behind its expression: its label, which a flag needs.
    fn mark(self, at: usize, flag: bool) -> Result<Placed<Mark<usize>>, SentenceFault>
        requires within { at ≤ length self.sorts.now }
        requires halts { Halts self.sorts.now 1 at }
        ensures { Marks self.entry.sorts.now at flag result }
    {
        if self.stands(at, Role::Speaks(Speech::Labels)) {
            let next = self.behind(at + 1, Role::Starts(Start::Leaf(Leaf::Name)))?;
            Ok(Placed {
                item: labelled(flag, at + 1),
                next,
            })
        } else if flag {
            Err(SentenceFault::Place(at))
        } else {
            Ok(Placed {
                item: Mark::Plain,
                next: at,
            })
        }
    }

    /// What follows the word of a check.
    fn claim(
        self,
        at: usize,
        flag: bool,
        negated: bool,
        word: Word,
    ) -> Result<Placed<Statement>, SentenceFault>
        ensures { Stated (λ p. operand p (of_check flag negated word) [] nothing) self.entry.sorts.now at result }
    {
        let piece = self.ladder(at, 1)?;
        let mark = self.mark(piece.next, flag)?;
        Ok(Placed {
            item: Statement::Check(Check {
                mark: mark.item,
                negated,
                word,
                tree: piece.item,
            }),
            next: mark.next,
        })
    }

    /// What follows the `~` of a check.
    fn denial(self, at: usize, flag: bool) -> Result<Placed<Statement>, SentenceFault>
        ensures { Stated (λ p. tilde_seen p flag) self.entry.sorts.now at result }
    {
        let word = self.word_at(at).ok_or(SentenceFault::Place(at))?;
        self.claim(at + 1, flag, true, word)
    }

    /// What follows `flag`.
    fn warning(self, at: usize) -> Result<Placed<Statement>, SentenceFault>
        ensures { Stated (λ p. flag_seen p) self.entry.sorts.now at result }
    {
        if self.stands(at, Role::Complements) {
            return self.denial(at + 1, true);
        }
        let word = self.word_at(at).ok_or(SentenceFault::Place(at))?;
        self.claim(at + 1, true, false, word)
    }

    /// A statement.
    pub(crate) fn statement(self, at: usize) -> Result<Placed<Statement>, SentenceFault>
        requires { at < length self.sorts.now }
        ensures { Stated (λ p. ready p) self.entry.sorts.now at result }
    {
        if self.stands(at, Role::Complements) {
            return self.denial(at + 1, false);
        }
        let speech = self.speech_at(at).ok_or(SentenceFault::Place(at))?;
        match speech {
            Speech::Lets => self.binds(at + 1),
            Speech::Flags => self.warning(at + 1),
            Speech::Words(word) => self.claim(at + 1, false, false, word),
            _ => Err(SentenceFault::Place(at)),
        }
    }
}
