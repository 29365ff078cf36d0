//! Reading a text.
ghost use Rattle.std.specs.Prelude.{◌≡◌, ◌+◌, map, MatchResult, None, IsSomeAnd};
ghost use Rattle.sentence.specs.Statements.{sentence_of};
ghost use Rattle.term.specs.Statements.{statements_of};
ghost use Rattle.token.specs.Views.{lexeme_view};
ghost use Rattle.cat.specs.Sorts.{sorts_of};
ghost use Rattle.cat.specs.Readings.{place_of, Lexed, Phrased, Resolves, Formed, Reads, Refused};

use super::class::over_limit;
use super::fault::ModelFault;
use super::sort::sorts;
use super::statement::statements;
use sentence::{Sentence, SentenceFault, Sort};
use std::alloc::Global;
use term::{Statement, kind_fault, name_fault, recursion_fault};
use token::{Lexeme, lex};

/// A text with its tokens.
#[derive(Clone, Copy)]
struct Source<'a> {
    text: &'a [u8],
    lexemes: &'a [Lexeme<'a>],
}

impl<'a> Source<'a> {
    /// The place of a token; behind the last one, the text's end.
    fn place_of(&self, token: usize) -> usize
        ensures { result ≡ place_of self.now.text.now (map lexeme_view self.now.lexemes.now) token }
    {
        self.lexemes
            .get(token)
            .map_or(self.text.len(), |lexeme| lexeme.place)
    }

    /// Refuses the token at fault, if there is one, at its place.
    fn refuse<F: FnOnce(usize) -> ModelFault>(
        &self,
        token: Option<usize>,
        fault: F,
    ) -> Result<(), ModelFault>
        requires { F.IsAlwaysCallable fault }
        ensures { MatchResult result (λ _. token ≡ None) (λ f. IsSomeAnd token (λ k. F.post fault (place_of self.now.text.now (map lexeme_view self.now.lexemes.now) k) f)) }
    {
        match token {
            Some(token) => Err(fault(self.place_of(token))),
            None => Ok(()),
        }
    }

    /// The sentence that is written with its tokens, of these sorts; refused at the first that no text has there.
    fn phrase(&self, heap: Global, sorts: &[Sort]) -> Result<Sentence, ModelFault>
        requires lexed { Lexed self.now.text.now (map lexeme_view self.now.lexemes.now) }
        requires sorts { sorts.now ≡ sorts_of (map lexeme_view self.now.lexemes.now) }
        ensures { MatchResult result (λ x. Phrased self.now.text.now (map lexeme_view self.now.lexemes.now) (sentence_of x)) (λ f. Refused self.now.text.now f) }
    {
        // Not `map_err`: of a closure here that calls a method of self, or a free function of the two slices, what `map_err`
        // ensures comes to `Unit`, and the goal `returns` of `cat::read::Source::phrase` stays open.
        match sentence::read(heap, sorts) {
            Ok(found) => Ok(found),
            Err(SentenceFault::Memory) => Err(ModelFault::Memory),
            Err(SentenceFault::Place(token)) => Err(ModelFault::Sentence {
                place: self.place_of(token),
            }),
        }
    }

    /// Refuses the lowest name at fault, else the lowest wrong kind, else the lowest wrong recursion.
    fn formed(&self, heap: Global, statements: &[Statement]) -> Result<(), ModelFault>
        requires { Resolves self.now.text.now (map lexeme_view self.now.lexemes.now) (statements_of statements.now) }
        ensures { MatchResult result (λ _. Formed (statements_of statements.now)) (λ f. Refused self.now.text.now f) }
    {
        self.refuse(name_fault(statements), |place| ModelFault::Name { place })?;
        self.refuse(
            kind_fault(heap, statements)?,
            |place| ModelFault::Kind { place },
        )?;
        self.refuse(
            recursion_fault(statements),
            |place| ModelFault::Recursion { place },
        )
    }
}

/// The statements of a text, or the first listed fault at its lowest place. The text is only looked at.
pub(crate) fn parse(heap: Global, text: &[u8]) -> Result<Vec<Statement>, ModelFault>
    ensures { MatchResult result (λ v. Reads text.now (statements_of v.items)) (λ f. Refused text.now f) }
{
    let lexemes = lex(heap, text)?;
    let source = Source {
        text,
        lexemes: lexemes.as_slice(),
    };
    let sorts = sorts(heap, source.lexemes)?;
    let sentence = source.phrase(heap, sorts.as_slice())?;
    source.refuse(
        over_limit(sorts.as_slice()),
        |place| ModelFault::Limit { place },
    )?;
    let found = statements(heap, source.lexemes, &sentence)?;
    source.formed(heap, found.as_slice())?;
    Ok(found)
}
