//! What can be done with a model.
ghost use Rattle.std.specs.Prelude.{◌≡◌, length, MatchResult};
ghost use Rattle.term.specs.Statements.{statements_of, claims};
ghost use Rattle.cat.specs.Models.{Unread, HoldsText, model_statements, IsRead};
ghost use Rattle.cat.specs.Readings.{Refused, OneReading};

use super::Model;
use crate::fault::ModelFault;
use crate::read::parse;
use std::alloc::Global;
use term::Statement;

/// How many checks there are among statements.
fn count_checks(statements: &[Statement]) -> usize
    ensures { result ≡ length (claims (statements_of statements.now)) }
{
    statements
        .iter()
        .filter(|statement| matches!(statement, Statement::Check(_)))
        .count()
}

impl Model {
    /// A model that is not read yet.
    pub fn new() -> Model
        ensures { Unread result }
    {
        Model { statements: None }
    }

    /// Reads a text in place of what the model held. Refused, with the first listed fault at its lowest place, the model
    /// is unread. The text is only looked at.
    pub fn read(&mut self, heap: Global, text: &[u8]) -> Result<(), ModelFault>
        ensures told { MatchResult result (λ _. HoldsText self.new text.now) (λ f. Refused text.now f × Unread self.new) }
        ensures one { OneReading text.now }
    {
        self.statements = None;
        self.statements = Some(parse(heap, text)?);
        Ok(())
    }

    /// Whether a text is read; then some text has these statements.
    pub fn is_read(&self) -> bool
        ensures { IsRead self.now result }
    {
        self.statements.is_some()
    }

    /// The statements of the text, in text order; none of an unread model.
    pub fn statements(&self) -> &[Statement]
        ensures { statements_of result.now ≡ model_statements self.now }
    {
        self.statements
            .as_ref()
            .map_or(&[], |statements| statements.as_slice())
    }

    /// How many checks the model has, flags included.
    pub fn checks(&self) -> usize
        ensures { result ≡ length (claims (model_statements self.now)) }
    {
        count_checks(self.statements())
    }
}
