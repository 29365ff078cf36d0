//! A model: the text last read into it, or unread. This file has its type.
ghost use Rattle.std.specs.Option.{ForSome};
ghost use Rattle.term.specs.Statements.{statements_of};
ghost use Rattle.cat.specs.Readings.{HasText};

use term::Statement;

pub mod calls;

/// The statements of the text last read, if the model is read.
#[derive(Drop)]
pub struct Model {
    statements: Option<Vec<Statement>>,
    ghost text: { ForSome statements (λ v. ∥ HasText (statements_of v.items) ∥₁) },
}
