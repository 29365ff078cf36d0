//! Reading a whole text.
ghost use Rattle.sentence.specs.Reading.{ReadAs};

use super::fault::SentenceFault;
use super::parser::Parser;
use super::role::{Role, Speech};
use super::sort::Sort;
use super::statement::*;
use std::alloc::Global;

/// Reads sorts as a sentence: accepted exactly when they are a text, with its one sentence; else refused at the first
/// sort that no text has there, or at the end of what only begins a text.
pub fn read(heap: Global, sorts: &[Sort]) -> Result<Sentence, SentenceFault>
    ensures { ReadAs sorts.now result }
{
    let parser = Parser { heap, sorts };
    let titled = parser.stands(0, Role::Speaks(Speech::Titles));
    let mut at = usize::from(titled);
    let mut statements: Vec<Statement> = Vec::new(heap);
    // Each statement says where the next one begins, and may refuse.
    while at < sorts.len() {
        let said = parser.statement(at)?;
        statements.push(said.item)?;
        at = said.next;
    }
    Ok(Sentence { titled, statements })
}
