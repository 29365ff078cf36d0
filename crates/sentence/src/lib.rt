//! Sentences: the grammar of a model text over sorts of tokens.
#![tactic(auto)]

pub mod fault;
pub mod law;
pub mod parse;
pub mod parser;
pub mod phrase;
pub mod placed;
pub mod role;
pub mod sign;
pub mod sort;
pub mod statement;
pub mod text;
pub mod tree;

pub use fault::SentenceFault;
pub use placed::Placed;
pub use sort::Sort;
pub use statement::{Sentence, Statement};
pub use text::read;
pub use tree::Expr;
