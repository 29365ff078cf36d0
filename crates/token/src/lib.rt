//! Tokens: from the bytes of a model text to its tokens, each at its place.
#![tactic(auto)]

pub mod class;
pub mod fault;
pub mod lexer;
pub mod piece;
mod pieces;
pub mod token;

pub use class::{Class, class_of};
pub use fault::ReadFault;
pub use lexer::lex;
pub use token::{Lexeme, Token};
