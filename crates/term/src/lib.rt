//! Terms: what a model is made of once its names are resolved, and which of its parts are at fault.
#![tactic(auto)]

pub mod kind;
mod kinds;
pub mod law;
mod least;
mod names;
mod recursion;
mod rules;
pub mod statement;
pub mod term;

pub use kind::Kind;
pub use kinds::kind_fault;
pub use names::name_fault;
pub use recursion::recursion_fault;
pub use statement::Statement;
pub use term::{Given, Term};
