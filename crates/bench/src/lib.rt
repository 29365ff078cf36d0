//! The bench: a run that is built up by calls, each refused exactly by its numbered refusals.
#![tactic(auto)]

pub mod action;
pub mod bench;
pub mod fault;
mod refuse;
mod take;

pub use action::{Action, Entry};
pub use bench::Bench;
pub use fault::BenchFault;
