//! What is given: the predefined sets and relations of a run, as masks and rows.
#![tactic(auto)]

pub mod base;
mod bond;

pub use base::Base;
