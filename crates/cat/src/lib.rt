//! Models: from the bytes of a text to its statements, or one of the refusals of reading.
#![tactic(auto)]

pub mod binding;
pub mod build;
pub mod class;
pub mod expression;
pub mod fault;
pub mod law;
pub mod mark;
pub mod model;
pub mod read;
pub mod scope;
pub mod sort;
pub mod statement;

pub use fault::ModelFault;
pub use model::Model;
