//! What a model means: the values of its terms, and which of its checks hold.
#![tactic(auto)]

pub mod bindings;
pub mod check;
pub mod equations;
pub mod operate;
pub mod outcome;
pub mod setting;
pub mod solving;
pub mod values;

pub use setting::Setting;
pub use values::Values;
