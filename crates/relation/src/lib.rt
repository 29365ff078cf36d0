//! Event sets and relations as masks, their operators, and the climb to a least solution.
#![tactic(auto)]

pub mod climb;
pub mod closing;
pub mod mask;
pub mod reach;
pub mod relation;
pub mod renumbering;
pub mod value;

pub use climb::Ascent;
pub use closing::Closing;
pub use reach::Reach;
pub use relation::Relation;
pub use value::{Kind, Value};
