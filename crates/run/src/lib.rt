//! Runs: events, run sources, the rules of a sound run, and the window.
#![tactic(auto)]

pub mod event;
pub mod link;
pub mod rule;
pub mod snapshot;
pub mod sound;
pub mod source;
pub mod window;

pub use event::{Event, Kind, LOCATIONS};
pub use link::Link;
pub use rule::{Breach, Rule};
pub use snapshot::{EVENTS, Snapshot};
pub use sound::soundness;
pub use source::RunSource;
pub use window::{Window, WindowFault};
