//! Records: the bytes of a run, their reader and their writer.
#![tactic(auto)]

mod calls;
pub mod fault;
mod format;
pub mod read;
pub mod writer;

pub use fault::{RecordFault, WriteFault};
pub use read::Record;
pub use writer::write;
