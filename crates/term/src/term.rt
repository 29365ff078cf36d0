//! Terms: expressions whose names are resolved.
use sentence::sign::{Infix, Post};

/// What is given: the predefined names, and `_`, `0` and `{}`.
#[derive(Clone, Copy)]
pub enum Given {
    /// `_`, all standing events.
    Universe,
    /// `0`, the empty relation.
    NoPairs,
    /// `{}`, the empty set.
    NoEvents,
    /// `R`.
    Reads,
    /// `W`, the initial writes among them.
    Writes,
    /// `F`.
    Fences,
    /// `B`.
    Branches,
    /// `M`, reads and writes.
    Memory,
    /// `IW`, the initial writes.
    Initial,
    /// `FW`, the settled writes.
    Settled,
    /// `po`.
    ProgramOrder,
    /// `rf`.
    ReadsFrom,
    /// `loc`.
    SameLocation,
    /// `ext`.
    OtherThread,
    /// `id`.
    Identity,
    /// `co`, the coherence order under trial.
    Coherence,
}

/// An expression whose names are resolved. A number before a part is that of the token that stands for it.
#[derive(Drop)]
pub enum Term {
    Given(Given),
    /// A bound name: its token, and the number of its binding in the text.
    Bound(usize, usize),
    /// A name that is neither given nor bound there.
    Unbound(usize),
    /// `[` and a set: identity on it.
    Test(usize, Box<Term>),
    /// `~`.
    Complement(Box<Term>),
    /// A sign behind its operand.
    Ended(usize, Post, Box<Term>),
    /// A sign between its operands.
    Joined(usize, Infix, Box<Term>, Box<Term>),
}
