//! Links: how one event of a run can stand to another, as far as the rules ask.

/// How another event stands to an event.
#[derive(Clone, Copy, PartialEq, Eq, Debug)]
pub enum Link {
    /// Another event of the same thread and step.
    SameStep,
    /// Another initial write of the same location.
    Twin,
    /// The event's source, a write of its location and value.
    Source,
    /// Another settled write of its location.
    OtherSettled,
    /// Another write of its location.
    OtherWrite,
    /// An initial write of its location.
    Origin,
}
