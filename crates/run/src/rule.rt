//! The seven rules of a sound run.
ghost use Rattle.std.specs.Prelude.{◌≡◌, ◌+◌, ◌*◌};
ghost use Rattle.run.specs.Numbers.{rule_number};

use super::snapshot::EVENTS;

/// A rule of a sound run, in the order in which they are tried.
#[derive(Clone, Copy, PartialEq, Eq, Debug)]
pub enum Rule {
    /// Each field is in its range.
    Ranges = 1,
    /// No two events of a thread have the same step.
    Steps = 2,
    /// No location has two initial writes.
    Initials = 3,
    /// Only reads have a source, a standing write of the same location and value.
    Sources = 4,
    /// Only writes are settled, one in a location, an initial one only if it is alone.
    Settlings = 5,
    /// Each location of a read or write has an initial write.
    Initialised = 6,
    /// Each read has a source.
    Tied = 7,
}

impl Rule {
    /// The rule's number, 1 to 7.
    pub fn number(self) -> u8
        ensures { result ≡ rule_number self }
    {
        self as u8
    }
}

/// The first rule that a run breaks, and the lowest event at fault.
#[derive(Clone, Copy, PartialEq, Eq, Debug)]
pub struct Breach {
    pub rule: Rule,
    pub event: u8,
}

impl Breach {
    /// The place that a refusal tells: the rule's number times 32 plus the event's.
    pub fn place(&self) -> usize
        ensures { result ≡ rule_number self.now.rule * 32 + self.now.event }
    {
        self.rule.number() as usize * EVENTS + self.event as usize
    }
}
