//! Actions: the calls that change a bench, as values.
ghost use Rattle.std.specs.Prelude.{◌≡◌};
ghost use Rattle.bench.specs.Steps.{fresh};

use run::Event;

/// What enter puts down: an event's number and fields, as yet with no source and not settled.
#[derive(Clone, Copy, PartialEq, Eq, Debug)]
pub struct Entry {
    pub number: u8,
    pub kind: u8,
    pub thread: u8,
    pub step: u8,
    pub location: u8,
    pub value: u32,
}

impl Entry {
    /// The event that is put down: no source, not settled.
    pub fn event(&self) -> Event
        ensures { result ≡ fresh self.now }
    {
        Event {
            kind: self.kind,
            thread: self.thread,
            step: self.step,
            location: self.location,
            value: self.value,
            source: None,
            settled: false,
        }
    }
}

/// A call of enter, tie or settle with its arguments.
#[derive(Clone, Copy, PartialEq, Eq, Debug)]
pub enum Action {
    Enter(Entry),
    Tie { read: u8, write: u8 },
    Settle { number: u8 },
}
