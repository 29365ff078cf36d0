//! The writes of a location, by where they stand in its line.
ghost use Rattle.std.specs.Prelude.{◌≡◌};
ghost use Rattle.run.specs.Tests.{table_run};
ghost use Rattle.coherence.specs.Lines.{First, Free, Last, chosen};
ghost use Rattle.coherence.specs.Masks.{mask_of};

use run::{Kind, Snapshot};

/// The initial writes of a location.
pub(crate) fn first(events: &Snapshot, location: u8) -> u32
    ensures { result ≡ mask_of (chosen First (table_run events.now.events) location) 32 }
{
    events.gather(|event| event.is_initial() && event.location == location)
}

/// Its free writes: neither initial nor settled.
pub(crate) fn free(events: &Snapshot, location: u8) -> u32
    ensures { result ≡ mask_of (chosen Free (table_run events.now.events) location) 32 }
{
    events.gather(|event| event.is(Kind::Write) && !event.settled && event.location == location)
}

/// Its settled writes that are not initial.
pub(crate) fn last(events: &Snapshot, location: u8) -> u32
    ensures { result ≡ mask_of (chosen Last (table_run events.now.events) location) 32 }
{
    events.gather(|event| event.is(Kind::Write) && event.settled && event.location == location)
}
