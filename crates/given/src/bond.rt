//! Bonds between two events, and the pairs of events of a run that have one.
ghost use Rattle.std.specs.Prelude.{◌<◌};
ghost use Rattle.run.specs.Tests.{table_run};
ghost use Rattle.relation.specs.Masks.{Shows};
ghost use Rattle.given.specs.Givens.{program_order, reads_from, same_location, other_thread};
ghost use Rattle.given.specs.Bonds.{Answers, RowOf, Bonded};

use relation::Relation;
use run::{Event, Snapshot};

// The number's bound is asked in a clause: a type of its own would be made for this one call and taken apart here.
/// The events to which the event at a number passes the test.
fn row<F: Fn(u8, &Event, &Event) -> bool>(events: &Snapshot, number: usize, test: &F) -> u32
    requires callable { F.IsAlwaysCallable test.now }
    requires within { number < 32 }
    ensures { RowOf (Answers F.Fn test.now) (table_run events.now.events) number result }
{
    // With `map_or`, `returns` of given::bond::row stays open: what the inner closure gave is not found to be `Gathered` by the test.
    match events.events[number] {
        None => 0,
        Some(event) => events.gather(|other| test(number as u8, &event, other)),
    }
}

/// The pairs that pass a test of the first event's number and both events.
fn pairs<F: Fn(u8, &Event, &Event) -> bool>(events: &Snapshot, test: F) -> Relation
    requires { F.IsAlwaysCallable test }
    ensures { Bonded (Answers F.Fn test) (table_run events.now.events) result.rows }
{
    Relation::by_rows(|number| row(events, number, &test))
}

/// From lower to higher step in a thread 1 to 8.
pub(crate) fn program_order(events: &Snapshot) -> Relation
    ensures { Shows result.rows (program_order (table_run events.now.events)) }
{
    pairs(events, |_, event, other| {
        event.is_threaded() && event.thread == other.thread && event.step < other.step
    })
}

/// From a source to a read that has it.
pub(crate) fn reads_from(events: &Snapshot) -> Relation
    ensures { Shows result.rows (reads_from (table_run events.now.events)) }
{
    pairs(events, |number, _, other| other.source == Some(number))
}

/// Between reads and writes of one location.
pub(crate) fn same_location(events: &Snapshot) -> Relation
    ensures { Shows result.rows (same_location (table_run events.now.events)) }
{
    pairs(events, |_, event, other| {
        event.is_memory() && other.is_memory() && event.same_place(other)
    })
}

/// Between events of different threads.
pub(crate) fn other_thread(events: &Snapshot) -> Relation
    ensures { Shows result.rows (other_thread (table_run events.now.events)) }
{
    pairs(events, |_, event, other| event.thread != other.thread)
}
