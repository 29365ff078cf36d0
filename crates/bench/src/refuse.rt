//! Which refusal of the bench applies to an action, over a table of events.
ghost use Rattle.std.specs.Prelude.{◌≡◌, Some};
ghost use Rattle.run.specs.Tests.{table_run};
ghost use Rattle.bench.specs.Tests.{agree, refusal, answer, clashes, bad_number};
ghost use Rattle.bench.specs.declared.action.Action.TheVariants.{Enter, Tie, Settle};

use super::action::{Action, Entry};
use super::fault::BenchFault;
use run::{EVENTS, Event, Rule, RunSource, Snapshot};

/// Whether both agree in location and value.
fn agree(one: &Event, other: &Event) -> bool
    ensures { result ≡ agree (Some one.now) (Some other.now) }
{
    one.same_place(other) && one.value == other.value
}

/// Whether the number of an entry is above 31 or standing.
fn bad_number(events: &Snapshot, number: u8) -> bool
    ensures { result ≡ bad_number (table_run events.now.events) number }
{
    number as usize >= EVENTS || events.event(number).is_some()
}

/// Whether an entry breaks the rule of steps or that of initial writes.
fn clashes(events: &Snapshot, number: u8, event: &Event) -> bool
    ensures { result ≡ clashes (table_run events.now.events) number event.now }
{
    events.broken(Rule::Steps, number, event) || events.broken(Rule::Initials, number, event)
}

/// Refuses an entry by the first fault that it has.
fn judge_entry(events: &Snapshot, entry: Entry) -> Result<(), BenchFault>
    ensures { result ≡ answer (refusal (table_run events.now.events) (Enter entry)) }
{
    let event = entry.event();
    if bad_number(events, entry.number) {
        Err(BenchFault::BadNumber)
    } else if !event.in_range() {
        Err(BenchFault::OutOfRange)
    } else if clashes(events, entry.number, &event) {
        Err(BenchFault::Clash)
    } else {
        Ok(())
    }
}

/// Refuses a tie by the first fault that it has.
fn judge_tie(events: &Snapshot, read: u8, write: u8) -> Result<(), BenchFault>
    ensures { result ≡ answer (refusal (table_run events.now.events) (Tie read write)) }
{
    let reader = events.event(read).filter(|event| event.is_read());
    let writer = events.event(write).filter(|event| event.is_write());
    let (reader, writer) = reader.zip(writer).ok_or(BenchFault::NoPair)?;
    if agree(&reader, &writer) {
        Ok(())
    } else {
        Err(BenchFault::Mismatch)
    }
}

/// Refuses a settling by the first fault that it has.
fn judge_settling(events: &Snapshot, number: u8) -> Result<(), BenchFault>
    ensures { result ≡ answer (refusal (table_run events.now.events) (Settle number)) }
{
    let standing = events.event(number).filter(|event| event.is_write());
    let event = standing.ok_or(BenchFault::NoWrite)?;
    if events.rivalled(number, &event) {
        Err(BenchFault::OtherSettled)
    } else {
        Ok(())
    }
}

/// Refuses an action by the first fault that it has.
pub(crate) fn judge(events: &Snapshot, action: Action) -> Result<(), BenchFault>
    ensures { result ≡ answer (refusal (table_run events.now.events) action) }
{
    match action {
        Action::Enter(entry) => judge_entry(events, entry),
        Action::Tie { read, write } => judge_tie(events, read, write),
        Action::Settle { number } => judge_settling(events, number),
    }
}
