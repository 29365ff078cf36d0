//! Summaries: what a record holds, in numbers and as text.
#![tactic(auto)]

ghost use Rattle.std.specs.Prelude.{◌≡◌, ◌+◌, Bool, Some, IfOk, string_bytes, MatchResult};
ghost use Rattle.std.specs.Fn.{FnReturnsAt};
ghost use Rattle.finite.specs.Counts.{Counts};
ghost use Rattle.record.specs.Readings.{Faulty};
ghost use Rattle.run.specs.declared.event.Event.{Event};
ghost use Rattle.run.specs.Tests.{table_run};
ghost use Rattle.summary.specs.Sums.{AtMark, Summed, verdict_text, summary_text, Told};

use record::{Record, RecordFault};
use run::{Breach, Event, Snapshot};
use std::alloc::{AllocError, Global};
use std::fmt;

/// What a record holds: its events, ties and settlings, and where it is not sound.
#[derive(Clone, Copy, PartialEq, Eq, Debug)]
pub struct Summary {
    pub events: u8,
    pub ties: u8,
    pub settled: u8,
    pub breach: Option<Breach>,
}

/// How many events have a mark.
fn count<F: Fn(&Event) -> bool>(events: &Snapshot, has_mark: F) -> u8
    requires { F.IsAlwaysCallable has_mark }
    ensures { (mark : Event → Bool) → ((e : Event) → (b : Bool) → FnReturnsAt F.Fn has_mark e b → b ≡ mark e) → Counts (AtMark mark (table_run events.now.events)) result }
{
    let marked = events
        .events
        .iter()
        .filter(|event| event.is_some_and(|event| has_mark(&event)));
    marked.count() as u8
}

/// Sums up a record, or tells its fault.
pub fn sum_up(bytes: &[u8]) -> Result<Summary, RecordFault>
    ensures { MatchResult result (λ s. Summed bytes.now s) (λ f. Faulty bytes.now f) }
{
    let record = Record::read(bytes)?;
    let events = Snapshot::of(&record);
    Ok(Summary {
        events: count(&events, |_| true),
        ties: count(&events, |event| event.source.is_some()),
        settled: count(&events, |event| event.settled),
        breach: events.examine(),
    })
}

/// The line on whether a run is sound.
#[derive(Clone, Copy)]
struct Verdict(Option<Breach>);

impl fmt::Display for Verdict {
    ghost output = { λ v. Some (verdict_text v.0) };

    fn fmt<W: fmt::Write>(&self, f: &mut fmt::Formatter<W>) -> fmt::Result {
        match self.0 {
            None => write!(f, "SOUND"),
            Some(breach) => {
                let rule = breach.rule.number();
                let event = breach.event;
                write!(f, "UNSOUND RULE {rule} EVENT {event}")
            }
        }
    }
}

/// The two lines of a summary.
impl fmt::Display for Summary {
    ghost output = { λ s. Some (summary_text s) };

    fn fmt<W: fmt::Write>(&self, f: &mut fmt::Formatter<W>) -> fmt::Result {
        let events = self.events;
        let ties = self.ties;
        let settled = self.settled;
        let verdict = Verdict(self.breach);
        write!(
            f,
            "EVENTS {events} TIES {ties} SETTLED {settled}\n{verdict}"
        )
    }
}

/// What the program says of the bytes of a record: what it holds, or why it is refused.
pub fn account(heap: Global, bytes: &[u8]) -> Result<String, AllocError>
    ensures { IfOk result (λ t. Told bytes.now (string_bytes t)) }
{
    match sum_up(bytes) {
        Ok(summary) => summary.to_string(heap),
        Err(fault) => fault.refusal().to_string(heap),
    }
}
