//! The calls of the bench: enter, tie, settle and clear, and its answers as a run source.
ghost use Rattle.std.specs.Prelude.{◌≡◌};
ghost use Rattle.bench.specs.Benches.{bench_run};
ghost use Rattle.bench.specs.Refusals.{Answers};
ghost use Rattle.bench.specs.Keeps.{Orderly};
ghost use Rattle.run.specs.Runs.{Run, shown, nothing};
ghost use Rattle.run.specs.Tests.{table_run};
ghost use Rattle.bench.specs.Tests.{refusal, answer, stepped};
ghost use Rattle.bench.specs.declared.action.Action.TheVariants.{Enter, Tie, Settle};

use super::Bench;
use crate::action::{Action, Entry};
use crate::fault::BenchFault;
use crate::refuse::judge;
use crate::take::take;
use run::{Event, RunSource, Snapshot};

/// A bench shows the run that its calls have led to.
impl RunSource for Bench {
    ghost standing = { λ b. bench_run b };

    fn event(&self, number: u8) -> Option<Event> {
        self.table.event(number)
    }
}

impl Bench {
    /// A new bench, which holds no event.
    pub fn new() -> Bench
        ensures { bench_run result ≡ nothing }
    {
        Bench {
            table: Snapshot::empty(),
        }
    }

    /// The events on the bench, with what every bench keeps.
    pub fn events(&self) -> Snapshot
        ensures same { table_run result.events ≡ bench_run self.now }
        ensures kept { Orderly (bench_run self.now) }
    {
        // The `let` is for must-fail/events_lost.edit: its text has to stand here once, and `self.table` stands in other methods too.
        let events = self.table;
        events
    }

    /// Makes a call of enter, tie or settle.
    pub fn act(&mut self, action: Action) -> Result<(), BenchFault>
        ensures answers { Answers (bench_run self.old) action result }
        ensures value { result ≡ answer (refusal (bench_run self.old) action) }
        ensures run { bench_run self.new ≡ stepped (refusal (bench_run self.old) action) (bench_run self.old) action }
    {
        judge(&self.table, action)?;
        take(&mut self.table, action);
        Ok(())
    }

    /// Puts down an event with no source and not settled.
    pub fn enter(&mut self, entry: Entry) -> Result<(), BenchFault>
        ensures answers { Answers (bench_run self.old) (Enter entry) result }
        ensures value { result ≡ answer (refusal (bench_run self.old) (Enter entry)) }
        ensures run { bench_run self.new ≡ stepped (refusal (bench_run self.old) (Enter entry)) (bench_run self.old) (Enter entry) }
    {
        self.act(Action::Enter(entry))
    }

    /// Gives a read its source, in place of an earlier one.
    pub fn tie(&mut self, read: u8, write: u8) -> Result<(), BenchFault>
        ensures answers { Answers (bench_run self.old) (Tie read write) result }
        ensures value { result ≡ answer (refusal (bench_run self.old) (Tie read write)) }
        ensures run { bench_run self.new ≡ stepped (refusal (bench_run self.old) (Tie read write)) (bench_run self.old) (Tie read write) }
    {
        self.act(Action::Tie { read, write })
    }

    /// Marks a write as the final one of its location, also twice.
    pub fn settle(&mut self, number: u8) -> Result<(), BenchFault>
        ensures answers { Answers (bench_run self.old) (Settle number) result }
        ensures value { result ≡ answer (refusal (bench_run self.old) (Settle number)) }
        ensures run { bench_run self.new ≡ stepped (refusal (bench_run self.old) (Settle number)) (bench_run self.old) (Settle number) }
    {
        self.act(Action::Settle { number })
    }

    /// Empties the bench. It never refuses.
    pub fn clear(&mut self)
        ensures { bench_run self.new ≡ nothing }
    {
        self.table = Snapshot::empty();
    }
}
