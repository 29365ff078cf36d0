//! Whether a run is sound: the rules tried in their order on a snapshot.
ghost use Rattle.std.specs.Prelude.{◌≡◌};
ghost use Rattle.run.specs.Runs.{shown};
ghost use Rattle.run.specs.Rules.{Examined};
ghost use Rattle.run.specs.Tests.{table_run};

use super::rule::{Breach, Rule};
use super::snapshot::Snapshot;
use super::source::RunSource;
use std::array;

/// The rules in the order in which they are tried.
const RULES: [Rule; 7] = [
    Rule::Ranges,
    Rule::Steps,
    Rule::Initials,
    Rule::Sources,
    Rule::Settlings,
    Rule::Initialised,
    Rule::Tied,
];

impl Snapshot {
    /// Reads a source once.
    pub fn of<S: RunSource>(source: &S) -> Snapshot
        ensures { table_run result.events ≡ shown (S.RunSource.standing source.now) }
    {
        Snapshot {
            events: array::from_fn(|n| source.event(n as u8)),
        }
    }

    /// The first rule that the run breaks, with the lowest event at fault.
    pub fn examine(&self) -> Option<Breach>
        ensures { Examined (table_run self.now.events) result }
    {
        RULES.iter().find_map(|rule| {
            self.lowest_broken(*rule)
                .map(|event| Breach { rule: *rule, event })
        })
    }
}

/// Whether the run of a source is sound: nothing, or the first rule broken with the lowest event at fault.
pub fn soundness<S: RunSource>(source: &S) -> Option<Breach>
    ensures { Examined (S.RunSource.standing source.now) result }
{
    Snapshot::of(source).examine()
}
