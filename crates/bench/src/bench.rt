//! The bench: a run that is built up by calls. This file has its type, with what every bench keeps.
ghost use Rattle.run.specs.Tests.{table_run};
ghost use Rattle.bench.specs.Tests.{NoneFaulty, NoneMisplaced};
ghost use Rattle.run.specs.declared.rule.Rule.TheVariants.{Ranges, Steps, Initials, Sources};

use run::Snapshot;

pub mod calls;

/// A run in the making. At every moment it keeps the first four rules of a sound run, and only writes are settled,
/// at most one in a location.
#[derive(Clone, Copy)]
pub struct Bench {
    table: Snapshot,
    ghost ranges: { NoneFaulty Ranges (table_run table.events) },
    ghost steps: { NoneFaulty Steps (table_run table.events) },
    ghost initials: { NoneFaulty Initials (table_run table.events) },
    ghost sources: { NoneFaulty Sources (table_run table.events) },
    ghost settlings: { NoneMisplaced (table_run table.events) },
}
