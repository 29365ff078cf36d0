//! The given sets and relations as data.
ghost use Rattle.run.specs.Tests.{table_run};
ghost use Rattle.relation.specs.Values.{Means};
ghost use Rattle.given.specs.Bases.{base_meaning, BaseOf};
ghost use Rattle.given.specs.Orders.{no_order, Reordered};

use super::bond;
use relation::{Relation, Value};
use run::{Kind, Snapshot};
use term::Given;

/// The predefined sets and relations of a run, and the coherence order under trial.
#[derive(Clone, Copy)]
pub struct Base {
    pub universe: u32,
    pub reads: u32,
    pub writes: u32,
    pub fences: u32,
    pub branches: u32,
    pub memory: u32,
    pub initial: u32,
    pub settled: u32,
    pub program_order: Relation,
    pub reads_from: Relation,
    pub same_location: Relation,
    pub other_thread: Relation,
    pub coherence: Relation,
}

impl Base {
    /// What is given by a run, under no order yet.
    pub fn of(events: &Snapshot) -> Base
        ensures { BaseOf (table_run events.now.events) no_order result }
    {
        Base {
            universe: events.gather(|_| true),
            reads: events.gather(|event| event.is_read()),
            writes: events.gather(|event| event.is_write()),
            fences: events.gather(|event| event.is(Kind::Fence)),
            branches: events.gather(|event| event.is(Kind::Branch)),
            memory: events.gather(|event| event.is_memory()),
            initial: events.gather(|event| event.is_initial()),
            settled: events.gather(|event| event.is_write() && event.settled),
            program_order: bond::program_order(events),
            reads_from: bond::reads_from(events),
            same_location: bond::same_location(events),
            other_thread: bond::other_thread(events),
            coherence: Relation::none(),
        }
    }

    /// The same under another order.
    pub fn with_order(self, order: Relation) -> Base
        ensures { Reordered self order.rows result }
    {
        Base {
            coherence: order,
            ..self
        }
    }
}

/// The value of a given name.
pub fn value(base: &Base, given: Given) -> Value
    ensures { Means result (base_meaning base.now given) }
{
    match given {
        Given::Universe => Value::events(base.universe),
        Given::NoPairs => Value::pairs(Relation::none()),
        Given::NoEvents => Value::events(0),
        Given::Reads => Value::events(base.reads),
        Given::Writes => Value::events(base.writes),
        Given::Fences => Value::events(base.fences),
        Given::Branches => Value::events(base.branches),
        Given::Memory => Value::events(base.memory),
        Given::Initial => Value::events(base.initial),
        Given::Settled => Value::events(base.settled),
        Given::ProgramOrder => Value::pairs(base.program_order),
        Given::ReadsFrom => Value::pairs(base.reads_from),
        Given::SameLocation => Value::pairs(base.same_location),
        Given::OtherThread => Value::pairs(base.other_thread),
        Given::Identity => Value::pairs(Relation::identity(base.universe)),
        Given::Coherence => Value::pairs(base.coherence),
    }
}
