//! Relations between events: 32 rows of 32 bits, by value.
ghost use Rattle.std.specs.Prelude.{◌<◌, Decides};
ghost use Rattle.relation.specs.Relations.{Never, Union, Intersection, Difference, Complement, Sequence, Inverse, Product, Identity, Maybe, Image, Range, Diagonal, SamePairs, Empty, Irreflexive};
ghost use Rattle.relation.specs.Masks.{Member, Marks, Related, Shows, Joined};
ghost use Rattle.relation.specs.Rows.{TakesEvents, RowsBy};

use super::mask;
use std::array;

/// A relation: the row of an event has the events that it is related to.
#[derive(Clone, Copy)]
pub struct Relation {
    pub rows: [u32; 32],
}

impl Relation {
    /// The relation whose rows are what a function gives for each event.
    pub fn by_rows<F: Fn(usize) -> u32>(row: F) -> Relation
        requires { TakesEvents (F.pre row) }
        ensures { RowsBy (F.post row) result.rows }
    {
        let rows = array::from_fn(row);
        Relation { rows }
    }

    /// The relation with no pair.
    pub fn none() -> Relation
        ensures { Shows result.rows Never }
    {
        Relation { rows: [0; 32] }
    }

    /// Every event of the first set with every event of the second.
    pub fn product(a: u32, b: u32) -> Relation
        ensures { Shows result.rows (Product (Member a) (Member b)) }
    {
        Relation::by_rows(|i| mask::gated(a, i, b))
    }

    /// Every event of the set with itself.
    pub fn identity(events: u32) -> Relation
        ensures { Shows result.rows (Identity (Member events)) }
    {
        Relation::by_rows(|i| mask::gated(events, i, mask::single(i)))
    }

    /// The pairs of either relation.
    pub fn union(self, other: Relation) -> Relation
        ensures { Shows result.rows (Union (Related self.rows) (Related other.rows)) }
    {
        Relation::by_rows(|i| mask::union(self.rows[i], other.rows[i]))
    }

    /// The pairs of both relations.
    pub fn intersection(self, other: Relation) -> Relation
        ensures { Shows result.rows (Intersection (Related self.rows) (Related other.rows)) }
    {
        Relation::by_rows(|i| mask::intersection(self.rows[i], other.rows[i]))
    }

    /// The pairs of this relation that are not in the other.
    pub fn difference(self, other: Relation) -> Relation
        ensures { Shows result.rows (Difference (Related self.rows) (Related other.rows)) }
    {
        Relation::by_rows(|i| mask::difference(self.rows[i], other.rows[i]))
    }

    /// The pairs of events of the universe that are not in the relation.
    pub fn complement(self, universe: u32) -> Relation
        ensures { Shows result.rows (Complement (Member universe) (Related self.rows)) }
    {
        Relation::by_rows(|i| mask::gated(universe, i, mask::complement(self.rows[i], universe)))
    }

    /// At most one step.
    pub fn maybe(self, universe: u32) -> Relation
        ensures { Shows result.rows (Maybe (Member universe) (Related self.rows)) }
    {
        Relation::identity(universe).union(self)
    }

    /// What the events of a set are related to.
    pub fn image(self, events: u32) -> u32
        ensures { Marks result (Image (Member events) (Related self.rows)) }
    {
        Relation::by_rows(|i| mask::gated(events, i, self.rows[i])).range()
    }

    /// What something is related to.
    pub fn range(self) -> u32
        ensures { Marks result (Range (Related self.rows)) }
    {
        self.rows.iter().fold(0, |found, row| found | *row)
    }

    /// What is related to itself.
    pub fn diagonal(self) -> u32
        ensures { Marks result (Diagonal (Related self.rows)) }
    {
        Relation::by_rows(|i| mask::gated(self.rows[i], i, mask::single(i))).range()
    }

    /// What is related to an event.
    fn column(self, event: usize) -> u32
        requires { event < 32 }
        ensures { Marks result (Inverse (Related self.rows) event) }
    {
        Relation::by_rows(|i| mask::gated(self.rows[i], event, mask::single(i))).range()
    }

    /// The relation read backwards.
    pub fn inverse(self) -> Relation
        ensures { Shows result.rows (Inverse (Related self.rows)) }
    {
        Relation::by_rows(|event| self.column(event))
    }

    /// The whole, and the onward row for every event that this relation relates to the middle one.
    fn through(self, whole: Relation, middle: usize, onward: u32) -> Relation
        requires { middle < 32 }
        ensures { Shows result.rows (Union (Related whole.rows) (Product (Inverse (Related self.rows) middle) (Member onward))) }
    {
        Relation::by_rows(|i| mask::union(whole.rows[i], mask::gated(self.rows[i], middle, onward)))
    }

    /// A step of this relation, then one of the other.
    pub fn sequence(self, other: Relation) -> Relation
        ensures { Shows result.rows (Sequence (Related self.rows) (Related other.rows)) }
    {
        (0..32).fold(Relation::none(), |whole, middle| {
            self.through(whole, middle, other.rows[middle])
        })
    }

    /// The relation joined with itself in place, each middle event in turn.
    pub(crate) fn joined(self) -> Relation
        ensures { Joined (Related self.rows) result.rows }
    {
        (0..32).fold(self, |whole: Relation, via| {
            whole.through(whole, via, whole.rows[via])
        })
    }

    /// Whether the relations have the same pairs.
    pub fn is(self, other: Relation) -> bool
        ensures { Decides result (SamePairs (Related self.rows) (Related other.rows)) }
    {
        // Without a branch for each row: with a derived `==` the closure of 32 events took 420 ns in place of 343.
        let apart = self.difference(other).union(other.difference(self));
        apart.is_empty()
    }

    /// Whether no pair is in the relation.
    pub fn is_empty(self) -> bool
        ensures { Decides result (Empty (Related self.rows)) }
    {
        mask::is_empty(self.range())
    }

    /// Whether no event is related to itself.
    pub fn is_irreflexive(self) -> bool
        ensures { Decides result (Irreflexive (Related self.rows)) }
    {
        mask::is_empty(self.diagonal())
    }
}
