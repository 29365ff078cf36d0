//! Values: an event set or a relation.
ghost use Rattle.std.specs.Prelude.{◌≡◌};
ghost use Rattle.relation.specs.Masks.{Member, Related};
ghost use Rattle.relation.specs.Values.{of_events, of_pairs, Means};

use super::relation::Relation;

/// What a value is: a set of events, or a relation.
#[derive(Clone, Copy, Debug, PartialEq, Eq)]
pub enum Kind {
    Events,
    Pairs,
}

// Rows that go from one struct into another stand in a variable first: the check covers no array field that goes straight into a
// literal.
/// A value of either kind: the set in its mask, or the relation in its rows.
#[derive(Clone, Copy)]
pub struct Value {
    pub kind: Kind,
    pub mask: u32,
    pub rows: [u32; 32],
}

impl Value {
    /// A set of events.
    pub fn events(mask: u32) -> Value
        ensures { Means result (of_events (Member mask)) }
    {
        Value {
            kind: Kind::Events,
            mask,
            rows: [0; 32],
        }
    }

    /// A relation.
    pub fn pairs(relation: Relation) -> Value
        ensures { Means result (of_pairs (Related relation.rows)) }
    {
        let rows = relation.rows;
        Value {
            kind: Kind::Pairs,
            mask: 0,
            rows,
        }
    }

    /// The relation in the rows.
    pub fn relation(self) -> Relation
        ensures { result.rows ≡ self.rows }
    {
        let rows = self.rows;
        Relation { rows }
    }
}
