//! Event sets: a mask has the events whose bits are set.
ghost use Rattle.std.specs.Prelude.{◌<◌, Decides};
ghost use Rattle.relation.specs.Sets.{Either, Both, Without, Outside, Single, Gated, SameEvents, Vacant};
ghost use Rattle.relation.specs.Masks.{Member, Marks};

/// The events of either set.
pub fn union(a: u32, b: u32) -> u32
    ensures { Marks result (Either (Member a) (Member b)) }
{
    a | b
}

/// The events of both sets.
pub fn intersection(a: u32, b: u32) -> u32
    ensures { Marks result (Both (Member a) (Member b)) }
{
    a & b
}

/// The events of the first set that are not in the second.
pub fn difference(a: u32, b: u32) -> u32
    ensures { Marks result (Without (Member a) (Member b)) }
{
    a & !b
}

/// The events of the universe that are not in the set.
pub fn complement(a: u32, universe: u32) -> u32
    ensures { Marks result (Outside (Member universe) (Member a)) }
{
    universe & !a
}

/// Whether the sets have the same events.
pub fn is(a: u32, b: u32) -> bool
    ensures { Decides result (SameEvents (Member a) (Member b)) }
{
    a == b
}

/// Whether the set has no event.
pub fn is_empty(a: u32) -> bool
    ensures { Decides result (Vacant (Member a)) }
{
    a == 0
}

// An event's number is no type of its own: they come from 0..32 here, where the bound is known, and from fields of any byte.
/// The set of one event.
pub(crate) fn single(event: usize) -> u32
    requires { event < 32 }
    ensures { Marks result (Single event) }
{
    1 << event
}

/// The second set where the event is in the first, else nothing: by a mask, without a branch.
pub(crate) fn gated(a: u32, event: usize, b: u32) -> u32
    requires { event < 32 }
    ensures { Marks result (Gated (Member a event) (Member b)) }
{
    0u32.wrapping_sub((a >> event) & 1) & b
}
