//! Operators on values, by their tags.
ghost use Rattle.relation.specs.Sets.{SameEvents};
ghost use Rattle.relation.specs.Relations.{SamePairs};
ghost use Rattle.relation.specs.Masks.{Member, Related};
ghost use Rattle.relation.specs.Values.{Means};
ghost use Rattle.meaning.specs.Operators.{events_of, pairs_of, outside, infixed, postfixed, tested};
ghost use Rattle.meaning.specs.Tables.{value_meaning};
ghost use Rattle.meaning.specs.Kinds.{OfOneKind};

use relation::{Kind, Relation, Value, mask};
use sentence::sign::{Infix, Post};

/// The events of a set; a relation has none.
pub fn events_in(value: Value) -> u32
    ensures { SameEvents (Member result) (events_of (value_meaning value)) }
{
    match value.kind {
        Kind::Events => value.mask,
        Kind::Pairs => 0,
    }
}

/// The pairs of a relation; a set has none.
pub fn pairs_in(value: Value) -> Relation
    ensures { SamePairs (Related result.rows) (pairs_of (value_meaning value)) }
{
    match value.kind {
        Kind::Events => Relation::none(),
        Kind::Pairs => value.relation(),
    }
}

/// An operator between two values of one kind, by the kind of the first: the one on sets, or the one on relations.
fn alike<F: Fn(u32, u32) -> u32, G: Fn(Relation, Relation) -> Relation>(
    left: Value,
    right: Value,
    sets: F,
    relations: G,
) -> Value
    requires sets { F.IsAlwaysCallable sets }
    requires relations { G.IsAlwaysCallable relations }
    ensures { OfOneKind (F.post sets) (G.post relations) left right result }
{
    match left.kind {
        Kind::Events => Value::events(sets(left.mask, events_in(right))),
        Kind::Pairs => Value::pairs(relations(left.relation(), pairs_in(right))),
    }
}

/// What is not in a value, within the universe.
pub fn outside(universe: u32, value: Value) -> Value
    ensures { Means result (outside (Member universe) (value_meaning value)) }
{
    match value.kind {
        Kind::Events => Value::events(mask::complement(value.mask, universe)),
        Kind::Pairs => Value::pairs(value.relation().complement(universe)),
    }
}

/// The value of a sign between two operands.
pub fn infixed(sign: Infix, left: Value, right: Value) -> Value
    ensures { Means result (infixed sign (value_meaning left) (value_meaning right)) }
{
    match sign {
        Infix::Bar => alike(left, right, mask::union, Relation::union),
        Infix::Semicolon => Value::pairs(pairs_in(left).sequence(pairs_in(right))),
        Infix::Backslash => alike(left, right, mask::difference, Relation::difference),
        Infix::Ampersand => alike(left, right, mask::intersection, Relation::intersection),
        Infix::Product => Value::pairs(Relation::product(events_in(left), events_in(right))),
    }
}

/// The value of a sign behind its operand, within the universe.
pub fn postfixed(universe: u32, sign: Post, value: Value) -> Value
    ensures { Means result (postfixed (Member universe) sign (value_meaning value)) }
{
    let relation = pairs_in(value);
    match sign {
        Post::Plus => Value::pairs(relation.closure()),
        Post::Closure => Value::pairs(relation.star(universe)),
        Post::Question => Value::pairs(relation.maybe(universe)),
        Post::Inverse => Value::pairs(relation.inverse()),
    }
}

/// Identity on a set.
pub fn tested(value: Value) -> Value
    ensures { Means result (tested (value_meaning value)) }
{
    Value::pairs(Relation::identity(events_in(value)))
}
