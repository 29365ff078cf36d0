//! Kinds of expressions.

// No Option of two kinds, though `behind` would be `and` then: what is torn lacks no kind but serves as either, and the rules in
// specs/Kinds name three.
/// A set of events, a relation, or an expression with a fault inside, which fits anywhere.
#[derive(Clone, Copy, PartialEq, Eq, Debug)]
pub enum Kind {
    Set,
    Relation,
    Torn,
}
