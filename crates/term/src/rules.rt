//! The rules of kinds: which operands fit a sign, and what kind it then gives.
ghost use Rattle.std.specs.Prelude.{◌≡◌};
ghost use Rattle.term.specs.Kinds.{given_kind, as_set, as_relation, one_kind, fits, made, behind, takes};

use super::kind::Kind;
use super::term::Given;
use sentence::sign::{Infix, Word};

/// The kind of what is given.
pub(crate) fn given_kind(given: Given) -> Kind
    ensures { result ≡ given_kind given }
{
    match given {
        Given::Universe
        | Given::NoEvents
        | Given::Reads
        | Given::Writes
        | Given::Fences
        | Given::Branches
        | Given::Memory
        | Given::Initial
        | Given::Settled => Kind::Set,
        Given::NoPairs
        | Given::ProgramOrder
        | Given::ReadsFrom
        | Given::SameLocation
        | Given::OtherThread
        | Given::Identity
        | Given::Coherence => Kind::Relation,
    }
}

/// Whether it can serve as a set.
pub(crate) fn as_set(operand: Kind) -> bool
    ensures { result ≡ as_set operand }
{
    operand != Kind::Relation
}

/// Whether it can serve as a relation.
pub(crate) fn as_relation(operand: Kind) -> bool
    ensures { result ≡ as_relation operand }
{
    operand != Kind::Set
}

/// Whether the two can be of one kind.
fn one_kind(left: Kind, right: Kind) -> bool
    ensures { result ≡ one_kind left right }
{
    match left {
        Kind::Set => as_set(right),
        Kind::Relation => as_relation(right),
        Kind::Torn => true,
    }
}

/// Whether the operands of a sign fit: two of one kind, two relations, two sets.
pub(crate) fn fits(sign: Infix, left: Kind, right: Kind) -> bool
    ensures { result ≡ fits sign left right }
{
    match sign {
        Infix::Bar | Infix::Backslash | Infix::Ampersand => one_kind(left, right),
        Infix::Semicolon => as_relation(left) && as_relation(right),
        Infix::Product => as_set(left) && as_set(right),
    }
}

/// What a sign gives of operands that fit.
pub(crate) fn made(sign: Infix, left: Kind) -> Kind
    ensures { result ≡ made sign left }
{
    match sign {
        Infix::Bar | Infix::Backslash | Infix::Ampersand => left,
        Infix::Semicolon | Infix::Product => Kind::Relation,
    }
}

/// The kind behind an operand: torn if the operand is.
pub(crate) fn behind(operand: Kind, kind: Kind) -> Kind
    ensures { result ≡ behind operand kind }
{
    match operand {
        Kind::Torn => Kind::Torn,
        _ => kind,
    }
}

/// Whether the word of a check takes the kind: all but `empty` take a relation alone.
pub(crate) fn takes(word: Word, operand: Kind) -> bool
    ensures { result ≡ takes word operand }
{
    word == Word::Empty || as_relation(operand)
}
