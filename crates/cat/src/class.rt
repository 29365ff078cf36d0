//! The limits of a text: how many names are bound, how many checks there are, how many brackets are open together.
ghost use Rattle.std.specs.Prelude.{◌≡◌, ◌+◌, ◌^◌, ◌<◌, drop};
ghost use Rattle.cat.specs.Limits.{class, first_class, counted, sum, past, Limited};

use sentence::Sort;

/// How many names a text may bind.
const MOST_NAMES: usize = 64;

/// How many check words a text may have.
const MOST_CHECKS: usize = 16;

/// How many brackets may be open together.
const MOST_OPEN: usize = 16;

/// What a sort of token is to the limits: a name; the `=` behind a bound one; a check word; a bracket that opens or closes.
#[derive(Clone, Copy, PartialEq, Eq, Debug)]
pub enum Class {
    Name,
    Equals,
    Word,
    Opens,
    Closes,
    Other,
}

/// How many of each stand before a token.
#[derive(Clone, Copy, PartialEq, Eq, Debug, Default)]
pub struct Tally {
    pub equals: usize,
    pub words: usize,
    pub opened: usize,
    pub closed: usize,
}

impl Tally {
    /// One more of a class.
    fn with(self, class: Class) -> Tally
        requires { sum self + 1 < 2 ^ 64 }
        ensures { result ≡ counted self class }
    {
        match class {
            Class::Equals => Tally {
                equals: self.equals + 1,
                ..self
            },
            Class::Word => Tally {
                words: self.words + 1,
                ..self
            },
            Class::Opens => Tally {
                opened: self.opened + 1,
                ..self
            },
            Class::Closes => Tally {
                closed: self.closed + 1,
                ..self
            },
            Class::Name | Class::Other => self,
        }
    }

    /// Whether one of a class is past a limit, with what stands behind it and what is counted before it.
    fn is_past(self, class: Class, next: Class) -> bool
        ensures { result ≡ past class next self }
    {
        match class {
            Class::Name => next == Class::Equals && self.equals >= MOST_NAMES,
            Class::Word => self.words >= MOST_CHECKS,
            Class::Opens => self.opened.saturating_sub(self.closed) >= MOST_OPEN,
            _ => false,
        }
    }
}

/// What a sort is to the limits.
fn class_of(sort: Sort) -> Class
    ensures { result ≡ class sort }
{
    match sort {
        Sort::Name => Class::Name,
        Sort::Equals => Class::Equals,
        Sort::Acyclic | Sort::Irreflexive | Sort::Empty => Class::Word,
        Sort::Open | Sort::OpenSquare => Class::Opens,
        Sort::Close | Sort::CloseSquare => Class::Closes,
        _ => Class::Other,
    }
}

/// What the sort at a place is to the limits; nothing behind the end.
fn class_at(sorts: &[Sort], at: usize) -> Class
    ensures { result ≡ first_class (drop at sorts.now) }
{
    sorts.get(at).map_or(Class::Other, |sort| class_of(*sort))
}

// The token is a value, and no fault yet: what reads the text refuses it at its place.
/// The first token past a limit: the 65th bound name, the 17th check word, or a bracket that opens while 16 are open.
pub(crate) fn over_limit(sorts: &[Sort]) -> Option<usize>
    ensures { Limited sorts.now result }
{
    let mut tally = Tally::default();
    for (at, sort) in sorts.iter().enumerate() {
        let class = class_of(*sort);
        if tally.is_past(class, class_at(sorts, at + 1)) {
            return Some(at);
        }
        tally = tally.with(class);
    }
    None
}
