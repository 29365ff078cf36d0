//! Refusals: the number, the part that found it and the place, as every fault of every part tells them.
#![tactic(auto)]

use std::fmt;

/// The part of Rothgwen that found a fault: the call that was refused.
#[derive(Clone, Copy, PartialEq, Eq, Debug)]
pub enum Part {
    Read,
    Enter,
    Tie,
    Settle,
    Judge,
    Show,
    Sheet,
    Record,
    Writer,
    Window,
}

/// A refusal as it is told: docs/REFUSALS.md has each number with its condition and its place.
#[derive(Clone, Copy, PartialEq, Eq, Debug)]
pub struct Refusal {
    pub number: u8,
    pub part: Part,
    pub place: usize,
}

/// A refusal's line: its number and its place.
impl fmt::Display for Refusal {
    ghost use Rattle.std.specs.Prelude.{Some};
    ghost use Rattle.refusal.specs.Lines.{refusal_text};

    ghost output = { λ r. Some (refusal_text r) };

    fn fmt<W: fmt::Write>(&self, f: &mut fmt::Formatter<W>) -> fmt::Result {
        let number = self.number;
        let place = self.place;
        write!(f, "REFUSED {number} {place}")
    }
}
