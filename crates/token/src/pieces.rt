//! The pieces of a text, one behind another.
ghost use Rattle.std.specs.Prelude.{◌≡◌, ◌-◌, ◌≤◌, length};
ghost use Rattle.std.specs.Iterator.{at_most};

use super::fault::ReadFault;
use super::piece::{Piece, piece_of};

/// The pieces of a text, one behind another, each with its place. A byte that begins none comes last, as a fault.
#[derive(Clone, Copy)]
pub(crate) struct Pieces<'a> {
    text: &'a [u8],
    at: usize,
    ghost within: { at ≤ length text.now },
}

impl<'a> Pieces<'a> {
    /// The pieces of a text.
    pub(crate) fn of(text: &'a [u8]) -> Pieces<'a>
        ensures text { result.text.now ≡ text.now }
        ensures start { result.at ≡ 0 }
    {
        Pieces { text, at: 0 }
    }
}

impl<'a> Iterator for Pieces<'a> {
    type Item = Result<(usize, Piece<'a>), ReadFault>;

    ghost use Rattle.token.specs.Walking.{GivesPiece};

    ghost next_gives = { GivesPiece };

    ghost remaining = { λ s. at_most (length s.text.now - s.at) };

    fn next(&mut self) -> Option<Result<(usize, Piece<'a>), ReadFault>> {
        let place = self.at;
        if place == self.text.len() {
            return None;
        }
        let Some(piece) = piece_of(&self.text[place..]) else {
            self.at = self.text.len();
            return Some(Err(ReadFault::Stray { place }));
        };
        self.at = place + piece.length;
        Some(Ok((place, piece)))
    }
}
