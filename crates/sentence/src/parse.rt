//! Reading expressions: the ladder of infix signs, prefix, postfix and atom call each other.
ghost use Rattle.sentence.specs.Seats.{SeatedAs};
ghost use Rattle.sentence.specs.Parsing.{Parsed, Halted, Unprefixed, Opened};

use super::fault::SentenceFault;
use super::parser::Parser;
use super::placed::Placed;
use super::role::*;
use super::sign::Bracket;
use super::tree::*;

impl<'a> Parser<'a> {
    /// An expression whose infix signs all bind at least as tightly as the rung.
    #[cycle(expression)]
    pub(crate) fn ladder(self, at: usize, rung: u8) -> Result<Placed<Expr>, SentenceFault>
        ensures led { Parsed self.entry.sorts.now at rung 0 result }
        ensures halts { Halted self.entry.sorts.now rung result }
        ensures seated { SeatedAs at result }
    {
        let first = self.prefixed(at)?;
        let mut tree = first.item;
        let mut next = first.next;
        // Each operand says where the next sign stands, and may refuse.
        while let Some(sign) = self.infix_from(next, rung) {
            let right = self.ladder(next + 1, sign.bound())?;
            tree = joined(self.heap, sign, tree, right.item)?;
            next = right.next;
        }
        Ok(Placed { item: tree, next })
    }

    /// An expression without infix signs.
    #[cycle(expression)]
    fn prefixed(self, at: usize) -> Result<Placed<Expr>, SentenceFault>
        ensures led { Parsed self.entry.sorts.now at 7 6 result }
        ensures halts { Halted self.entry.sorts.now 7 result }
        ensures seated { SeatedAs at result }
    {
        if self.stands(at, Role::Complements) {
            let piece = self.prefixed(at + 1)?;
            let tree = complement(self.heap, piece.item)?;
            Ok(Placed {
                item: tree,
                next: piece.next,
            })
        } else {
            self.postfixed(at)
        }
    }

    /// An atom and the signs behind it.
    #[cycle(expression)]
    fn postfixed(self, at: usize) -> Result<Placed<Expr>, SentenceFault>
        requires { Unprefixed self.sorts.now at }
        ensures led { Parsed self.entry.sorts.now at 7 7 result }
        ensures halts { Halted self.entry.sorts.now 7 result }
        ensures seated { SeatedAs at result }
    {
        let first = self.atom(at)?;
        let mut tree = first.item;
        let mut next = first.next;
        // A loop that counts, and no `try_fold`: nothing iterates over the signs, for each is found by what stands behind it.
        while let Some(sign) = self.post_at(next) {
            tree = ended(self.heap, tree, sign)?;
            next += 1;
        }
        Ok(Placed { item: tree, next })
    }

    /// A leaf, or an expression in brackets.
    #[cycle(expression)]
    fn atom(self, at: usize) -> Result<Placed<Expr>, SentenceFault>
        requires { Unprefixed self.sorts.now at }
        ensures led { Parsed self.entry.sorts.now at 7 7 result }
        ensures seated { SeatedAs at result }
    {
        match self.start_at(at) {
            Some(Start::Leaf(leaf)) => Ok(Placed {
                item: Expr::Atom(leaf, at),
                next: at + 1,
            }),
            Some(Start::Opens(bracket)) => self.between(at, bracket),
            None => Err(SentenceFault::Place(at)),
        }
    }

    /// An expression in brackets, the opening one at a place.
    #[cycle(expression)]
    fn between(self, at: usize, bracket: Bracket) -> Result<Placed<Expr>, SentenceFault>
        requires { Opened self.sorts.now at bracket }
        ensures led { Parsed self.entry.sorts.now at 7 7 result }
        ensures seated { SeatedAs at result }
    {
        let piece = self.ladder(at + 1, 1)?;
        if self.stands(piece.next, Role::Goes(Go::Closes(bracket))) {
            let tree = bracketed(self.heap, bracket, piece.item)?;
            Ok(Placed {
                item: tree,
                next: piece.next + 1,
            })
        } else {
            Err(SentenceFault::Place(piece.next))
        }
    }
}
