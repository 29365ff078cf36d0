//! Expressions, grouped.
ghost use Rattle.std.specs.Prelude.{◌++◌};
ghost use Rattle.sentence.specs.Trees.{inside, tilde, ended, joined};
ghost use Rattle.sentence.specs.Exprs.{tree_of, Made};
ghost use Rattle.sentence.specs.Seats.{seats_of, KeepsSeats};

use super::fault::SentenceFault;
use super::sign::*;
use std::alloc::Global;

/// An expression; a leaf has the place of its token.
#[derive(Drop)]
pub enum Expr {
    Atom(Leaf, usize),
    Inside(Bracket, Box<Expr>),
    Tilde(Box<Expr>),
    Ended(Box<Expr>, Post),
    Joined(Infix, Box<Expr>, Box<Expr>),
}

// `bracketed`, `complement`, `ended` and `joined` differ in their case of `Expr`; a function over the case would need its clause
// for each, and the bodies are as short as its calls: `Ok(Expr::Tilde(Box::new(heap, e)?))`.
/// An expression in brackets.
pub(crate) fn bracketed(heap: Global, bracket: Bracket, e: Expr) -> Result<Expr, SentenceFault>
    ensures made { Made result (inside bracket (tree_of e)) }
    ensures seats { KeepsSeats result (seats_of e) }
{
    Ok(Expr::Inside(bracket, Box::new(heap, e)?))
}

/// An expression behind the prefix.
pub(crate) fn complement(heap: Global, e: Expr) -> Result<Expr, SentenceFault>
    ensures made { Made result (tilde (tree_of e)) }
    ensures seats { KeepsSeats result (seats_of e) }
{
    Ok(Expr::Tilde(Box::new(heap, e)?))
}

/// An expression and a sign behind it.
pub(crate) fn ended(heap: Global, e: Expr, sign: Post) -> Result<Expr, SentenceFault>
    ensures made { Made result (ended (tree_of e) sign) }
    ensures seats { KeepsSeats result (seats_of e) }
{
    Ok(Expr::Ended(Box::new(heap, e)?, sign))
}

/// Two expressions and the sign between them.
pub(crate) fn joined(
    heap: Global,
    sign: Infix,
    left: Expr,
    right: Expr,
) -> Result<Expr, SentenceFault>
    ensures made { Made result (joined sign (tree_of left) (tree_of right)) }
    ensures seats { KeepsSeats result (seats_of left ++ seats_of right) }
{
    let left = Box::new(heap, left)?;
    let right = Box::new(heap, right)?;
    Ok(Expr::Joined(sign, left, right))
}
