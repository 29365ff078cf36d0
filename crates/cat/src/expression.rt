//! Expressions whose names are resolved.
ghost use Rattle.std.specs.Prelude.{◌≡◌, ◌+◌, ◌^◌, ◌<◌, length, IfOk};
ghost use Rattle.sentence.specs.Exprs.{tree_of};
ghost use Rattle.sentence.specs.Trees.{atom, spell};
ghost use Rattle.term.specs.Terms.{term_of};
ghost use Rattle.cat.specs.Placing.{tokens_of, bound_of, TermPlaced};
ghost use Rattle.cat.specs.Resolving.{between, resolve};

use super::build::*;
use super::scope::Scope;
use sentence::sign::{Bracket, Leaf};
use sentence::{Expr, Placed};
use std::alloc::{AllocError, Global};
use term::{Given, Term};

/// How many tokens an expression has.
pub(crate) fn size(tree: &Expr) -> usize
    requires { length (spell (tree_of tree.now)) < 2 ^ 64 }
    ensures { result ≡ length (spell (tree_of tree.now)) }
{
    match tree {
        Expr::Atom(..) => 1,
        Expr::Inside(_, inner) => size(inner) + 2,
        Expr::Tilde(inner) | Expr::Ended(inner, _) => size(inner) + 1,
        Expr::Joined(_, left, right) => size(left) + 1 + size(right),
    }
}

/// A term in brackets, the opening one at a token: round ones change nothing, square ones give identity on a set.
fn bracketed(heap: Global, bracket: Bracket, token: usize, inside: Term) -> Result<Term, AllocError>
    ensures { IfOk result (λ t. term_of t ≡ between bracket token (term_of inside)) }
{
    match bracket {
        Bracket::Round => Ok(inside),
        Bracket::Square => test(heap, token, inside),
    }
}

impl<'a> Scope<'a> {
    /// A leaf at a token.
    #[tactic(auto, unfolding(crate::specs::Resolving::resolve))]
    fn leaf_term(&self, token: usize, leaf: Leaf) -> Term
        ensures { term_of result ≡ resolve (tokens_of self.now) (bound_of self.now) token (atom leaf) }
    {
        match leaf {
            Leaf::Name => self.name_term(token),
            Leaf::Universe => Term::Given(Given::Universe),
            Leaf::NoPairs => Term::Given(Given::NoPairs),
            Leaf::NoEvents => Term::Given(Given::NoEvents),
        }
    }

    /// The term of an expression that begins at a token.
    pub(crate) fn resolve(&self, at: usize, tree: &Expr) -> Result<Placed<Term>, AllocError>
        requires { at + length (spell (tree_of tree.now)) < 2 ^ 64 }
        ensures { IfOk result (λ p. TermPlaced (tokens_of self.now) (bound_of self.now) at (tree_of tree.now) p) }
    {
        match tree {
            Expr::Atom(leaf, _) => Ok(Placed {
                item: self.leaf_term(at, *leaf),
                next: at + 1,
            }),
            Expr::Inside(bracket, inner) => {
                let inside = self.resolve(at + 1, inner)?;
                let item = bracketed(self.heap, *bracket, at, inside.item)?;
                let next = inside.next + 1;
                Ok(Placed { item, next })
            }
            Expr::Tilde(inner) => {
                let inside = self.resolve(at + 1, inner)?;
                let item = complement(self.heap, inside.item)?;
                let next = inside.next;
                Ok(Placed { item, next })
            }
            Expr::Ended(inner, sign) => {
                let inside = self.resolve(at, inner)?;
                let item = ended(self.heap, inside.next, *sign, inside.item)?;
                let next = inside.next + 1;
                Ok(Placed { item, next })
            }
            Expr::Joined(sign, left, right) => {
                let first = self.resolve(at, left)?;
                let second = self.resolve(first.next + 1, right)?;
                let item = joined(self.heap, first.next, *sign, first.item, second.item)?;
                let next = second.next;
                Ok(Placed { item, next })
            }
        }
    }
}
