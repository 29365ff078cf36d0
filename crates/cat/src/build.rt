//! Terms put together.
ghost use Rattle.std.specs.Prelude.{◌≡◌, IfOk};
ghost use Rattle.term.specs.Terms.{term_of, test, complement, ended, joined};

use sentence::sign::{Infix, Post};
use std::alloc::{AllocError, Global};
use term::Term;

// `test`, `complement`, `ended` and `joined` differ in their case of `Term`; a function over the case would need its clause for
// each, and the bodies are as short as its calls.
/// Identity on a set, its `[` at a token.
pub(crate) fn test(heap: Global, token: usize, term: Term) -> Result<Term, AllocError>
    ensures { IfOk result (λ t. term_of t ≡ test token (term_of term)) }
{
    Ok(Term::Test(token, Box::new(heap, term)?))
}

/// A complement.
pub(crate) fn complement(heap: Global, term: Term) -> Result<Term, AllocError>
    ensures { IfOk result (λ t. term_of t ≡ complement (term_of term)) }
{
    Ok(Term::Complement(Box::new(heap, term)?))
}

/// An operand and the sign behind it, at a token.
pub(crate) fn ended(heap: Global, token: usize, sign: Post, term: Term) -> Result<Term, AllocError>
    ensures { IfOk result (λ t. term_of t ≡ ended token sign (term_of term)) }
{
    Ok(Term::Ended(token, sign, Box::new(heap, term)?))
}

/// Two operands and the sign between them, at a token.
pub(crate) fn joined(
    heap: Global,
    token: usize,
    sign: Infix,
    left: Term,
    right: Term,
) -> Result<Term, AllocError>
    ensures { IfOk result (λ t. term_of t ≡ joined token sign (term_of left) (term_of right)) }
{
    let left = Box::new(heap, left)?;
    let right = Box::new(heap, right)?;
    Ok(Term::Joined(token, sign, left, right))
}
