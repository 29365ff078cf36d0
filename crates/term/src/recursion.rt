//! Recursion: where a name of a group may not occur in the terms of its own group.
ghost use Rattle.std.specs.Prelude.{◌≡◌, map, length};
ghost use Rattle.term.specs.Least.{least, Lowest};
ghost use Rattle.term.specs.Terms.{term_of};
ghost use Rattle.term.specs.Statements.{binding_of, statement_of, statements_of};
ghost use Rattle.term.specs.Recursion.{of_group, denies_right, denied, group_denied, binds, statement_denied, all_denied};

use super::least::lower;
use super::statement::{Binding, Statement};
use super::term::Term;
use sentence::sign::Infix;

// No `Range`: its end would be the sum of the two, of which nothing says here that it fits 128 bits.
/// The numbers of a group's bindings: so many from the first on.
#[derive(Clone, Copy)]
struct Span {
    first: u128,
    many: usize,
}

impl Span {
    /// Whether the number is that of a binding of the group.
    fn has(self, number: usize) -> bool
        ensures { result ≡ of_group self.first self.many number }
    {
        let number = number as u128;
        number >= self.first && number - self.first < self.many as u128
    }
}

/// Whether what stands right of this sign is denied.
fn denies_right(sign: Infix) -> bool
    ensures { result ≡ denies_right sign }
{
    sign == Infix::Backslash
}

/// The first of the group's names under `~` or right of `\`; the flag says whether the term itself stands so.
fn denied(group: Span, under: bool, term: &Term) -> Option<usize>
    ensures { result ≡ least (denied group.first group.many under (term_of term.now)) }
{
    match term {
        Term::Given(_) | Term::Unbound(_) => None,
        Term::Bound(place, number) => (under && group.has(*number)).then_some(*place),
        Term::Test(_, inside) | Term::Ended(_, _, inside) => denied(group, under, inside),
        Term::Complement(inside) => denied(group, true, inside),
        Term::Joined(_, sign, left, right) => lower(
            denied(group, under, left),
            denied(group, under || denies_right(*sign), right),
        ),
    }
}

/// The first of its own names that is denied in a group; `first` is the number of its first binding.
fn group_denied(first: u128, bindings: &[Binding]) -> Option<usize>
    ensures { result ≡ least (group_denied first (length bindings.now) (map binding_of bindings.now)) }
{
    let group = Span {
        first,
        many: bindings.len(),
    };
    bindings
        .iter()
        .filter_map(|binding| denied(group, false, &binding.term))
        .min()
}

/// How many bindings a statement has.
fn binds(statement: &Statement) -> usize
    ensures { result ≡ binds (statement_of statement.now) }
{
    match statement {
        Statement::Let(_) => 1,
        Statement::Group(bindings) => bindings.len(),
        Statement::Check(_) => 0,
    }
}

/// The first name that is denied in a statement, with so many bindings before it.
fn statement_denied(before: u128, statement: &Statement) -> Option<usize>
    ensures { result ≡ least (statement_denied before (statement_of statement.now)) }
{
    match statement {
        Statement::Group(bindings) => group_denied(before, bindings.as_slice()),
        _ => None,
    }
}

/// The first name that stands in its own group under `~` or right of `\`. The count of bindings fits 128 bits: below
/// 2^64 statements with below 2^64 bindings each.
pub fn recursion_fault(statements: &[Statement]) -> Option<usize>
    ensures lowest { Lowest (all_denied 0 (statements_of statements.now)) result }
    ensures least { result ≡ least (all_denied 0 (statements_of statements.now)) }
{
    let mut fault = None;
    let mut before: u128 = 0;
    // A loop and no `scan`: its closure would have the same two steps, and cannot know the bound of the number of bindings before,
    // which the loop's invariant says; `flatten` would have to follow, for the place is an Option.
    for statement in statements {
        fault = lower(fault, statement_denied(before, statement));
        before += binds(statement) as u128;
    }
    fault
}
