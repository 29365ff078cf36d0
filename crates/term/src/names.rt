//! Names at fault: those that mean nothing where they stand, and those that cannot be bound.
ghost use Rattle.std.specs.Prelude.{◌≡◌, map};
ghost use Rattle.term.specs.Least.{least, Lowest};
ghost use Rattle.term.specs.Terms.{term_of};
ghost use Rattle.term.specs.Statements.{binding_of, statement_of, statements_of};
ghost use Rattle.term.specs.Names.{unbound_names, binding_names, group_names, statement_names, name_faults};

use super::least::lower;
use super::statement::{Binding, Statement};
use super::term::Term;

/// The first name of a term that is neither given nor bound.
fn unbound(term: &Term) -> Option<usize>
    ensures { result ≡ least (unbound_names (term_of term.now)) }
{
    match term {
        Term::Given(_) | Term::Bound(_, _) => None,
        Term::Unbound(place) => Some(*place),
        Term::Test(_, inside) | Term::Complement(inside) | Term::Ended(_, _, inside) => {
            unbound(inside)
        }
        Term::Joined(_, _, left, right) => lower(unbound(left), unbound(right)),
    }
}

/// The first name at fault in a binding: its own if it cannot be bound, or one of its term.
fn binding_name(binding: &Binding) -> Option<usize>
    ensures { result ≡ least (binding_names (binding_of binding.now)) }
{
    lower(
        binding.taken.then_some(binding.token),
        unbound(&binding.term),
    )
}

/// The first name at fault in a group.
fn group_name(bindings: &[Binding]) -> Option<usize>
    ensures { result ≡ least (group_names (map binding_of bindings.now)) }
{
    bindings.iter().filter_map(binding_name).min()
}

/// The first name at fault in a statement.
fn statement_name(statement: &Statement) -> Option<usize>
    ensures { result ≡ least (statement_names (statement_of statement.now)) }
{
    match statement {
        Statement::Let(binding) => binding_name(binding),
        Statement::Group(bindings) => group_name(bindings),
        Statement::Check(check) => unbound(&check.term),
    }
}

/// The first name at fault: one that is neither given nor bound where it stands, or one that is bound and cannot be.
pub fn name_fault(statements: &[Statement]) -> Option<usize>
    ensures lowest { Lowest (name_faults (statements_of statements.now)) result }
    ensures least { result ≡ least (name_faults (statements_of statements.now)) }
{
    statements.iter().filter_map(statement_name).min()
}
