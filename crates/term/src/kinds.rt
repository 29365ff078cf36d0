//! Kinds of terms, and the first sign, name or word that has an operand of the wrong kind.
ghost use Rattle.std.specs.Prelude.{◌≡◌, not, [], ◌++◌, map, IfOk, if◌then◌else◌, None, OnOk, slice_index_or};
ghost use Rattle.term.specs.Least.{least, lower, fault_if, Lowest};
ghost use Rattle.term.specs.Terms.{term_of};
ghost use Rattle.term.specs.Statements.{binding_of, claim_of, statement_of, statements_of};
ghost use Rattle.term.specs.Kinds.{relation, torn, as_set, as_relation, fits, made as made_by, behind, kind, kind_faults, binding_kinds, group_kinds, claim_kinds, known_after, statement_kinds, all_kinds};

use super::kind::Kind;
use super::least::lower;
use super::rules::{as_relation, as_set, behind, fits, given_kind, made, takes};
use super::statement::{Binding, Check, Statement};
use super::term::Term;
use sentence::sign::Infix;
use std::alloc::{AllocError, Global};

/// The kind of a term, and its first sign whose operands have wrong kinds.
#[derive(Clone, Copy)]
struct Kinded {
    kind: Kind,
    fault: Option<usize>,
}

impl Kinded {
    /// What has no sign.
    fn plain(found: Kind) -> Kinded
        ensures kind { result.kind ≡ found }
        ensures fault { result.fault ≡ None }
    {
        Kinded {
            kind: found,
            fault: None,
        }
    }

    /// A kind if the test holds; if not, the place is at fault.
    fn ruled(test: bool, place: usize, found: Kind, inside: Option<usize>) -> Kinded
        ensures kind { result.kind ≡ (if test then found else torn) }
        ensures fault { result.fault ≡ lower (least (fault_if (not test) place)) inside }
    {
        Kinded {
            kind: if test { found } else { Kind::Torn },
            fault: unless(test, place, inside),
        }
    }

    /// `[` and a set.
    fn tested(self, place: usize) -> Kinded
        ensures kind { result.kind ≡ (if as_set self.kind then behind self.kind relation else torn) }
        ensures fault { result.fault ≡ lower (least (fault_if (not (as_set self.kind)) place)) self.fault }
    {
        let found = behind(self.kind, Kind::Relation);
        Kinded::ruled(as_set(self.kind), place, found, self.fault)
    }

    /// A relation and a sign behind it.
    fn ended(self, place: usize) -> Kinded
        ensures kind { result.kind ≡ (if as_relation self.kind then self.kind else torn) }
        ensures fault { result.fault ≡ lower (least (fault_if (not (as_relation self.kind)) place)) self.fault }
    {
        Kinded::ruled(as_relation(self.kind), place, self.kind, self.fault)
    }

    /// Two operands and the sign between them.
    fn joined(self, place: usize, sign: Infix, right: Kinded) -> Kinded
        ensures kind { result.kind ≡ (if fits sign self.kind right.kind then behind self.kind (behind right.kind (made_by sign self.kind)) else torn) }
        ensures fault { result.fault ≡ lower (least (fault_if (not (fits sign self.kind right.kind)) place)) (lower self.fault right.fault) }
    {
        let found = behind(self.kind, behind(right.kind, made(sign, self.kind)));
        let inside = lower(self.fault, right.fault);
        Kinded::ruled(fits(sign, self.kind, right.kind), place, found, inside)
    }
}

/// The kind of the binding with this number.
fn kind_at(known: &[Kind], number: usize) -> Kind
    ensures { result ≡ slice_index_or known.now number torn }
{
    known.get(number).copied().unwrap_or(Kind::Torn)
}

/// The place if the test fails, or a lower one.
fn unless(test: bool, place: usize, inside: Option<usize>) -> Option<usize>
    ensures { result ≡ lower (least (fault_if (not test) place)) inside }
{
    lower((!test).then_some(place), inside)
}

/// The kind of a term, and its first sign at fault, in one walk. The kinds of the bindings before it are known.
fn examine(known: &[Kind], term: &Term) -> Kinded
    ensures kind { result.kind ≡ kind known.now (term_of term.now) }
    ensures fault { result.fault ≡ least (kind_faults known.now (term_of term.now)) }
{
    match term {
        Term::Given(given) => Kinded::plain(given_kind(*given)),
        Term::Bound(_, number) => Kinded::plain(kind_at(known, *number)),
        Term::Unbound(_) => Kinded::plain(Kind::Torn),
        Term::Test(place, inside) => examine(known, inside).tested(*place),
        Term::Complement(inside) => examine(known, inside),
        Term::Ended(place, _, inside) => examine(known, inside).ended(*place),
        Term::Joined(place, sign, left, right) => {
            let first = examine(known, left);
            let second = examine(known, right);
            first.joined(*place, *sign, second)
        }
    }
}

/// The first fault of a binding of a group: its name if its term is a set, or a sign of its term.
fn binding_kind(known: &[Kind], binding: &Binding) -> Option<usize>
    ensures { result ≡ least (binding_kinds known.now (binding_of binding.now)) }
{
    let found = examine(known, &binding.term);
    unless(as_relation(found.kind), binding.token, found.fault)
}

/// The first fault of a group.
fn group_kind(known: &[Kind], bindings: &[Binding]) -> Option<usize>
    ensures { result ≡ least (group_kinds known.now (map binding_of bindings.now)) }
{
    bindings
        .iter()
        .filter_map(|binding| binding_kind(known, binding))
        .min()
}

/// The first fault of a check: its word if that does not take the kind of its term, or a sign of its term.
fn check_kind(known: &[Kind], check: &Check) -> Option<usize>
    ensures { result ≡ least (claim_kinds known.now (claim_of check.now)) }
{
    let found = examine(known, &check.term);
    unless(takes(check.word, found.kind), check.token, found.fault)
}

/// The names of a group are relations.
fn add_relations(known: &mut Vec<Kind>, bindings: &[Binding]) -> Result<(), AllocError>
    ensures { OnOk result (known.new.items ≡ known.old.items ++ map (λ _. relation) bindings.now) }
{
    known.extend(bindings.iter().map(|_| Kind::Relation))
}

/// The first fault of a statement; what it binds is known behind it.
fn statement_kind(known: &mut Vec<Kind>, statement: &Statement) -> Result<Option<usize>, AllocError>
    ensures fault { IfOk result (λ f. f ≡ least (statement_kinds known.old.items (statement_of statement.now))) }
    ensures known { OnOk result (known.new.items ≡ known_after known.old.items (statement_of statement.now)) }
{
    match statement {
        Statement::Let(binding) => {
            let found = examine(known.as_slice(), &binding.term);
            known.push(found.kind)?;
            Ok(found.fault)
        }
        Statement::Group(bindings) => {
            add_relations(known, bindings.as_slice())?;
            Ok(group_kind(known.as_slice(), bindings.as_slice()))
        }
        Statement::Check(check) => Ok(check_kind(known.as_slice(), check)),
    }
}

/// The first fault of kinds: a sign whose operands do not fit it, a name of a group that is no relation, or the word of
/// a check that does not take its term. Fails for want of memory alone.
pub fn kind_fault(heap: Global, statements: &[Statement]) -> Result<Option<usize>, AllocError>
    ensures lowest { IfOk result (λ f. Lowest (all_kinds [] (statements_of statements.now)) f) }
    ensures least { IfOk result (λ f. f ≡ least (all_kinds [] (statements_of statements.now))) }
{
    let mut known = Vec::new(heap);
    let mut fault = None;
    // A loop and no chain: the known kinds go from statement to statement, and want of memory ends it.
    for statement in statements {
        let here = statement_kind(&mut known, statement)?;
        fault = lower(fault, here);
    }
    Ok(fault)
}
