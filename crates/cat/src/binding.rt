//! Bindings whose names are resolved.
ghost use Rattle.std.specs.Prelude.{◌≡◌, ◌+◌, ◌^◌, ◌<◌, ◌∷◌, ◌++◌, length, IfOk, OnOk};
ghost use Rattle.sentence.specs.Exprs.{tree_of};
ghost use Rattle.sentence.specs.Statements.{trees_of};
ghost use Rattle.sentence.specs.Trees.{spell_binding, spell_more};
ghost use Rattle.cat.specs.Placing.{tokens_of, bound_of, BindingPlaced, GroupPlaced};
ghost use Rattle.cat.specs.Resolving.{group_tokens};

use super::expression::size;
use super::scope::{Scope, is_given};
use sentence::statement::Binding as SaidBinding;
use sentence::{Expr, Placed};
use std::alloc::AllocError;
use term::statement::Binding;

/// Adds the tokens of a group's names to those that are bound.
pub(crate) fn bind_group(
    bound: &mut Vec<usize>,
    at: usize,
    first: &Expr,
    more: &[SaidBinding],
) -> Result<(), AllocError>
    requires { at + length (spell_binding (tree_of first.now)) + length (spell_more (trees_of more.now)) < 2 ^ 64 }
    ensures { OnOk result (bound.new.items ≡ bound.old.items ++ group_tokens at (tree_of first.now ∷ trees_of more.now)) }
{
    // A loop and no chain: where the next name stands comes from the size of the binding before it.
    bound.push(at)?;
    let mut next = at + 2 + size(first);
    for said in more {
        bound.push(next + 1)?;
        next = next + 3 + size(&said.tree);
    }
    Ok(())
}

impl<'a> Scope<'a> {
    /// The binding whose name stands at a token, with the names of its group before it.
    pub(crate) fn binding(
        &self,
        before: &[usize],
        at: usize,
        tree: &Expr,
    ) -> Result<Placed<Binding>, AllocError>
        requires { at + length (spell_binding (tree_of tree.now)) < 2 ^ 64 }
        ensures { IfOk result (λ p. BindingPlaced (tokens_of self.now) (bound_of self.now) before.now at (tree_of tree.now) p) }
    {
        let placed = self.resolve(at + 2, tree)?;
        let name = self.name_at(at);
        let taken = is_given(name) || self.is_among(before, name);
        Ok(placed.map(|term| Binding {
            token: at,
            taken,
            term,
        }))
    }

    /// The bindings of a group, the first name at a token; all its names are bound.
    pub(crate) fn group(
        &self,
        at: usize,
        first: &Expr,
        more: &[SaidBinding],
    ) -> Result<Placed<Vec<Binding>>, AllocError>
        requires { at + length (spell_binding (tree_of first.now)) + length (spell_more (trees_of more.now)) < 2 ^ 64 }
        ensures { IfOk result (λ p. GroupPlaced (tokens_of self.now) (bound_of self.now) at (tree_of first.now) (trees_of more.now) p) }
    {
        // A loop and no chain: where the next name stands, and the names before it, come from the binding before it.
        let mut before: Vec<usize> = Vec::new(self.heap);
        let mut found: Vec<Binding> = Vec::new(self.heap);
        let head = self.binding(before.as_slice(), at, first)?;
        before.push(at)?;
        found.push(head.item)?;
        let mut next = head.next;
        for said in more {
            let one = self.binding(before.as_slice(), next + 1, &said.tree)?;
            before.push(next + 1)?;
            found.push(one.item)?;
            next = one.next;
        }
        Ok(Placed { item: found, next })
    }
}
