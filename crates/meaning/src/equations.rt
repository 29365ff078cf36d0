//! The equations of a let rec group, whoever holds their terms.
ghost use Rattle.std.specs.Prelude.{◌≡◌, map};
ghost use Rattle.relation.specs.Relations.{SamePairs};
ghost use Rattle.relation.specs.Masks.{Related};
ghost use Rattle.term.specs.Statements.{binding_of};
ghost use Rattle.meaning.specs.Systems.{System, Table, Body, slots};

use super::operate::pairs_in;
use super::setting::Setting;
use super::values::ROOM;
use relation::Relation;
use term::statement::Binding;

/// Equations that can be evaluated: a term for each name of a group.
pub trait Equations {
    /// What is given, what is known before the group, and its bindings.
    ghost system: { Self → System };

    /// How many names are solved for: those of the group, at most 64.
    fn count(&self) -> usize
        ensures { result ≡ slots (system self.now) };

    /// What the equation of a name gives, where the table holds what is found.
    fn value(&self, found: &[Relation; ROOM], slot: usize) -> Relation
        ensures { SamePairs (Related result.rows) (Body (system self.now) (Table found.now) slot) };
}

/// A group whose bindings, and what it is evaluated by, are borrowed.
#[derive(Clone, Copy)]
pub struct Group<'a, 'b> {
    pub setting: Setting<'a>,
    pub bindings: &'b [Binding],
}

/// The equations of a borrowed group.
impl<'a, 'b> Equations for Group<'a, 'b> {
    ghost system = { λ g. record { base = g.setting.base.now; known = g.setting.known.now; bindings = map binding_of g.bindings.now } };

    fn count(&self) -> usize {
        self.bindings.len().min(ROOM)
    }

    fn value(&self, found: &[Relation; ROOM], slot: usize) -> Relation {
        // A match: with `map_or` the goal `returns` of `value` stayed open, since the check learnt nothing of its closure, which calls
        // `evaluate`; with a clause of its own, said of what it captures, the closure is longer than the two arms.
        match self.bindings.get(slot) {
            Some(binding) => {
                // A copy: where the group's own is lent, each round copies the table once more; 100,800 calls of `try_checks` with one
                // name in the group then took 0.56 s in place of 0.47.
                let setting = self.setting;
                let found = &found[..self.count()];
                pairs_in(setting.evaluate(found, &binding.term))
            }
            None => Relation::none(),
        }
    }
}
