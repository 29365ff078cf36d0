//! The climb to the least solution of a let rec group.
ghost use Rattle.std.specs.Prelude.{◌≡◌, ℕ, ◌<◌, map};
ghost use Rattle.relation.specs.Relations.{Never};
ghost use Rattle.relation.specs.Masks.{Shows};
ghost use Rattle.term.specs.Statements.{binding_of};
ghost use Rattle.meaning.specs.Systems.{Least, rows_at};
ghost use Rattle.meaning.specs.Solvings.{SolvingBegins, SolvingSteps, SolvingBelow, SolvingSolves, SolvingAlong, SolvingAlike, solving_height};
ghost use Rattle.meaning.specs.Solved.{solving_start, solving_onward, solving_matched, solving_falls, solving_least, solving_within, solving_solved};

use super::equations::{Equations, Group};
use super::setting::Setting;
use super::values::ROOM;
use relation::climb::climb;
use relation::{Ascent, Relation};
use term::statement::Binding;

/// Equations, and what is found of the relations that solve them, name by name.
#[derive(Clone, Copy)]
pub struct Solving<E> {
    pub equations: E,
    // An array: nothing here has heap memory.
    pub found: [Relation; ROOM],
}

impl<E> Solving<E> {
    /// No pair is found yet.
    fn none(equations: E) -> Solving<E>
        ensures equations { result.equations ≡ equations }
        ensures nothing { (slot : ℕ) → slot < 64 → Shows (rows_at result.found slot) Never }
    {
        let none = Relation::none();
        let found = [none; ROOM];
        Solving { equations, found }
    }
}

/// The climb to the least solution.
impl<E: Equations + Copy> Ascent for Solving<E> {
    ghost begins = { SolvingBegins };

    ghost steps = { SolvingSteps E.Equations.system };

    ghost below = { SolvingBelow E.Equations.system };

    ghost solves = { SolvingSolves E.Equations.system };

    ghost along = { SolvingAlong E.Equations.system };

    ghost alike = { SolvingAlike E.Equations.system };

    ghost height = { solving_height };

    ghost start = { solving_start E.Equations.system };

    ghost onward = { solving_onward E.Equations.system };

    ghost matched = { solving_matched E.Equations.system };

    ghost falls = { solving_falls E.Equations.system };

    ghost least = { solving_least E.Equations.system };

    ghost within = { solving_within E.Equations.system };

    ghost solved = { solving_solved E.Equations.system };

    fn bottom(&self) -> Solving<E> {
        Solving::none(self.equations)
    }

    fn step(&self) -> Solving<E> {
        let equations = self.equations;
        let mut found = self.found;
        // By number into a copy: a table made by `array::from_fn` over a method took 1.35 µs a round in place of 0.45 with one name, and
        // 1.85 in place of 0.9 with four (least of 12 runs of 200,000 rounds).
        // With `iter_mut` the goal `invariant-loop-slot` stayed open: while an iterator lends the table, an invariant cannot speak of it.
        for slot in 0..equations.count() {
            found[slot] = self.found[slot].union(equations.value(&self.found, slot));
        }
        Solving { equations, found }
    }

    fn is(&self, other: &Solving<E>) -> bool {
        let found = self.found.iter().zip(&other.found);
        found
            .take(self.equations.count())
            .all(|(mine, theirs)| mine.is(*theirs))
    }
}

/// The least solution of a let rec group: what each of its first 64 names is bound to.
pub fn solve(setting: &Setting<'_>, bindings: &[Binding]) -> [Relation; ROOM]
    ensures { Least (record { base = setting.now.base.now; known = setting.now.known.now; bindings = map binding_of bindings.now }) result }
{
    let group = Group {
        setting: *setting,
        bindings,
    };
    climb(&Solving::none(group)).found
}
