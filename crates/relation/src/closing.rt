//! Closures of relations.
ghost use Rattle.std.specs.Prelude.{Decides};
ghost use Rattle.relation.specs.Relations.{Path, Star, Acyclic};
ghost use Rattle.relation.specs.Masks.{Member, Related, Shows};
ghost use Rattle.relation.specs.Problems.{ClosingBegins, ClosingSteps, ClosingBelow, ClosingSolves, ClosingAlong, ClosingAlike, closing_height};
ghost use Rattle.relation.specs.Closings.{closing_onward, closing_matched, closing_falls, closing_within};
ghost use Rattle.std.proofs.Common.{rules};

use super::climb::{Ascent, climb};
use super::relation::Relation;

/// A relation, and the paths of it reached so far.
#[derive(Clone, Copy)]
pub struct Closing {
    pub base: Relation,
    pub reached: Relation,
}

/// The climb to the closure.
impl Ascent for Closing {
    ghost begins = { ClosingBegins };

    ghost steps = { ClosingSteps };

    ghost below = { ClosingBelow };

    ghost solves = { ClosingSolves };

    ghost along = { ClosingAlong };

    ghost alike = { ClosingAlike };

    ghost height = { closing_height };

    ghost start = { Prim.search rules };

    ghost onward = { closing_onward };

    ghost matched = { closing_matched };

    ghost falls = { closing_falls };

    ghost least = { Prim.search rules };

    ghost within = { closing_within };

    ghost solved = { Prim.search rules };

    fn bottom(&self) -> Closing {
        Closing {
            base: self.base,
            reached: Relation::none(),
        }
    }

    fn step(&self) -> Closing {
        Closing {
            base: self.base,
            reached: self.base.union(self.reached).joined(),
        }
    }

    fn is(&self, other: &Closing) -> bool {
        self.reached.is(other.reached)
    }
}

impl Relation {
    /// One or more steps.
    pub fn closure(self) -> Relation
        ensures { Shows result.rows (Path (Related self.rows)) }
    {
        let problem = Closing {
            base: self,
            reached: self,
        };
        climb(&problem).reached
    }

    /// Any number of steps.
    pub fn star(self, universe: u32) -> Relation
        ensures { Shows result.rows (Star (Member universe) (Related self.rows)) }
    {
        Relation::identity(universe).union(self.closure())
    }

    /// Whether no event leads to itself in one or more steps.
    pub fn is_acyclic(self) -> bool
        ensures { Decides result (Acyclic (Related self.rows)) }
    {
        self.closure().is_irreflexive()
    }
}
