//! What events lead to in one or more steps.
ghost use Rattle.relation.specs.Relations.{Image, Path};
ghost use Rattle.relation.specs.Masks.{Member, Marks, Related};
ghost use Rattle.relation.specs.Problems.{ReachBegins, ReachSteps, ReachBelow, ReachSolves, ReachAlong, ReachAlike, reach_height};
ghost use Rattle.relation.specs.Reaching.{reach_onward, reach_matched, reach_falls, reach_within};
ghost use Rattle.std.proofs.Common.{rules};

use super::climb::{Ascent, climb};
use super::mask;
use super::relation::Relation;

/// A relation, the events to start from, and the events reached so far.
#[derive(Clone, Copy)]
pub struct Reach {
    pub relation: Relation,
    pub from: u32,
    pub reached: u32,
}

/// The climb to what the events lead to.
impl Ascent for Reach {
    ghost begins = { ReachBegins };

    ghost steps = { ReachSteps };

    ghost below = { ReachBelow };

    ghost solves = { ReachSolves };

    ghost along = { ReachAlong };

    ghost alike = { ReachAlike };

    ghost height = { reach_height };

    ghost start = { Prim.search rules };

    ghost onward = { reach_onward };

    ghost matched = { reach_matched };

    ghost falls = { reach_falls };

    ghost least = { Prim.search rules };

    ghost within = { reach_within };

    ghost solved = { Prim.search rules };

    fn bottom(&self) -> Reach {
        Reach {
            reached: 0,
            ..*self
        }
    }

    fn step(&self) -> Reach {
        let found = self.relation.image(mask::union(self.from, self.reached));
        Reach {
            reached: mask::union(self.reached, found),
            ..*self
        }
    }

    fn is(&self, other: &Reach) -> bool {
        mask::is(self.reached, other.reached)
    }
}

impl Relation {
    /// What the events of a set lead to in one or more steps.
    pub fn reach(self, events: u32) -> u32
        ensures { Marks result (Image (Member events) (Path (Related self.rows))) }
    {
        let problem = Reach {
            relation: self,
            from: events,
            reached: 0,
        };
        climb(&problem).reached
    }

    /// What an event leads to in one or more steps.
    pub fn leads(self, event: u8) -> u32
        ensures { Marks result (Path (Related self.rows) event) }
    {
        if event < 32 {
            self.reach(mask::single(usize::from(event)))
        } else {
            0
        }
    }
}
