//! Coherence orders: the orders in which the writes of a run took effect, by number.
#![tactic(auto)]

mod factorials;
mod line;
mod mask;
pub mod numbers;
mod role;

ghost use Rattle.coherence.specs.Laws.{OneProduct, Pairing, Counted, OnlyBelow32};
ghost use Rattle.coherence.specs.Renumbered.{Carrying};

pub use numbers::{count_orders, nth_order};

/// The numbers below the product of the factorials and the coherence orders of a sound run pair off one to one.
pub fn laws_of_orders()
    ensures product { OneProduct }
    ensures pairing { Pairing }
    ensures counted { Counted }
    ensures alike { OnlyBelow32 }
{}

/// Along a renumbering of the events, coherence orders go over to coherence orders one to one.
pub fn law_of_renumbering()
    ensures { Carrying }
{}
