//! Counting: how many things have a property, said by lists without repeats.
#![tactic(auto)]

ghost use Rattle.finite.specs.Counts.{SetFlags};
ghost use Rattle.finite.specs.Laws.{OneCount, Fewer, Same, Carried, Nothing, NoMore, Something, Computed, Placed, Held};

/// A count is unique, and a one-to-one map carries it over.
pub fn laws_of_counting<T, U>()
    ensures unique { OneCount T }
    ensures fewer { Fewer T }
    ensures same { Same T }
    ensures carried { Carried T U }
{}

/// The count is 0 just where there is nothing to count.
pub fn laws_of_nothing<T>()
    ensures nothing { Nothing T }
    ensures none { NoMore T }
    ensures something { Something T }
{}

/// What is in a list has a place in it, and what has a place in it is in it.
pub fn laws_of_places<T>()
    ensures placed { Placed T }
    ensures held { Held T }
{}

/// The numbers below a bound that pass a test can be counted one by one.
pub fn law_of_numbers()
    ensures { Computed }
{}

/// How many of the flags are set.
pub fn count(flags: &[bool]) -> usize
    ensures { SetFlags flags.now result }
{
    // A sum and no filter: that tests each flag anew, which took twenty times as long on flags of no order.
    flags.iter().map(|flag| usize::from(*flag)).sum()
}

#[cfg(test)]
mod tests {
    use super::count;

    #[test]
    fn counts_the_set_flags(rt: HostRuntime) {
        assert_eq!(rt; count(&[true, false, true, true]), 3);
    }

    #[test]
    fn finds_none_where_none_is_set(rt: HostRuntime) {
        assert_eq!(rt; count(&[]), 0);
        assert_eq!(rt; count(&[false, false]), 0);
    }
}
