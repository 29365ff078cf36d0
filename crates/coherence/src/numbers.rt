//! The number of coherence orders, and the order of a number.
ghost use Rattle.std.specs.Prelude.{◌≡◌, ◌<◌};
ghost use Rattle.run.specs.Tests.{table_run};
ghost use Rattle.coherence.specs.Digits.{ways, digits_of, excess};
ghost use Rattle.coherence.specs.Laying.{capped};
ghost use Rattle.coherence.specs.Answers.{Told, Gives};

use super::{factorials, line, role};
use relation::Relation;
use run::Snapshot;

/// The most orders that are counted.
const LIMIT: u32 = 5040;
/// What stands for any number above it.
const OVER: u32 = 5041;

/// How many ways there are to line up the free writes of a location.
fn ways(events: &Snapshot, location: u8) -> u32
    ensures value { result ≡ capped (ways (table_run events.now.events) location) }
    ensures positive { 0 < result }
{
    factorials::factorial(role::free(events, location).count_ones())
}

/// How many coherence orders a run has, or nothing if they are more than 5,040.
pub fn count_orders(events: &Snapshot) -> Option<u16>
    ensures { Told (table_run events.now.events) result }
{
    let total = (0..16u8).fold(1u32, |total, location| {
        total.saturating_mul(ways(events, location)).min(OVER)
    });
    (total <= LIMIT).then_some(total as u16)
}

/// Splits a number into the digits of the locations; gives what is left above them.
fn split(events: &Snapshot, number: u16, digits: &mut [u32; 16]) -> u32
    ensures digits { digits.new ≡ digits_of (ways (table_run events.now.events)) number 16 }
    ensures rest { result ≡ excess (ways (table_run events.now.events)) number 16 }
{
    let mut rest = u32::from(number);
    // By location: it names the radix as well as the place of its digit.
    for location in (0..16u8).rev() {
        let radix = ways(events, location);
        digits[location as usize] = rest % radix;
        rest /= radix;
    }
    rest
}

// The order lies in a place that the caller lends, so the answer is a flag and no array.
/// Writes the coherence order of a number into the place, from a write to every later one of its location, and says whether the run has one; if not, nothing is changed.
pub fn nth_order(events: &Snapshot, number: u16, place: &mut Relation) -> bool
    ensures { Gives (table_run events.now.events) number place.old.rows place.new.rows result }
{
    let mut digits = [0; 16];
    if split(events, number, &mut digits) > 0 {
        return false;
    }
    line::lay_lines(events, &digits, place);
    true
}
