//! The faults of the bench's calls.
ghost use Rattle.std.specs.Prelude.{◌≡◌};
ghost use Rattle.bench.specs.Numbers.{bench_refusal};

use refusal::{Part, Refusal};

/// Why enter, tie or settle was refused.
#[derive(Clone, Copy, PartialEq, Eq, Debug)]
pub enum BenchFault {
    /// Enter: the number is above 31, or an event stands there.
    BadNumber,
    /// Enter: a field is out of its range.
    OutOfRange,
    /// Enter: the event would break the rule of steps or that of initial writes.
    Clash,
    /// Tie: no read stands at the one number, or no write at the other.
    NoPair,
    /// Tie: the locations or the values differ.
    Mismatch,
    /// Settle: no write stands at the number.
    NoWrite,
    /// Settle: another write of the location is settled.
    OtherSettled,
}

impl BenchFault {
    /// The fault's number, part and place.
    pub fn refusal(self) -> Refusal
        ensures { result ≡ bench_refusal self }
    {
        let (number, part) = match self {
            BenchFault::BadNumber => (9, Part::Enter),
            BenchFault::OutOfRange => (10, Part::Enter),
            BenchFault::Clash => (11, Part::Enter),
            BenchFault::NoPair => (12, Part::Tie),
            BenchFault::Mismatch => (13, Part::Tie),
            BenchFault::NoWrite => (14, Part::Settle),
            BenchFault::OtherSettled => (15, Part::Settle),
        };
        Refusal {
            number,
            part,
            place: 0,
        }
    }
}
