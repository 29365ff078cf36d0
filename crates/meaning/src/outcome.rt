//! What comes of trying checks.
ghost use Rattle.std.specs.Prelude.{◌≡◌, ◌<◌, not, ◌&&◌};
ghost use Rattle.meaning.specs.Outcomes.{first_of, RaisesBit};

use relation::mask;

/// The first check without flag that does not hold, and a bit for each flag that holds.
#[derive(Clone, Copy, Default)]
pub struct Outcome {
    pub failure: Option<u8>,
    pub flags: u32,
}

/// The bits, and that of the number if it is up.
fn raised(flags: u32, number: u8, up: bool) -> u32
    requires { number < 16 }
    ensures { RaisesBit flags number up result }
{
    if up {
        mask::union(flags, 1 << number)
    } else {
        flags
    }
}

impl Outcome {
    /// With one more check: its number, whether it is a flag, and whether it holds.
    pub(crate) fn with(self, number: u8, flag: bool, good: bool) -> Outcome
        requires { number < 16 }
        ensures failure { result.failure ≡ first_of self.failure number (not flag && not good) }
        ensures flags { RaisesBit self.flags number (flag && good) result.flags }
    {
        Outcome {
            failure: self.failure.or((!flag && !good).then_some(number)),
            flags: raised(self.flags, number, flag && good),
        }
    }
}
