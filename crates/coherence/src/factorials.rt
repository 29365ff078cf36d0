//! Factorials, as far as the numbers of 16 bits reach.
ghost use Rattle.std.specs.Prelude.{◌≡◌, ◌<◌};
ghost use Rattle.coherence.specs.Perms.{factorial};
ghost use Rattle.coherence.specs.Laying.{capped};

/// The factorials of 0 to 9.
const FACTORIALS: [u32; 10] = [1, 1, 2, 6, 24, 120, 720, 5040, 40320, 362880];

/// The factorial of a number; from 9 on that of 9.
pub(crate) fn factorial(number: u32) -> u32
    ensures value { result ≡ capped (factorial number) }
    ensures positive { 0 < result }
{
    FACTORIALS[number.min(9) as usize]
}
