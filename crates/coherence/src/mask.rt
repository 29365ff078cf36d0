//! Masks: sets of event numbers as 32 bits.
ghost use Rattle.std.specs.Prelude.{◌≡◌, ◌<◌, slice_index};
ghost use Rattle.coherence.specs.Masks.{has, less};
ghost use Rattle.coherence.specs.Lines.{those};

/// Whether a number is in the set.
pub(crate) fn contains(mask: u32, number: u8) -> bool
    requires { number < 32 }
    ensures { result ≡ has mask number }
{
    (mask >> number) % 2 == 1
}

/// The set without a number that is in it.
pub(crate) fn without(mask: u32, number: u8) -> u32
    requires { number < 32 }
    ensures { result ≡ less mask number }
{
    mask ^ (1 << number)
}

/// The number at a place among those in the set, from the lowest up; 0 past the last.
pub(crate) fn select(mask: u32, place: u32) -> u8
    ensures found { result ≡ slice_index (those (has mask) 32) place }
    ensures within { result < 32 }
{
    (0..32u8)
        .filter(|number| contains(mask, *number))
        .nth(place as usize)
        .unwrap_or(0)
}
