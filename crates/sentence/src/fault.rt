//! Why sorts are not read as a sentence.
ghost use Rattle.std.specs.Prelude.{◌≡◌};
ghost use Rattle.sentence.specs.declared.fault.SentenceFault.TheVariants.{Memory};

use std::alloc::{AllocError, AllocFailed};

/// Want of memory, or the place of the first sort that cannot stand there.
#[derive(Clone, Copy, PartialEq, Eq, Debug)]
pub enum SentenceFault {
    Memory,
    Place(usize),
}

impl From<AllocError> for SentenceFault {
    ghost from_gives = { λ _ f. f ≡ Memory };

    fn from(_fault: AllocError) -> SentenceFault {
        SentenceFault::Memory
    }
}

impl<T: Drop> From<AllocFailed<T>> for SentenceFault {
    ghost from_gives = { λ _ f. f ≡ Memory };

    fn from(_fault: AllocFailed<T>) -> SentenceFault {
        SentenceFault::Memory
    }
}
