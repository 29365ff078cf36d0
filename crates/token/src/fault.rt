//! The faults of reading a model text.
ghost use Rattle.std.specs.Prelude.{◌≡◌};
ghost use Rattle.token.specs.declared.fault.ReadFault.TheVariants.{Memory};

use std::alloc::{AllocError, AllocFailed};

/// Why a text is refused as a model. A place is that of a byte, counted from 0.
#[derive(Clone, Copy, PartialEq, Eq, Debug)]
pub enum ReadFault {
    /// The text has over 8,192 bytes.
    TooLong,
    /// The first byte that begins no token, or a comment or title that has no end.
    Stray { place: usize },
    /// The 1,025th token.
    TooManyTokens { place: usize },
    /// There is no memory for the tokens.
    Memory,
}

impl From<AllocError> for ReadFault {
    ghost from_gives = { λ _ r. r ≡ Memory };

    fn from(_fault: AllocError) -> ReadFault {
        ReadFault::Memory
    }
}

impl<T: Drop> From<AllocFailed<T>> for ReadFault {
    ghost from_gives = { λ _ r. r ≡ Memory };

    fn from(_fault: AllocFailed<T>) -> ReadFault {
        ReadFault::Memory
    }
}
