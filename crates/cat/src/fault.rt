//! The faults of reading a model text.
ghost use Rattle.std.specs.Prelude.{◌≡◌};
ghost use Rattle.cat.specs.declared.fault.ModelFault.TheVariants.{Memory};
ghost use Rattle.cat.specs.Faults.{of_lexing, model_refusal};

use refusal::{Part, Refusal};
use std::alloc::AllocError;
use token::ReadFault;

/// Why a text is refused as a model. A place is that of a byte, counted from 0; at the text's end, its length.
#[derive(Clone, Copy, PartialEq, Eq, Debug)]
pub enum ModelFault {
    /// The text has over 8,192 bytes.
    TooLong,
    /// The first byte that begins no token, or a comment or title that has no end.
    Stray { place: usize },
    /// The 1,025th token.
    TooManyTokens { place: usize },
    /// The first token that no text could have there, or the text's end.
    Sentence { place: usize },
    /// The 65th bound name, the 17th check word, or a bracket that opens while 16 are open.
    Limit { place: usize },
    /// A name that is not bound there, or that cannot be bound.
    Name { place: usize },
    /// A sign, check word or name of a let rec whose operands have wrong kinds.
    Kind { place: usize },
    /// A name of a let rec where it may not occur.
    Recursion { place: usize },
    /// There is no memory for the model.
    Memory,
}

impl ModelFault {
    /// The fault's number, part and place; want of memory has none.
    pub fn refusal(self) -> Option<Refusal>
        ensures { result ≡ model_refusal self }
    {
        let (number, place) = match self {
            ModelFault::TooLong => (1, 0),
            ModelFault::Stray { place } => (2, place),
            ModelFault::TooManyTokens { place } => (3, place),
            ModelFault::Sentence { place } => (4, place),
            ModelFault::Limit { place } => (5, place),
            ModelFault::Name { place } => (6, place),
            ModelFault::Kind { place } => (7, place),
            ModelFault::Recursion { place } => (8, place),
            ModelFault::Memory => return None,
        };
        Some(Refusal {
            number,
            part: Part::Read,
            place,
        })
    }
}

impl From<AllocError> for ModelFault {
    ghost from_gives = { λ _ r. r ≡ Memory };

    fn from(_fault: AllocError) -> ModelFault {
        ModelFault::Memory
    }
}

// The lexer's faults are cases of their own and do not stand in one: want of memory would stand twice.
impl From<ReadFault> for ModelFault {
    ghost from_gives = { λ f r. r ≡ of_lexing f };

    fn from(fault: ReadFault) -> ModelFault {
        match fault {
            ReadFault::TooLong => ModelFault::TooLong,
            ReadFault::Stray { place } => ModelFault::Stray { place },
            ReadFault::TooManyTokens { place } => ModelFault::TooManyTokens { place },
            ReadFault::Memory => ModelFault::Memory,
        }
    }
}
