//! The faults of a record.
ghost use Rattle.std.specs.Prelude.{◌≡◌};
ghost use Rattle.record.specs.Reading.{record_refusal, writer_refusal};

use bench::BenchFault;
use refusal::{Part, Refusal};

/// Why bytes are refused as a record. A place is that of a byte, counted from 0.
#[derive(Clone, Copy, PartialEq, Eq, Debug)]
pub enum RecordFault {
    /// The record has over 4,096 bytes.
    TooLong,
    /// The first field that is cut, wrong, missing or past the end.
    Shape { place: usize },
    /// The first field whose call the bench refuses, with its fault whole.
    Call { place: usize, fault: BenchFault },
}

impl RecordFault {
    /// The fault's number, part and place.
    pub fn refusal(self) -> Refusal
        ensures { result ≡ record_refusal self }
    {
        let (number, place) = match self {
            RecordFault::TooLong => (20, 0),
            RecordFault::Shape { place } => (21, place),
            RecordFault::Call { place, .. } => (22, place),
        };
        Refusal {
            number,
            part: Part::Record,
            place,
        }
    }
}

/// Why a bench was not written: its record does not fit the buffer.
#[derive(Clone, Copy, PartialEq, Eq, Debug)]
pub struct WriteFault {
    /// How many bytes the record has.
    pub needed: usize,
}

impl WriteFault {
    /// The fault's number, part and place.
    pub fn refusal(self) -> Refusal
        ensures { result ≡ writer_refusal }
    {
        Refusal {
            number: 24,
            part: Part::Writer,
            place: 0,
        }
    }
}
