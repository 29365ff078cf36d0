//! The format of a record: fields of a tag, the length of the content in two bytes, and the content.

/// The longest record.
pub(crate) const LONGEST: usize = 4096;

/// The bytes of a field before its content.
pub(crate) const HEAD: usize = 3;

/// The tag of an event's field.
pub(crate) const EVENT_TAG: u8 = 1;
/// The tag of a tie's field.
pub(crate) const TIE_TAG: u8 = 2;
/// The tag of a settling's field.
pub(crate) const SETTLING_TAG: u8 = 3;
/// The tag of the end.
pub(crate) const END_TAG: u8 = 0;

/// How long an event's content is.
pub(crate) const EVENT_LENGTH: u8 = 9;
/// How long a tie's content is.
pub(crate) const TIE_LENGTH: u8 = 2;
/// How long a settling's content is.
pub(crate) const SETTLING_LENGTH: u8 = 1;
