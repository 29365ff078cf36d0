//! The calls of a record: what stands at a place, and the calls one behind another.
ghost use Rattle.std.specs.Prelude.{◌≡◌, ◌≤◌, length};
ghost use Rattle.std.specs.Iterator.{YieldsFirst, item_count};
ghost use Rattle.record.specs.Format.{spell};
ghost use Rattle.record.specs.Reading.{call_at};

use super::format::{
    EVENT_LENGTH, EVENT_TAG, HEAD, SETTLING_LENGTH, SETTLING_TAG, TIE_LENGTH, TIE_TAG,
};
use bench::{Action, Entry};

/// The call whose whole field begins the bytes, if one does.
#[tactic(auto, unfolding(crate::specs::Reading::call_at))]
fn call_at(bytes: &[u8]) -> Option<Action>
    ensures { result ≡ call_at bytes.now }
{
    match *bytes {
        [
            EVENT_TAG,
            0,
            EVENT_LENGTH,
            number,
            kind,
            thread,
            step,
            location,
            a,
            b,
            c,
            d,
            ..
        ] => {
            Some(Action::Enter(Entry {
                number,
                kind,
                thread,
                step,
                location,
                value: u32::from_be_bytes([a, b, c, d]),
            }))
        }
        [TIE_TAG, 0, TIE_LENGTH, read, write, ..] => Some(Action::Tie { read, write }),
        [SETTLING_TAG, 0, SETTLING_LENGTH, number, ..] => Some(Action::Settle { number }),
        _ => None,
    }
}

/// How many bytes the field of a call has.
pub(crate) fn size(call: Action) -> usize
    ensures size { result ≡ length (spell call) }
    ensures short { result ≤ 12 }
{
    HEAD + match call {
        Action::Enter(_) => EVENT_LENGTH as usize,
        Action::Tie { .. } => TIE_LENGTH as usize,
        Action::Settle { .. } => SETTLING_LENGTH as usize,
    }
}

/// The calls whose fields stand one behind another from a place of a record on, each with its place.
#[derive(Clone, Copy)]
pub(crate) struct Calls<'a> {
    bytes: &'a [u8],
    at: usize,
    ghost within: { at ≤ length bytes.now },
}

impl<'a> Calls<'a> {
    ghost use Rattle.record.specs.Left.{left};
    ghost use Rattle.record.specs.Reading.{calls_of};

    /// The calls of a record.
    pub(crate) fn of(bytes: &'a [u8]) -> Calls<'a>
        ensures { left result ≡ calls_of bytes.now }
    {
        Calls { bytes, at: 0 }
    }
}

impl<'a> Iterator for Calls<'a> {
    type Item = (usize, Action);

    ghost use Rattle.record.specs.Left.{left};

    ghost next_gives = { YieldsFirst left };

    ghost remaining = { item_count left };

    // Inlined, for each ask of a record goes through its calls anew.
    #[inline(always)]
    fn next(&mut self) -> Option<(usize, Action)> {
        let place = self.at;
        let call = call_at(&self.bytes[place..])?;
        self.at = place + size(call);
        Some((place, call))
    }
}
