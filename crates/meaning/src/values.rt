//! Values by their numbers, in a place that the caller lends.
ghost use Rattle.std.specs.Prelude.{◌≡◌, ◌<◌, ◌≤◌, [], ◌∷◌, ◌++◌, length};

use super::setting::Setting;
use given::Base;
use relation::Value;
use std::marker::Model;

/// How many values there is room for.
pub const ROOM: usize = 64;

// A table and how much of it is filled: nothing here has heap memory. `arrayvec::ArrayVec<Value, 64>` is no plainer: its `new` and
// `clear` want `Value: Default`, which crate relation does not give, and its `push` wants room or hands the value back in an error,
// where a 65th is left out here. It is no faster either: with four values put in 25 ns in place of 20.
// No `Copy`: that wants a model that gives the fields back, and this one leaves out what stands behind the values.
/// So many values, at most 64.
#[derive(Clone, Drop)]
pub struct Values {
    slots: [Value; ROOM],
    many: usize,
}

impl Model for Values {
    ghost use Rattle.std.specs.Prelude.{◌≤◌, List, take};
    ghost use Rattle.relation.specs.declared.value.Value.{Value as Item};

    ghost Value = { List Item };

    ghost view = { λ values. take values.many values.slots };

    ghost invariant = { λ values. values.many ≤ 64 };
}

impl Values {
    /// No value.
    pub fn none() -> Values
        ensures { result ≡ [] }
    {
        let blank = Value::events(0);
        Values {
            slots: [blank; ROOM],
            many: 0,
        }
    }

    /// The values, by their numbers.
    pub fn as_slice(&self) -> &[Value]
        ensures value { result.now ≡ self.now }
        ensures fits { length result.now ≤ 64 }
    {
        &self.slots[..self.many]
    }

    /// What terms are evaluated by, where these values are known.
    pub(crate) fn under<'a>(&'a self, base: &'a Base) -> Setting<'a>
        ensures base { result.base.now ≡ base.now }
        ensures known { result.known.now ≡ self.now }
    {
        let known = self.as_slice();
        Setting { base, known }
    }

    /// Takes all values out.
    pub fn clear(&mut self)
        ensures { self.new ≡ [] }
    {
        self.many = 0;
    }

    /// Puts a value behind the others. A 65th is left out.
    pub fn push(&mut self, value: Value)
        ensures room { length self.old < 64 → self.new ≡ self.old ++ value ∷ [] }
        ensures full { 64 ≤ length self.old → self.new ≡ self.old }
    {
        if self.many < ROOM {
            self.slots[self.many] = value;
            self.many += 1;
        }
    }
}
