//! The sorts that are read, and looking at the one at a place.
ghost use Rattle.std.specs.Prelude.{◌≡◌, ◌↔◌, drop, IsTrue};
ghost use Rattle.sentence.specs.Looks.{first_role, StandsAt, role_start, begins_atom, role_word, role_speech, sign_at, post_at, sign_above};

use super::role::*;
use super::sign::*;
use super::sort::Sort;
use std::alloc::Global;

// The place is no field: each clause speaks of the place before and the place behind, and a method of `&mut self` would have
// to say besides that the sorts are the same, `ensures same { IfOk result (λ _. self.new.sorts ≡ self.old.sorts) }`.
/// The sorts that are read, and the heap that what they say is built on.
#[derive(Clone, Copy)]
pub(crate) struct Parser<'a> {
    pub(crate) heap: Global,
    pub(crate) sorts: &'a [Sort],
}

impl<'a> Parser<'a> {
    /// The role of the sort at a place, none behind the end.
    fn role_at(self, at: usize) -> Option<Role>
        ensures { result ≡ first_role (drop at self.entry.sorts.now) }
    {
        self.sorts.get(at).copied().map(role_of)
    }

    /// A sort of this role stands at a place.
    // Inlined where the role is known: a role compared whole made the reading of lets half as slow again.
    #[inline(always)]
    pub(crate) fn stands(self, at: usize, role: Role) -> bool
        ensures { IsTrue result ↔ StandsAt self.entry.sorts.now at role }
    {
        self.role_at(at) == Some(role)
    }

    /// What begins an atom at a place.
    pub(crate) fn start_at(self, at: usize) -> Option<Start>
        ensures { result ≡ role_start (first_role (drop at self.entry.sorts.now)) }
    {
        match self.role_at(at) {
            Some(Role::Starts(start)) => Some(start),
            _ => None,
        }
    }

    /// An atom begins at a place.
    fn starts_at(self, at: usize) -> bool
        ensures { result ≡ begins_atom (drop at self.entry.sorts.now) }
    {
        self.start_at(at).is_some()
    }

    /// The infix sign at a place; a star is one if an atom begins behind it.
    fn infix_at(self, at: usize) -> Option<Infix>
        ensures { result ≡ sign_at self.entry.sorts.now at }
    {
        match self.role_at(at) {
            Some(Role::Goes(Go::Joins(Infix::Product))) if !self.starts_at(at + 1) => None,
            Some(Role::Goes(Go::Joins(sign))) => Some(sign),
            _ => None,
        }
    }

    /// The infix sign at a place, if it binds at least so tightly.
    pub(crate) fn infix_from(self, at: usize, rung: u8) -> Option<Infix>
        ensures { result ≡ sign_above rung (sign_at self.entry.sorts.now at) }
    {
        self.infix_at(at).filter(|sign| sign.rank() >= rung)
    }

    /// The sign behind an operand at a place; a star is one if no atom begins behind it.
    pub(crate) fn post_at(self, at: usize) -> Option<Post>
        ensures { result ≡ post_at self.entry.sorts.now at }
    {
        match self.role_at(at) {
            Some(Role::Goes(Go::Joins(Infix::Product))) if !self.starts_at(at + 1) => {
                Some(Post::Closure)
            },
            Some(Role::Goes(Go::Ends(sign))) => Some(sign),
            _ => None,
        }
    }

    /// The word of a check at a place.
    pub(crate) fn word_at(self, at: usize) -> Option<Word>
        ensures { result ≡ role_word (first_role (drop at self.entry.sorts.now)) }
    {
        match self.role_at(at) {
            Some(Role::Speaks(Speech::Words(word))) => Some(word),
            _ => None,
        }
    }

    /// The word of statements at a place.
    pub(crate) fn speech_at(self, at: usize) -> Option<Speech>
        ensures { result ≡ role_speech (first_role (drop at self.entry.sorts.now)) }
    {
        match self.role_at(at) {
            Some(Role::Speaks(speech)) => Some(speech),
            _ => None,
        }
    }
}
