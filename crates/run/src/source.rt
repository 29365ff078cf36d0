//! Run sources: whatever can be asked for the events of a run.
ghost use Rattle.std.specs.Prelude.{◌≡◌};
ghost use Rattle.run.specs.Runs.{Run, shown};

use super::event::Event;

/// A source of events. Its meaning is its standing run; asking changes nothing and is never refused.
pub trait RunSource {
    ghost standing: { Self → Run };

    /// The event that stands at a number: all that the standing run has there, and nothing above 31.
    fn event(&self, number: u8) -> Option<Event>
        ensures { result ≡ shown (standing self.now) number };
}

/// A reference to a source is a source of the same run.
impl<S: RunSource> RunSource for &S {
    ghost standing = { λ s. S.RunSource.standing s.now };

    fn event(&self, number: u8) -> Option<Event> {
        (**self).event(number)
    }
}
