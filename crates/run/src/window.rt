//! The window: one location's reads and writes of any source.
ghost use Rattle.std.specs.Prelude.{◌≡◌, ◌<◌, ◌≤◌, IfOk, MatchResult};
ghost use Rattle.run.specs.Runs.{Run, shown};
ghost use Rattle.run.specs.Windows.{within, windowed, ShowsLocation, window_refusal};

use super::event::{Event, LOCATIONS};
use super::source::RunSource;
use refusal::{Part, Refusal};

/// A source of which only the reads and writes of one location show.
#[derive(Drop)]
pub struct Window<S> {
    source: S,
    location: u8,
}

/// Why a window was not opened: its location is above 15. The source is handed back.
#[derive(Drop)]
pub struct WindowFault<S> {
    pub source: S,
}

impl<S> WindowFault<S> {
    /// The fault's number, part and place.
    pub fn refusal(&self) -> Refusal
        ensures { result ≡ window_refusal }
    {
        Refusal {
            number: 23,
            part: Part::Window,
            place: 0,
        }
    }
}

/// The event, if it is a read or write of the location.
fn within(location: u8, event: Option<Event>) -> Option<Event>
    ensures { result ≡ within location event }
{
    event.filter(|found| found.is_memory() && found.location == location)
}

/// A window shows the reads and writes of its location.
impl<S: RunSource> RunSource for Window<S> {
    ghost standing = { λ w. windowed w.location (S.RunSource.standing w.source) };

    fn event(&self, number: u8) -> Option<Event> {
        within(self.location, self.source.event(number))
    }
}

impl<S: RunSource> Window<S> {
    /// Opens a window on a location of a source.
    pub fn new(source: S, location: u8) -> Result<Window<S>, WindowFault<S>>
        ensures answer { MatchResult result (λ w. location ≤ 15) (λ f. 15 < location) }
        ensures opened { MatchResult result (λ w. (w.source ≡ source) × (w.location ≡ location)) (λ f. f.source ≡ source) }
        ensures shows { IfOk result (λ w. ShowsLocation location (S.RunSource.standing source) (windowed w.location (S.RunSource.standing w.source))) }
    {
        if location >= LOCATIONS {
            return Err(WindowFault { source });
        }
        Ok(Window { source, location })
    }
}
