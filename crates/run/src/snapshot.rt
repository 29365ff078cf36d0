//! A snapshot: the events of a run, read from a source once.
ghost use Rattle.std.specs.Prelude.{◌≡◌, ℕ, ◌<◌, true};
ghost use Rattle.std.specs.Fn.{FnReturnsAt};
ghost use Rattle.run.specs.Runs.{Run, shown, nothing, without};
ghost use Rattle.run.specs.Masks.{Gathered};
ghost use Rattle.run.specs.Searches.{Searched};
ghost use Rattle.run.specs.Tests.{table_run, holds, some_linked, rivalled, misplaced, ill_sourced, broken, faulty, Lowest};

use super::event::Event;
use super::link::Link;
use super::rule::Rule;
use super::source::RunSource;

/// How many numbers there are for events: 0 to 31.
pub const EVENTS: usize = 32;

/// The events of a run by their numbers, with nothing asked of them.
#[derive(Clone, Copy)]
pub struct Snapshot {
    pub events: [Option<Event>; EVENTS],
}

/// A snapshot shows what it holds.
impl RunSource for Snapshot {
    ghost standing = { λ s. table_run s.events };

    fn event(&self, number: u8) -> Option<Event> {
        self.events.get(number as usize).copied().flatten()
    }
}

impl Snapshot {
    /// The table with no event.
    pub fn empty() -> Snapshot
        ensures { table_run result.events ≡ nothing }
    {
        Snapshot {
            events: [None; EVENTS],
        }
    }

    /// Whether some event passes a test.
    pub fn some<F: Fn(&Event) -> bool>(&self, test: F) -> bool
        requires { F.IsAlwaysCallable test }
        ensures { Searched (FnReturnsAt F.Fn test) (table_run self.now.events) result }
    {
        self.events
            .iter()
            .any(|event| event.is_some_and(|found| test(&found)))
    }

    /// Whether some event passes a test, the one at `n` left out.
    pub fn some_other<F: Fn(&Event) -> bool>(&self, n: u8, test: F) -> bool
        requires { F.IsAlwaysCallable test }
        ensures { Searched (FnReturnsAt F.Fn test) (without n (table_run self.now.events)) result }
    {
        (0..EVENTS as u8).any(|m| m != n && self.event(m).is_some_and(|other| test(&other)))
    }

    /// Whether another settled write has the location of the event at `n`.
    pub fn rivalled(&self, n: u8, event: &Event) -> bool
        ensures { result ≡ rivalled (table_run self.now.events) n event.now }
    {
        self.some_other(
            n,
            |other| other.is_write() && other.settled && other.same_place(event),
        )
    }

    /// Whether some event stands so to the event at `n`.
    pub fn some_linked(&self, link: Link, n: u8, event: &Event) -> bool
        ensures { result ≡ some_linked link (table_run self.now.events) n event.now }
    {
        match link {
            Link::SameStep => self.some_other(n, |other| other.same_step(event)),
            Link::Twin => self.some_other(n, |other| other.is_initial() && other.same_place(event)),
            Link::Source => event.source.is_some_and(|write| {
                self.event(write).is_some_and(|found| found.supplies(event))
            }),
            Link::OtherSettled => self.rivalled(n, event),
            Link::OtherWrite => {
                self.some_other(n, |other| other.is_write() && other.same_place(event))
            }
            Link::Origin => self.some(|other| other.is_initial() && other.same_place(event)),
        }
    }

    /// Whether the event is settled though it is no write, or not the only settled one of its location.
    pub(crate) fn misplaced(&self, n: u8, event: &Event) -> bool
        ensures { result ≡ misplaced (table_run self.now.events) n event.now }
    {
        event.settled && (!event.is_write() || self.rivalled(n, event))
    }

    /// Whether the event has a source that does not supply it.
    fn ill_sourced(&self, event: &Event) -> bool
        ensures { result ≡ ill_sourced (table_run self.now.events) event.now event.now.source }
    {
        event.source.is_some_and(|write| {
            !(event.is_read() && self.event(write).is_some_and(|found| found.supplies(event)))
        })
    }

    // The rule is an enum and no closure: a breach tells which one it was.
    /// Whether the event at `n` breaks a rule.
    pub fn broken(&self, rule: Rule, n: u8, event: &Event) -> bool
        ensures { result ≡ broken rule (table_run self.now.events) n event.now }
    {
        match rule {
            Rule::Ranges => !event.in_range(),
            Rule::Steps => event.is_threaded()
                && self.some_other(n, |other| other.same_step(event)),
            Rule::Initials => {
                event.is_initial()
                    && self.some_other(n, |other| other.is_initial() && other.same_place(event))
            }
            Rule::Sources => self.ill_sourced(event),
            Rule::Settlings => {
                self.misplaced(n, event)
                    || event.settled
                        && event.is_initial()
                        && self.some_other(n, |other| other.is_write() && other.same_place(event))
            }
            Rule::Initialised => {
                event.is_memory()
                    && !self.some(|other| other.is_initial() && other.same_place(event))
            }
            Rule::Tied => event.is_read() && event.source.is_none(),
        }
    }

    /// Whether an event stands at `n` that breaks a rule.
    fn faulty(&self, rule: Rule, n: u8) -> bool
        ensures { result ≡ holds (shown (table_run self.now.events) n) (broken rule (table_run self.now.events) n) }
    {
        self.event(n)
            .is_some_and(|event| self.broken(rule, n, &event))
    }

    /// The lowest event that breaks a rule.
    pub(crate) fn lowest_broken(&self, rule: Rule) -> Option<u8>
        ensures { Lowest (faulty rule (table_run self.now.events)) result }
    {
        (0..EVENTS as u8).find(|n| self.faulty(rule, *n))
    }

    // Enumerated, filtered and folded, each step would take a pair apart, the fold only to drop its event: no plainer than the loop.
    /// The numbers of the events that pass a test, as a mask: bit n for the event at n.
    pub fn gather<F: Fn(&Event) -> bool>(&self, test: F) -> u32
        requires { F.IsAlwaysCallable test }
        ensures { Gathered (FnReturnsAt F.Fn test) (table_run self.now.events) result }
    {
        let mut mask = 0;
        for (n, event) in self.events.iter().enumerate() {
            if event.is_some_and(|found| test(&found)) {
                mask |= 1 << n;
            }
        }
        mask
    }
}
