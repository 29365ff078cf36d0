//! Events: what the cores of a board did, one record each.

ghost use Rattle.std.specs.Prelude.{◌≡◌};
ghost use Rattle.run.specs.Kinds.{is};
ghost use Rattle.run.specs.Tests.{is_read, is_initial, is_write, is_memory, is_threaded, same_place, same_step, supplies, well_threaded, well_placed, in_range};

/// How many locations there are: 0 to 15.
pub const LOCATIONS: u8 = 16;

/// What an event can be, each kind with its number.
#[derive(Clone, Copy, PartialEq, Eq, Debug)]
pub enum Kind {
    Read = 0,
    Write = 1,
    Fence = 2,
    Branch = 3,
    Initial = 4,
}

/// What a run source answers: an event with its source, if it is a tied read, and whether it is settled.
/// Its fields may hold any byte; the rules of a sound run say which of them stand.
#[derive(Clone, Copy, PartialEq, Eq, Debug)]
pub struct Event {
    pub kind: u8,
    pub thread: u8,
    pub step: u8,
    pub location: u8,
    pub value: u32,
    pub source: Option<u8>,
    pub settled: bool,
}

impl Event {
    /// Whether it is of a kind.
    pub fn is(&self, kind: Kind) -> bool
        ensures { result ≡ is kind self.now }
    {
        self.kind == kind as u8
    }

    /// Whether it is a read.
    pub fn is_read(&self) -> bool
        ensures { result ≡ is_read self.now }
    {
        self.is(Kind::Read)
    }

    /// Whether it is an initial write.
    pub fn is_initial(&self) -> bool
        ensures { result ≡ is_initial self.now }
    {
        self.is(Kind::Initial)
    }

    /// Whether it is a write, initial or not.
    pub fn is_write(&self) -> bool
        ensures { result ≡ is_write self.now }
    {
        self.is(Kind::Write) || self.is_initial()
    }

    /// Whether it is a read or a write.
    pub fn is_memory(&self) -> bool
        ensures { result ≡ is_memory self.now }
    {
        self.is_read() || self.is_write()
    }

    /// Whether its thread is that of a core, 1 to 8.
    pub fn is_threaded(&self) -> bool
        ensures { result ≡ is_threaded self.now }
    {
        (1..=8).contains(&self.thread)
    }

    /// Whether it has the location of another.
    pub fn same_place(&self, other: &Event) -> bool
        ensures { result ≡ same_place self.now other.now }
    {
        self.location == other.location
    }

    /// Whether it has the thread and step of another.
    pub(crate) fn same_step(&self, other: &Event) -> bool
        ensures { result ≡ same_step self.now other.now }
    {
        self.thread == other.thread && self.step == other.step
    }

    /// Whether it is a write of the location and value of another.
    pub(crate) fn supplies(&self, other: &Event) -> bool
        ensures { result ≡ supplies other.now self.now }
    {
        self.is_write() && self.same_place(other) && self.value == other.value
    }

    /// Whether its thread and step are those that its kind asks for.
    fn well_threaded(&self) -> bool
        ensures { result ≡ well_threaded self.now }
    {
        if self.is_initial() {
            self.thread == 0 && self.step == 0
        } else {
            self.is_threaded()
        }
    }

    /// Whether its location and value are those that its kind asks for.
    fn well_placed(&self) -> bool
        ensures { result ≡ well_placed self.now }
    {
        if self.is_memory() {
            self.location < LOCATIONS
        } else {
            self.location == 0 && self.value == 0
        }
    }

    /// Whether each field is in its range.
    pub fn in_range(&self) -> bool
        ensures { result ≡ in_range self.now }
    {
        self.kind <= Kind::Initial as u8 && self.well_threaded() && self.well_placed()
    }
}
