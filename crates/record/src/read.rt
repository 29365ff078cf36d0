//! Reading a record: first the shape of every field, then the calls.
ghost use Rattle.std.specs.Prelude.{◌≡◌, ◌≤◌, length, IfOk, MatchResult};
ghost use Rattle.record.specs.Reading.{calls_of, behind, misfit, call_fault, reached, record_run, shape_fault, read_fault, checked};
ghost use Rattle.record.specs.Readings.{Read, Faulty, OneReading, OneRun};
ghost use Rattle.bench.specs.Benches.{bench_run};

use super::calls::{Calls, size};
use super::fault::RecordFault;
use super::format::{END_TAG, HEAD, LONGEST};
use bench::Bench;
use run::{Event, RunSource};

/// The place behind the fields of the calls.
fn behind(bytes: &[u8]) -> usize
    ensures place { result ≡ behind (calls_of bytes.now) }
    ensures within { result ≤ length bytes.now }
{
    Calls::of(bytes).map(|(_, call)| size(call)).sum()
}

/// Looks at the shape of every field, and refuses the first that is cut, wrong, missing or past the end.
fn check_shape(bytes: &[u8]) -> Result<(), RecordFault>
    ensures { result ≡ checked (shape_fault (misfit bytes.now)) }
{
    let place = behind(bytes);
    match &bytes[place..] {
        [END_TAG, 0, 0] => Ok(()),
        [END_TAG, 0, 0, ..] => Err(RecordFault::Shape {
            place: place + HEAD,
        }),
        _ => Err(RecordFault::Shape { place }),
    }
}

/// Makes the calls of a record on a bench, up to the first that is refused.
fn replay(bytes: &[u8], bench: &mut Bench) -> Result<(), RecordFault>
    ensures fault { result ≡ checked (call_fault (bench_run bench.old) (calls_of bytes.now)) }
    ensures run { bench_run bench.new ≡ reached (bench_run bench.old) (calls_of bytes.now) }
{
    for (place, call) in Calls::of(bytes) {
        bench
            .act(call)
            .map_err(|fault| RecordFault::Call { place, fault })?;
    }
    Ok(())
}

/// A record that was read: its bytes, borrowed. It shows the run of a new bench after its calls.
#[derive(Clone, Copy, PartialEq, Eq, Debug)]
pub struct Record<'a> {
    bytes: &'a [u8],
}

/// A record shows the run that its calls lead to. It makes them anew at each ask.
impl<'a> RunSource for Record<'a> {
    ghost standing = { λ r. record_run r.bytes.now };

    fn event(&self, number: u8) -> Option<Event> {
        let mut bench = Bench::new();
        let _ = replay(self.bytes, &mut bench);
        bench.event(number)
    }
}

/// Refuses bytes that are no record with their first listed fault.
fn check(bytes: &[u8]) -> Result<(), RecordFault>
    ensures { result ≡ checked (read_fault bytes.now) }
{
    if bytes.len() > LONGEST {
        return Err(RecordFault::TooLong);
    }
    check_shape(bytes)?;
    replay(bytes, &mut Bench::new())
}

impl<'a> Record<'a> {
    /// Reads bytes as a record: every field's shape first, then the calls. Refused with the first listed fault at its
    /// lowest place, and no bytes have two answers; accepted, it shows the run of a new bench after its calls.
    pub fn read(bytes: &'a [u8]) -> Result<Record<'a>, RecordFault>
        ensures reads { MatchResult result (λ k. Read bytes.now (record_run k.bytes.now) None) (λ f. Faulty bytes.now f) }
        ensures one { OneReading bytes.now × OneRun bytes.now }
        ensures same { IfOk result (λ k. k.bytes.now ≡ bytes.now) }
    {
        check(bytes)?;
        Ok(Record { bytes })
    }
}
