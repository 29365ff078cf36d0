//! Writing a bench as a record: its length first, then the calls stage by stage.
ghost use Rattle.std.specs.Prelude.{◌≡◌, ◌+◌, ◌≤◌, ◌++◌, length, sum_by};
ghost use Rattle.std.specs.List.{flat_map};
ghost use Rattle.record.specs.Format.{end};
ghost use Rattle.record.specs.RoundTrip.{ReadsBack};
ghost use Rattle.record.specs.Writing.{entering, tying, settling, record_bytes, call_bytes, MadeOf, Placed, Wrote};
ghost use Rattle.bench.specs.Benches.{bench_run};
ghost use Rattle.run.specs.Tests.{table_run};

use super::calls::size;
use super::fault::WriteFault;
use super::format::{
    END_TAG, EVENT_LENGTH, EVENT_TAG, HEAD, SETTLING_LENGTH, SETTLING_TAG, TIE_LENGTH, TIE_TAG,
};
use bench::{Action, Bench, Entry};
use run::{Event, Snapshot};

/// Writes a text over the bytes from a place on, and tells the place behind it.
// The place stays a number beside the caller's buffer: in a struct of the two, each method would have to say as well
// that it still holds that buffer, a clause more at every step.
fn paste(out: &mut [u8], at: usize, text: &[u8]) -> usize
    requires { at + length text.now ≤ length out.old }
    ensures { Placed out.old at text.now result out.new }
{
    let next = at + text.len();
    out[at..next].copy_from_slice(text);
    next
}

/// Writes the field of a call, if there is one; an event's value stands high byte first.
fn put(out: &mut [u8], at: usize, call: Option<Action>) -> usize
    requires { at + length (call_bytes call) ≤ length out.old }
    ensures { Placed out.old at (call_bytes call) result out.new }
{
    match call {
        None => at,
        Some(Action::Enter(entry)) => {
            let [a, b, c, d] = entry.value.to_be_bytes();
            let text = [
                EVENT_TAG,
                0,
                EVENT_LENGTH,
                entry.number,
                entry.kind,
                entry.thread,
                entry.step,
                entry.location,
                a,
                b,
                c,
                d,
            ];
            paste(out, at, &text)
        }
        Some(Action::Tie { read, write }) => paste(out, at, &[TIE_TAG, 0, TIE_LENGTH, read, write]),
        Some(Action::Settle { number }) => {
            paste(out, at, &[SETTLING_TAG, 0, SETTLING_LENGTH, number])
        }
    }
}

/// Writes the fields of calls from the start on, and tells the place behind them.
fn put_all(out: &mut [u8], calls: &[Option<Action>]) -> usize
    requires { length (flat_map call_bytes calls.now) ≤ length out.old }
    ensures { Placed out.old 0 (flat_map call_bytes calls.now) result out.new }
{
    let mut at = 0;
    for call in calls {
        at = put(out, at, *call);
    }
    at
}

/// How many bytes the fields of calls have.
fn size_of_all(calls: &[Option<Action>]) -> usize
    requires { length calls.now ≤ 96 }
    ensures size { result ≡ sum_by (λ call. length (call_bytes call)) calls.now }
    ensures short { result ≤ 1152 }
{
    calls.iter().map(|call| call.map_or(0, size)).sum()
}

/// The call that enters an event.
fn entering(number: u8, event: Event) -> Option<Action>
    ensures { result ≡ Some (entering number event) }
{
    Some(Action::Enter(Entry {
        number,
        kind: event.kind,
        thread: event.thread,
        step: event.step,
        location: event.location,
        value: event.value,
    }))
}

/// The call that ties an event, if it has a source.
fn tying(read: u8, event: Event) -> Option<Action>
    ensures { result ≡ tying read event.source }
{
    event.source.map(|write| Action::Tie { read, write })
}

/// The call that settles an event, if it is settled.
fn settling(number: u8, event: Event) -> Option<Action>
    ensures { result ≡ settling number event.settled }
{
    event.settled.then_some(Action::Settle { number })
}

/// The calls of a stage: what is made of each event, by number.
// A loop over the numbers: with std::array::from_fn it stays open what `call_of` needs and what it gave at a number.
fn stage<F: Fn(u8, Event) -> Option<Action>>(table: &Snapshot, call_of: F) -> [Option<Action>; 32]
    requires { F.IsAlwaysCallable call_of }
    ensures { MadeOf (F.post call_of) (table_run table.now.events) result }
{
    let mut calls = [None; 32];
    for n in 0..32u8 {
        if let Some(event) = table.events[n as usize] {
            calls[n as usize] = call_of(n, event);
        }
    }
    calls
}

/// The calls of a record, stage by stage.
fn calls_of(table: &Snapshot) -> [[Option<Action>; 32]; 3]
    ensures { flat_map call_bytes (flat_map (λ stage. stage) result) ++ end ≡ record_bytes (table_run table.now.events) }
{
    [
        stage(table, entering),
        stage(table, tying),
        stage(table, settling),
    ]
}

/// Writes a bench as a record: events by number, ties by read, settlings by number, the end. Tells the length; the
/// bytes past it stay. Where it does not fit, nothing is written.
pub fn write(bench: &Bench, out: &mut [u8]) -> Result<usize, WriteFault>
    ensures wrote { Wrote (bench_run bench.now) out.old out.new result }
    ensures round_trip { ReadsBack (bench_run bench.now) }
{
    let table = bench.events();
    let stages = calls_of(&table);
    let calls = stages.as_flattened();
    let needed = size_of_all(calls) + HEAD;
    if out.len() < needed {
        return Err(WriteFault { needed });
    }
    let end = put_all(out, calls);
    Ok(paste(out, end, &[END_TAG, 0, 0]))
}
