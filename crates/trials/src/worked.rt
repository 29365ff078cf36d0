//! The worked runs, entered on a bench and written as records: each is sound, and its record is of the stated length.
use bench::{Bench, BenchFault, Entry};
use record::{Record, write};
use run::{Kind, soundness};
use std::process::Abort;
use std::test::Fail;

/// Enters an event at a number: its kind, thread and step, then its location and value.
fn put(
    bench: &mut Bench,
    number: u8,
    what: (Kind, u8, u8),
    location: u8,
    value: u32,
) -> Result<(), BenchFault> {
    let (kind, thread, step) = what;
    bench.enter(Entry {
        number,
        kind: kind as u8,
        thread,
        step,
        location,
        value,
    })
}

/// Locations 0 and 1 with their initial writes of 0.
fn initials() -> Result<Bench, BenchFault> {
    let mut bench = Bench::new();
    put(&mut bench, 0, (Kind::Initial, 0, 0), 0, 0)?;
    put(&mut bench, 1, (Kind::Initial, 0, 0), 1, 0)?;
    Ok(bench)
}

/// The second thread sees the flag but not the data.
fn message_passing() -> Result<Bench, BenchFault> {
    let mut bench = initials()?;
    put(&mut bench, 2, (Kind::Write, 1, 0), 0, 1)?;
    put(&mut bench, 3, (Kind::Write, 1, 1), 1, 1)?;
    put(&mut bench, 4, (Kind::Read, 2, 0), 1, 1)?;
    put(&mut bench, 5, (Kind::Read, 2, 1), 0, 0)?;
    bench.tie(4, 3)?;
    bench.tie(5, 0)?;
    Ok(bench)
}

/// Two threads write both locations, in opposite order.
fn two_plus_two() -> Result<Bench, BenchFault> {
    let mut bench = initials()?;
    put(&mut bench, 2, (Kind::Write, 1, 0), 0, 2)?;
    put(&mut bench, 3, (Kind::Write, 1, 1), 1, 1)?;
    put(&mut bench, 4, (Kind::Write, 2, 0), 1, 2)?;
    put(&mut bench, 5, (Kind::Write, 2, 1), 0, 1)?;
    Ok(bench)
}

/// The bench is sound, its record has the length, and what is read back is sound.
fn sound_at(rt: &impl Abort, bench: &Bench, length: usize) -> Result<(), Fail> {
    assert_eq!(rt; soundness(bench), None);
    let mut out = [0; 96];
    assert_eq!(rt; write(bench, &mut out), Ok(length));
    assert!(rt; length <= 96);
    assert_eq!(rt; soundness(&Record::read(&out[..length])?), None);
    Ok(())
}

#[test]
fn message_passing_is_sound(rt: HostRuntime) -> Result<(), Fail> {
    sound_at(&rt, &message_passing()?, 85)
}

#[test]
fn two_plus_two_is_sound_free_and_settled(rt: HostRuntime) -> Result<(), Fail> {
    let mut bench = two_plus_two()?;
    sound_at(&rt, &bench, 75)?;
    bench.settle(2)?;
    bench.settle(4)?;
    sound_at(&rt, &bench, 83)
}
