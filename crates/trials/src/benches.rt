//! The bench: each refusal of enter, tie and settle, and what a refused call leaves.
use bench::{Bench, BenchFault, Entry};
use run::{RunSource, Window};
use std::test::Fail;

/// An entry at location 0 with step 0; its kind is any byte, as in a record.
pub(super) fn entry(number: u8, kind: u8, thread: u8, value: u32) -> Entry {
    Entry {
        number,
        kind,
        thread,
        step: 0,
        location: 0,
        value,
    }
}

/// An initial write (0), a write of 1 by thread 1 (1), a read of 0 by thread 2 (2) and one of 1 by thread 3 (3).
pub(super) fn small() -> Result<Bench, BenchFault> {
    let mut bench = Bench::new();
    bench.enter(entry(0, 4, 0, 0))?;
    bench.enter(entry(1, 1, 1, 1))?;
    bench.enter(entry(2, 0, 2, 0))?;
    bench.enter(entry(3, 0, 3, 1))?;
    Ok(bench)
}

#[test]
fn enter_is_refused_by_number_range_and_clash(rt: HostRuntime) -> Result<(), Fail> {
    let mut bench = small()?;
    assert_eq!(rt; bench.enter(entry(32, 1, 4, 0)), Err(BenchFault::BadNumber));
    assert_eq!(rt; bench.enter(entry(3, 1, 4, 0)), Err(BenchFault::BadNumber));
    assert_eq!(rt; bench.enter(entry(4, 5, 4, 0)), Err(BenchFault::OutOfRange));
    assert_eq!(rt; bench.enter(entry(4, 1, 9, 0)), Err(BenchFault::OutOfRange));
    assert_eq!(rt; bench.enter(entry(4, 2, 4, 7)), Err(BenchFault::OutOfRange));
    assert_eq!(rt; bench.enter(entry(4, 1, 3, 0)), Err(BenchFault::Clash));
    assert_eq!(rt; bench.enter(entry(4, 4, 0, 0)), Err(BenchFault::Clash));
    assert_eq!(rt; bench.event(4), None);
    Ok(())
}

#[test]
fn tie_is_refused_without_a_pair_or_a_match(rt: HostRuntime) -> Result<(), Fail> {
    let mut bench = small()?;
    assert_eq!(rt; bench.tie(1, 0), Err(BenchFault::NoPair));
    assert_eq!(rt; bench.tie(2, 3), Err(BenchFault::NoPair));
    assert_eq!(rt; bench.tie(200, 0), Err(BenchFault::NoPair));
    assert_eq!(rt; bench.tie(2, 1), Err(BenchFault::Mismatch));
    assert_eq!(rt; bench.tie(2, 0), Ok(()));
    let read = bench.event(2).ok_or("no event")?;
    assert_eq!(rt; read.source, Some(0));
    Ok(())
}

#[test]
fn settle_is_refused_beside_another_settled_write(rt: HostRuntime) -> Result<(), Fail> {
    let mut bench = small()?;
    assert_eq!(rt; bench.settle(2), Err(BenchFault::NoWrite));
    assert_eq!(rt; bench.settle(1), Ok(()));
    assert_eq!(rt; bench.settle(1), Ok(()));
    assert_eq!(rt; bench.settle(0), Err(BenchFault::OtherSettled));
    bench.clear();
    assert_eq!(rt; bench.event(1), None);
    Ok(())
}

#[test]
fn a_fault_tells_its_number_and_no_place(rt: HostRuntime) {
    let told = BenchFault::OtherSettled.refusal();
    assert_eq!(rt; told.number, 15);
    assert_eq!(rt; told.place, 0);
}

#[test]
fn a_window_shows_one_location_also_through_another(rt: HostRuntime) -> Result<(), Fail> {
    let bench = small()?;
    assert!(rt; Window::new(&bench, 16).is_err());
    let seen = Window::new(&bench, 0).ok().ok_or("refused")?;
    assert_eq!(rt; seen.event(3), bench.event(3));
    let none = Window::new(seen, 1).ok().ok_or("refused")?;
    assert_eq!(rt; none.event(3), None);
    Ok(())
}
