//! Records: each refusal with its place, and a bench written and read back.
use super::benches::{entry, small};
use bench::{Bench, BenchFault};
use record::{Record, RecordFault, WriteFault, write};
use run::RunSource;
use std::test::Fail;

/// The fault of a record, if it has one.
fn fault(bytes: &[u8]) -> Option<RecordFault> {
    Record::read(bytes).err()
}

fn shape(place: usize) -> Option<RecordFault> {
    Some(RecordFault::Shape { place })
}

#[test]
fn shapes_are_refused_at_their_field(rt: HostRuntime) {
    assert_eq!(rt; fault(&[0, 0, 0]), None);
    assert_eq!(rt; fault(&[]), shape(0));
    assert_eq!(rt; fault(&[0, 0]), shape(0));
    assert_eq!(rt; fault(&[4, 0, 0]), shape(0));
    assert_eq!(rt; fault(&[3, 0, 2, 1, 1, 0, 0, 0]), shape(0));
    assert_eq!(rt; fault(&[3, 0, 1, 7]), shape(4));
    assert_eq!(rt; fault(&[3, 0, 1, 7, 2, 0, 2, 1]), shape(4));
    assert_eq!(rt; fault(&[0, 0, 0, 9]), shape(3));
    assert_eq!(rt; fault(&[0; 4097]), Some(RecordFault::TooLong));
}

#[test]
fn a_refused_call_stands_whole_in_the_fault(rt: HostRuntime) {
    let bytes = [1, 0, 9, 0, 4, 0, 0, 0, 0, 0, 0, 0, 3, 0, 1, 7, 0, 0, 0];
    let call = RecordFault::Call {
        place: 12,
        fault: BenchFault::NoWrite,
    };
    assert_eq!(rt; fault(&bytes), Some(call));
    assert_eq!(rt; call.refusal().number, 22);
    assert_eq!(rt; call.refusal().place, 12);
}

/// The small bench with both reads tied, its write settled, and a value of 32 bits: five entries, two ties, one
/// settling and the end.
fn full() -> Result<Bench, BenchFault> {
    let mut bench = small()?;
    bench.enter(entry(31, 1, 8, 4000000000))?;
    bench.tie(2, 0)?;
    bench.tie(3, 1)?;
    bench.settle(1)?;
    Ok(bench)
}

#[test]
fn a_written_bench_is_read_back(rt: HostRuntime) -> Result<(), Fail> {
    let bench = full()?;
    let mut out = [255; 77];
    assert_eq!(rt; write(&bench, &mut out), Ok(77));
    let record = Record::read(&out)?;
    for n in 0..33u8 {
        assert_eq!(rt; record.event(n), bench.event(n));
    }
    Ok(())
}

#[test]
fn a_short_buffer_stays(rt: HostRuntime) -> Result<(), Fail> {
    let mut out = [255; 76];
    assert_eq!(rt; write(&full()?, &mut out), Err(WriteFault { needed: 77 }));
    assert_eq!(rt; out, [255; 76]);
    Ok(())
}
