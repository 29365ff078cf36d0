//! Coherence orders of small runs, each listed; and the most free writes that are counted.
use coherence::{count_orders, nth_order};
use relation::Relation;
use run::{Event, Kind, Snapshot};

/// A write: its kind, its location, and whether it is settled.
type Write = (Kind, u8, bool);

/// An initial write of location 0.
const FIRST: Write = (Kind::Initial, 0, false);

/// A write of location 0 that is neither initial nor settled.
const FREE: Write = (Kind::Write, 0, false);

/// The run of these writes, numbered as they stand.
fn run_of(writes: &[Write]) -> Snapshot {
    let mut events = [None; 32];
    for (event, (kind, location, settled)) in events.iter_mut().zip(writes) {
        *event = Some(Event {
            kind: *kind as u8,
            thread: 1,
            step: 0,
            location: *location,
            value: 0,
            source: None,
            settled: *settled,
        });
    }
    Snapshot { events }
}

/// The run 2+2w, with the last writes of both locations settled or not.
fn two_plus_two(settled: bool) -> Snapshot {
    run_of(&[
        FIRST,
        (Kind::Initial, 1, false),
        (Kind::Write, 0, settled),
        (Kind::Write, 1, false),
        (Kind::Write, 1, settled),
        FREE,
    ])
}

/// Whether the order of a number has these events, and only these, one after the other.
fn lines_up(events: &Snapshot, number: u16, line: &[u8]) -> bool {
    let mut order = Relation { rows: [0; 32] };
    let mut same = nth_order(events, number, &mut order);
    let mut later = 0;
    for event in line.iter().rev() {
        same = same && order.rows[(*event & 31) as usize] == later;
        later |= 1 << (*event & 31);
    }
    same
}

#[test]
fn two_plus_two_has_four_orders(rt: HostRuntime) {
    let events = two_plus_two(false);
    assert_eq!(rt; count_orders(&events), Some(4));
    assert!(rt; lines_up(&events, 0, &[0, 2, 5]) && lines_up(&events, 0, &[1, 3, 4]));
    assert!(rt; lines_up(&events, 1, &[0, 2, 5]) && lines_up(&events, 1, &[1, 4, 3]));
    assert!(rt; lines_up(&events, 2, &[0, 5, 2]) && lines_up(&events, 2, &[1, 3, 4]));
    assert!(rt; lines_up(&events, 3, &[0, 5, 2]) && lines_up(&events, 3, &[1, 4, 3]));
}

#[test]
fn two_plus_two_settled_has_one_order(rt: HostRuntime) {
    let events = two_plus_two(true);
    assert_eq!(rt; count_orders(&events), Some(1));
    assert!(rt; lines_up(&events, 0, &[0, 5, 2]) && lines_up(&events, 0, &[1, 3, 4]));
}

#[test]
fn a_number_past_the_orders_changes_nothing(rt: HostRuntime) {
    let mut order = Relation { rows: [7; 32] };
    assert_eq!(rt; nth_order(&two_plus_two(false), 4, &mut order), false);
    assert!(rt; order.rows == [7; 32]);
}

#[test]
fn three_locations_mixed(rt: HostRuntime) {
    let events = run_of(&[
        (Kind::Initial, 3, false),
        (Kind::Initial, 9, false),
        (Kind::Initial, 15, true),
        (Kind::Write, 9, false),
        (Kind::Write, 3, true),
        (Kind::Write, 9, false),
        (Kind::Write, 9, false),
    ]);
    assert_eq!(rt; count_orders(&events), Some(6));
    assert!(rt; lines_up(&events, 0, &[0, 4]) && lines_up(&events, 0, &[1, 3, 5, 6]));
    assert!(rt; lines_up(&events, 4, &[0, 4]) && lines_up(&events, 4, &[1, 6, 3, 5]));
    assert!(rt; lines_up(&events, 5, &[2]) && lines_up(&events, 5, &[1, 6, 5, 3]));
}

#[test]
fn seven_free_writes_have_5040_orders(rt: HostRuntime) {
    let events = run_of(&[FIRST, FREE, FREE, FREE, FREE, FREE, FREE, FREE]);
    assert_eq!(rt; count_orders(&events), Some(5040));
    assert!(rt; lines_up(&events, 0, &[0, 1, 2, 3, 4, 5, 6, 7]));
    assert!(rt; lines_up(&events, 5039, &[0, 7, 6, 5, 4, 3, 2, 1]));
    assert!(rt; !lines_up(&events, 5040, &[0]));
}

#[test]
fn eight_free_writes_are_over(rt: HostRuntime) {
    let events = run_of(&[FIRST, FREE, FREE, FREE, FREE, FREE, FREE, FREE, FREE]);
    assert_eq!(rt; count_orders(&events), None);
    assert!(rt; lines_up(&events, 5040, &[0, 2, 1, 3, 4, 5, 6, 7, 8]));
}

#[test]
fn thirty_one_free_writes_are_over(rt: HostRuntime) {
    let mut writes = [FREE; 32];
    writes[0] = FIRST;
    assert_eq!(rt; count_orders(&run_of(&writes)), None);
}
