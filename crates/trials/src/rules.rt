//! The rules of a sound run, each broken by a run of any bytes.
use run::source::RunSource;
use run::{Breach, Event, Rule, Snapshot, soundness};

/// An event at location 0 with value 0; its kind is any byte, as of a source.
fn event(kind: u8, thread: u8, step: u8) -> Event {
    Event {
        kind,
        thread,
        step,
        location: 0,
        value: 0,
        source: None,
        settled: false,
    }
}

/// An initial write at 0, a write at 1 and a tied read at 2.
fn sound() -> Snapshot {
    let mut run = Snapshot::empty();
    run.events[0] = Some(event(4, 0, 0));
    run.events[1] = Some(event(1, 1, 0));
    run.events[2] = Some(Event {
        source: Some(0),
        ..event(0, 1, 1)
    });
    run
}

/// What a run breaks first.
fn breach(rule: Rule, event: u8) -> Option<Breach> {
    Some(Breach { rule, event })
}

#[test]
fn a_sound_run_breaks_no_rule(rt: HostRuntime) {
    assert_eq!(rt; soundness(&sound()), None);
    assert_eq!(rt; soundness(&Snapshot::empty()), None);
}

#[test]
fn ranges_steps_and_initials(rt: HostRuntime) {
    let mut run = sound();
    run.events[9] = Some(event(200, 1, 7));
    assert_eq!(rt; soundness(&run), breach(Rule::Ranges, 9));
    run.events[9] = Some(event(1, 1, 1));
    assert_eq!(rt; soundness(&run), breach(Rule::Steps, 2));
    run.events[9] = Some(event(4, 0, 0));
    assert_eq!(rt; soundness(&run), breach(Rule::Initials, 0));
    assert_eq!(rt;
        Breach {
            rule: Rule::Steps,
            event: 2,
        }
        .place(),
        66
    );
}

#[test]
fn sources_settlings_and_the_rest(rt: HostRuntime) {
    let mut run = sound();
    run.events[9] = Some(Event {
        source: Some(77),
        ..event(0, 2, 0)
    });
    assert_eq!(rt; soundness(&run), breach(Rule::Sources, 9));
    run.events[9] = Some(Event {
        settled: true,
        ..event(0, 2, 0)
    });
    assert_eq!(rt; soundness(&run), breach(Rule::Settlings, 9));
    run.events[9] = Some(Event {
        location: 3,
        ..event(1, 2, 0)
    });
    assert_eq!(rt; soundness(&run), breach(Rule::Initialised, 9));
    run.events[9] = Some(event(0, 2, 0));
    assert_eq!(rt; soundness(&run), breach(Rule::Tied, 9));
}
