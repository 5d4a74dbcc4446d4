//! Disciplines on examples.
use crate::discipline::Discipline;
use crate::first_in_first_out::FirstInFirstOut;
use crate::timed::Timed;
use recording::discipline::DisciplineKind;
use recording::marks::Marks;

fn post(delay: Option<u32>) -> Marks {
    Marks {
        environment: false,
        delay,
    }
}

#[test]
fn timed_compares_delays(rt: HostRuntime) {
    assert!(rt; Timed.precedes(post(Some(100)), post(Some(100))));
    assert!(rt; !Timed.precedes(post(Some(101)), post(Some(100))));
}

#[test]
fn a_delay_of_nothing_is_a_delay(rt: HostRuntime) {
    assert!(rt; !Timed.precedes(post(Some(0)), post(None)));
    assert!(rt; Timed.precedes(post(None), post(Some(0))));
    assert!(rt; !FirstInFirstOut.admits(post(Some(0))));
}

#[test]
fn a_recording_names_its_discipline(rt: HostRuntime) {
    assert!(rt; DisciplineKind::FirstInFirstOut.precedes(post(None), post(None)));
    assert!(rt; !DisciplineKind::AnyOrder.precedes(post(None), post(None)));
    assert!(rt; DisciplineKind::Timed.admits(post(Some(5))));
}
