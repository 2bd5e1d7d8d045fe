//! Parts of one's own by example.
use crate::hops::Hops;
use crate::last_in::LastIn;
use agendas::agenda::Agenda;
use agendas::fault::AgendaFault;
use labels::label::Label;
use labels::plain::Plain;
use labels::step::Step;

/// A step of duration 5 and cost -2 to a node that is open from 10 to 20.
fn step() -> Step {
    Step {
        duration: 5,
        cost: -2,
        head: 3,
        opens: 10,
        closes: 20,
    }
}

fn hops(time: u32, cost: i64, legs: u16) -> Hops<2> {
    Hops {
        plain: Plain { time, cost },
        legs,
    }
}

#[test]
fn two_legs_at_most(rt: HostRuntime) {
    assert_eq!(rt; Hops::<2>::start(4, 0), hops(4, 0, 0));
    for (legs, arrived) in [
        (0, Some(hops(10, 1, 1))),
        (1, Some(hops(10, 1, 2))),
        (2, None),
        (65_535, None),
    ] {
        assert_eq!(rt; hops(4, 3, legs).extend(&step()), arrived);
    }
    assert_eq!(rt; hops(16, 3, 0).extend(&step()), None);
    assert_eq!(rt; Hops::<0>::start(4, 0).extend(&step()), None);
}

#[test]
fn more_legs_do_not_cover(rt: HostRuntime) {
    for (time, cost, legs, covers) in [
        (4, 7, 1, true),
        (4, 7, 2, true),
        (5, 8, 1, true),
        (4, 7, 0, false),
        (3, 9, 1, false),
    ] {
        assert_eq!(rt; hops(4, 7, 1).covers(&hops(time, cost, legs)), covers);
    }
}

#[test]
fn last_first(rt: HostRuntime) {
    let mut table = [0; 3];
    let mut agenda = LastIn::over(&mut table);
    for entry in [5, 3, 5] {
        assert_eq!(rt; agenda.put(entry, 1, 1), Ok(()));
    }
    assert_eq!(rt; agenda.put(1, 0, 0), Err(AgendaFault::Full));
    assert_eq!(rt; agenda.take(), Some(5));
    assert_eq!(rt; agenda.put(9, 0, 0), Ok(()));
    for entry in [9, 3, 5] {
        assert_eq!(rt; agenda.take(), Some(entry));
    }
    assert_eq!(rt; agenda.take(), None);
    assert_eq!(rt; (agenda.waiting(), agenda.capacity()), (0, 3));
}

#[test]
fn no_room(rt: HostRuntime) {
    let mut none: [u16; 0] = [];
    let mut agenda = LastIn::over(&mut none);
    assert_eq!(rt; agenda.capacity(), 0);
    assert_eq!(rt; agenda.put(1, 0, 0), Err(AgendaFault::Full));
    assert_eq!(rt; agenda.take(), None);
}
