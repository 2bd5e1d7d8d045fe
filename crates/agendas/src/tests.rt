//! Agendas by example.
use crate::agenda::Agenda;
use crate::fault::AgendaFault;
use crate::first_in::FirstIn;
use crate::time_first::TimeFirst;
use crate::timed::Timed;
use std::process::Abort;

fn unused() -> Timed {
    Timed {
        time: 0,
        cost: 0,
        entry: 0,
    }
}

/// Puts each entry, all with the same time and cost.
fn put_all<A: Agenda>(rt: &impl Abort, agenda: &mut A, entries: &[u16]) {
    for entry in entries {
        assert_eq!(rt; agenda.put(*entry, 1, 1), Ok(()));
    }
}

/// Takes what waits: these entries, in this order.
fn take_all<A: Agenda>(rt: &impl Abort, agenda: &mut A, entries: &[u16]) {
    assert_eq!(rt; agenda.waiting(), entries.len());
    for entry in entries {
        assert_eq!(rt; agenda.take(), Some(*entry));
    }
    assert_eq!(rt; agenda.take(), None);
    assert_eq!(rt; agenda.waiting(), 0);
}

#[test]
fn oldest_first(rt: HostRuntime) {
    let mut table = [0; 3];
    let mut agenda = FirstIn::over(&mut table);
    put_all(&rt, &mut agenda, &[5, 3, 5]);
    assert_eq!(rt; agenda.put(1, 0, 0), Err(AgendaFault::Full));
    assert_eq!(rt; AgendaFault::Full.number(), 12);
    assert_eq!(rt; agenda.take(), Some(5));
    assert_eq!(rt; agenda.take(), Some(3));
    put_all(&rt, &mut agenda, &[9, 4]);
    assert_eq!(rt; agenda.put(1, 0, 0), Err(AgendaFault::Full));
    take_all(&rt, &mut agenda, &[5, 9, 4]);
    put_all(&rt, &mut agenda, &[65_535, 0, 0]);
    take_all(&rt, &mut agenda, &[65_535, 0, 0]);
}

#[test]
fn soonest_first(rt: HostRuntime) {
    let mut table = [unused(); 8];
    let mut agenda = TimeFirst::over(&mut table);
    for (entry, time, cost) in [
        (1, 7, 0),
        (2, 3, 5),
        (9, 3, -5),
        (4, 4_294_967_295, -9_223_372_036_854_775_808),
        (3, 3, 5),
        (6, 0, 9_223_372_036_854_775_807),
        (2, 3, 5),
        (8, 7, -1),
    ] {
        assert_eq!(rt; agenda.put(entry, time, cost), Ok(()));
    }
    assert_eq!(rt; agenda.put(0, 0, 0), Err(AgendaFault::Full));
    take_all(&rt, &mut agenda, &[6, 9, 2, 2, 3, 8, 1, 4]);
    put_all(&rt, &mut agenda, &[4, 2, 8, 6, 1, 7, 5, 3]);
    assert_eq!(rt; agenda.put(0, 0, 0), Err(AgendaFault::Full));
    take_all(&rt, &mut agenda, &[1, 2, 3, 4, 5, 6, 7, 8]);
}

/// An agenda with no room takes nothing.
fn holds_none<A: Agenda>(rt: &impl Abort, agenda: &mut A) {
    assert_eq!(rt; agenda.capacity(), 0);
    assert_eq!(rt; agenda.put(1, 0, 0), Err(AgendaFault::Full));
    take_all(rt, agenda, &[]);
}

/// An agenda with room for one takes one again and again.
fn holds_one<A: Agenda>(rt: &impl Abort, agenda: &mut A) {
    assert_eq!(rt; agenda.capacity(), 1);
    for i in 0..3u16 {
        put_all(rt, agenda, &[i]);
        assert_eq!(rt; agenda.put(9, 0, 0), Err(AgendaFault::Full));
        take_all(rt, agenda, &[i]);
    }
}

#[test]
fn no_room_and_one(rt: HostRuntime) {
    holds_none(&rt, &mut FirstIn::over(&mut []));
    holds_none(&rt, &mut TimeFirst::over(&mut []));
    holds_one(&rt, &mut FirstIn::over(&mut [0]));
    holds_one(&rt, &mut TimeFirst::over(&mut [unused()]));
}
