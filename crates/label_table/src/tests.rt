//! Considering by example.
use crate::fault::{Cause, RunFault};
use crate::row::Row;
use crate::table::{Departure, LabelTable};
use agendas::agenda::Agenda;
use agendas::first_in::FirstIn;
use labels::label::Label;
use labels::plain::Plain;
use network::fault::{NetworkFault, met_at};
use network::leg::Leg;
use network::network::Network;
use paths::stop::NO_LEG_TAKEN;
use std::test::Fail;
use tables::record::NodeRecord;
use tables::source::TableSource;

/// A node that is open from 0 to 100.
fn node(first_leg: u32) -> NodeRecord {
    NodeRecord {
        opens: 0,
        closes: 100,
        first_leg,
    }
}

/// A leg to node 1.
fn leg(duration: u32, cost: i32) -> Leg {
    Leg {
        head: 1,
        duration,
        cost,
    }
}

/// A row that entry 0 came to by a leg.
fn row(leg: u16, time: u32, cost: i64, stands: bool) -> Row<Plain> {
    Row {
        node: 1,
        parent: 0,
        leg,
        label: Plain { time, cost },
        stands,
        treated: false,
    }
}

/// The row of entry 0, which stands at node 0.
fn start() -> Row<Plain> {
    Row {
        node: 0,
        ..row(NO_LEG_TAKEN, 0, 0, true)
    }
}

/// Considers all legs of a node.
fn consider_all<N: Network, L: Label, A: Agenda>(
    net: &N,
    agenda: &mut A,
    table: &mut LabelTable<L>,
    from: &Departure<L>,
) -> Result<(), RunFault> {
    let end = met_at(net.row_len(from.node), from.entry)?;
    table.consider(net, agenda, from, 0..end)
}

/// What comes of all legs of a node, where node 0 has five, node 1 none, and there is no other: how many are entered, and
/// the answer.
fn considered(
    rows: &mut [Row<Plain>],
    waiting: &mut [u16],
    at: u16,
) -> Result<(u16, Result<(), RunFault>), Fail> {
    let nodes = [node(0), node(5)];
    let legs = [leg(5, 5), leg(3, 1), leg(4, 4), leg(101, 0), leg(2, 9)];
    let mut source = TableSource::built_in();
    source.open(&nodes, &legs, 0, 1)?;
    let mut agenda = FirstIn::over(waiting);
    if rows.is_empty() || rows.len() > 65_535 {
        return Err(Fail::new("no such table"));
    }
    let mut table = LabelTable { rows, entered: 1 };
    let from = Departure {
        entry: 0,
        node: at,
        label: Plain { time: 0, cost: 0 },
    };
    let answer = consider_all(&source, &mut agenda, &mut table, &from);
    Ok((table.entered, answer))
}

/// The second label beats the first, the third is covered, and the fourth leg leads outside.
#[test]
fn five_legs(rt: HostRuntime) -> Result<(), Fail> {
    let mut rows = [start(); 5];
    let mut waiting = [0; 3];
    assert_eq!(rt; considered(&mut rows, &mut waiting, 0)?, (4, Ok(())));
    assert_eq!(rt;
        rows,
        [
            start(),
            row(0, 5, 5, false),
            row(1, 3, 1, true),
            row(4, 2, 9, true),
            start(),
        ]
    );
    assert_eq!(rt; waiting, [1, 2, 3]);
    Ok(())
}

#[test]
fn no_place(rt: HostRuntime) -> Result<(), Fail> {
    for (places, room, entered, cause, number) in [
        (1, 0, 1, Cause::TableFull, 17),
        (2, 3, 2, Cause::TableFull, 17),
        (3, 3, 3, Cause::TableFull, 17),
        (4, 0, 1, Cause::AgendaFull, 12),
        (4, 1, 2, Cause::AgendaFull, 12),
        (4, 2, 3, Cause::AgendaFull, 12),
    ] {
        let mut rows = [start(); 4];
        let mut waiting = [0; 3];
        let told = considered(&mut rows[..places], &mut waiting[..room], 0)?;
        assert_eq!(rt; told, (entered, Err(cause.at(0))));
        assert_eq!(rt; cause.at(0).number(), number);
        assert_eq!(rt; rows[1].stands, entered < 3);
    }
    Ok(())
}

#[test]
fn no_legs(rt: HostRuntime) -> Result<(), Fail> {
    let mut rows = [start(); 2];
    let mut waiting = [0; 1];
    assert_eq!(rt; considered(&mut rows, &mut waiting, 1)?, (1, Ok(())));
    let fault = Cause::Network(NetworkFault::NoNode { node: 2 }).at(0);
    assert_eq!(rt; considered(&mut rows, &mut waiting, 2)?, (1, Err(fault)));
    assert_eq!(rt; fault.number(), 7);
    Ok(())
}
