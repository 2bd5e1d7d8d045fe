//! What the four stops answer.
use crate::{four_nodes, leg, refused, six_legs, source_over};
use network::fault::{FilePart, NetworkFault};
use network::leg::Window;
use network::network::Network;
use std::test::Fail;
use tables::source::TableSource;

/// The number of nodes, the depot, the sink and the reach.
fn numbers<N: Network>(net: &N) -> (u16, u16, u16, u32) {
    (net.node_count(), net.depot(), net.sink(), net.reach())
}

#[test]
fn windows_of_four_stops(rt: HostRuntime) -> Result<(), Fail> {
    let (nodes, legs) = (four_nodes(), six_legs());
    let source = source_over(&nodes, &legs, 0, 3)?;
    assert_eq!(rt; numbers(&source), (4, 0, 3, 4));
    for (i, opens, closes, len) in [(0, 0, 0, 2), (1, 2, 5, 2), (2, 1, 9, 2), (3, 4, 10, 0)] {
        assert_eq!(rt; source.window(i)?, Window { opens, closes });
        assert_eq!(rt; source.row_len(i)?, len);
    }
    assert_eq!(rt; source.window(4), Err(NetworkFault::NoNode { node: 4 }));
    assert_eq!(rt; source.row_len(4), Err(NetworkFault::NoNode { node: 4 }));
    Ok(())
}

#[test]
fn legs_of_four_stops(rt: HostRuntime) -> Result<(), Fail> {
    let (nodes, legs) = (four_nodes(), six_legs());
    let source = source_over(&nodes, &legs, 0, 3)?;
    for (i, k, answer) in [
        (0, 0, Ok(leg(1, 2, 4))),
        (0, 1, Ok(leg(2, 3, 1))),
        (0, 2, Err(NetworkFault::NoLeg { node: 0 })),
        (1, 0, Ok(leg(3, 2, -3))),
        (1, 1, Ok(leg(2, 1, -2))),
        (2, 0, Ok(leg(1, 1, -2))),
        (2, 1, Ok(leg(3, 4, 2))),
        (3, 0, Err(NetworkFault::NoLeg { node: 3 })),
        (4, 0, Err(NetworkFault::NoNode { node: 4 })),
        (65_535, 9, Err(NetworkFault::NoNode { node: 65_535 })),
    ] {
        assert_eq!(rt; source.leg(i, k), answer);
    }
    Ok(())
}

#[test]
fn the_built_in_source(rt: HostRuntime) -> Result<(), Fail> {
    let source = TableSource::built_in();
    assert_eq!(rt; numbers(&source), (1, 0, 0, 0));
    assert_eq!(rt;
        source.window(0)?,
        Window {
            opens: 0,
            closes: 1_000_000,
        }
    );
    assert_eq!(rt; source.row_len(0)?, 0);
    assert_eq!(rt; source.window(1), Err(NetworkFault::NoNode { node: 1 }));
    Ok(())
}

#[test]
fn a_refusal_changes_nothing(rt: HostRuntime) -> Result<(), Fail> {
    let (nodes, legs) = (four_nodes(), six_legs());
    let wrong = [leg(4, 1, 0)];
    let mut source = source_over(&nodes, &legs, 0, 3)?;
    assert_eq!(rt;
        source.open(&nodes, &wrong, 1, 2),
        refused(FilePart::NodeTable, 1)
    );
    assert_eq!(rt; numbers(&source), (4, 0, 3, 4));
    assert_eq!(rt; source.leg(1, 0)?, leg(3, 2, -3));
    Ok(())
}
