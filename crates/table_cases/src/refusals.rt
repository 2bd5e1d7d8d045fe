//! Tables that are refused, and those at the limits.
use crate::{four_nodes, leg, node, opened, refused, six_legs};
use network::fault::FilePart;

#[test]
fn depot_and_sink(rt: HostRuntime) {
    let (nodes, legs) = (four_nodes(), six_legs());
    for (depot, sink, answer) in [
        (3, 0, Ok(())),
        (4, 3, refused(FilePart::Header, 0)),
        (0, 4, refused(FilePart::Header, 0)),
    ] {
        assert_eq!(rt; opened(&nodes, &legs, depot, sink), answer);
    }
}

#[test]
fn how_many_nodes(rt: HostRuntime) {
    let nodes = [node(0, 9, 0); 1_001];
    for (n, answer) in [
        (0, refused(FilePart::Header, 0)),
        (1, Ok(())),
        (1_000, Ok(())),
        (1_001, refused(FilePart::Header, 0)),
    ] {
        assert_eq!(rt; opened(&nodes[..n], &[], 0, 0), answer);
    }
}

#[test]
fn how_many_legs(rt: HostRuntime) {
    let nodes = [node(0, 9, 0)];
    let legs = [leg(0, 1, 0); 20_001];
    assert_eq!(rt; opened(&nodes, &legs[..20_000], 0, 0), Ok(()));
    assert_eq!(rt; opened(&nodes, &legs, 0, 0), refused(FilePart::Header, 0));
}

#[test]
fn wrong_nodes(rt: HostRuntime) {
    let legs = six_legs();
    for (at, record, answer) in [
        (0, node(0, 0, 1), refused(FilePart::NodeTable, 0)),
        (1, node(5, 5, 2), Ok(())),
        (1, node(6, 5, 2), refused(FilePart::NodeTable, 1)),
        (2, node(1_000_000, 1_000_000, 4), Ok(())),
        (2, node(0, 1_000_001, 4), refused(FilePart::NodeTable, 2)),
        (2, node(1, 9, 2), Ok(())),
        (2, node(1, 9, 1), refused(FilePart::NodeTable, 2)),
        (3, node(4, 10, 6), Ok(())),
        (3, node(4, 10, 7), refused(FilePart::NodeTable, 3)),
    ] {
        let mut nodes = four_nodes();
        nodes[at] = record;
        assert_eq!(rt; opened(&nodes, &legs, 0, 3), answer);
    }
}

#[test]
fn wrong_legs(rt: HostRuntime) {
    let nodes = four_nodes();
    for (at, record, answer) in [
        (0, leg(3, 1, 1_000_000_000), Ok(())),
        (0, leg(4, 1, 0), refused(FilePart::LegTable, 0)),
        (1, leg(0, 0, 0), refused(FilePart::LegTable, 1)),
        (2, leg(0, 1_000_000, -1_000_000_000), Ok(())),
        (2, leg(0, 1_000_001, 0), refused(FilePart::LegTable, 2)),
        (3, leg(0, 1, 1_000_000_001), refused(FilePart::LegTable, 3)),
        (4, leg(0, 1, -1_000_000_001), refused(FilePart::LegTable, 4)),
        (5, leg(0, 1, -2_147_483_648), refused(FilePart::LegTable, 5)),
    ] {
        let mut legs = six_legs();
        legs[at] = record;
        assert_eq!(rt; opened(&nodes, &legs, 0, 3), answer);
    }
}

#[test]
fn the_first_fault(rt: HostRuntime) {
    let (mut nodes, mut legs) = (four_nodes(), six_legs());
    legs[0] = leg(4, 2, 4);
    legs[3] = leg(4, 2, 4);
    assert_eq!(rt; opened(&nodes, &legs, 0, 3), refused(FilePart::LegTable, 0));
    nodes[2] = node(4, 3, 4);
    nodes[3] = node(4, 3, 6);
    assert_eq!(rt;
        opened(&nodes, &legs, 0, 3),
        refused(FilePart::NodeTable, 2)
    );
    assert_eq!(rt; opened(&nodes, &legs, 4, 3), refused(FilePart::Header, 0));
}
