//! Labels by example.
use crate::label::{Label, in_bounds};
use crate::node_set::NodeSet;
use crate::once::Once;
use crate::plain::Plain;
use crate::step::Step;

/// A step of duration 5 and cost -2 to a node that is open from 10 to 20.
fn to(head: u16) -> Step {
    Step {
        duration: 5,
        cost: -2,
        head,
        opens: 10,
        closes: 20,
    }
}

fn plain(time: u32, cost: i64) -> Plain {
    Plain { time, cost }
}

fn once(plain: Plain, visited: NodeSet) -> Once {
    Once { plain, visited }
}

#[test]
fn arrivals(rt: HostRuntime) {
    for (time, arrived) in [
        (4, Some(plain(10, 1))),
        (5, Some(plain(10, 1))),
        (6, Some(plain(11, 1))),
        (15, Some(plain(20, 1))),
        (16, None),
    ] {
        assert_eq!(rt; plain(time, 3).extend(&to(1)), arrived);
    }
    assert_eq!(rt; Plain::start(7, 3), plain(7, 0));
}

#[test]
fn limits(rt: HostRuntime) {
    let last = Step {
        duration: 1,
        cost: -1_000_000_000,
        head: 999,
        opens: 0,
        closes: 1_000_000,
    };
    assert_eq!(rt;
        plain(999_999, -999_999_000_000_000).extend(&last),
        Some(plain(1_000_000, -1_000_000_000_000_000))
    );
    assert_eq!(rt; plain(1_000_000, 0).extend(&last), None);
    let far = Step {
        duration: 4_294_967_295,
        closes: 4_294_967_295,
        ..last
    };
    assert_eq!(rt;
        plain(0, 0).extend(&far),
        Some(plain(4_294_967_295, -1_000_000_000))
    );
    assert_eq!(rt; plain(1, 0).extend(&far), None);
}

#[test]
fn beyond_the_bounds(rt: HostRuntime) {
    let wide = Step {
        closes: 2_000_000,
        ..to(64)
    };
    for (time, cost, goes) in [
        (1_000_000, 1_000_000_000_000_000, true),
        (1_000_001, 0, false),
        (0, 0, true),
        (0, 1, false),
        (3, 3_000_000_000, true),
        (3, 3_000_000_001, false),
        (3, -3_000_000_000, true),
        (3, -3_000_000_001, false),
        (3, -9_223_372_036_854_775_808, false),
    ] {
        let x = plain(time, cost);
        assert_eq!(rt; in_bounds(time, cost), goes);
        assert_eq!(rt; x.extend(&wide).is_some(), goes);
        assert_eq!(rt; once(x, NodeSet::empty()).extend(&wide).is_some(), goes);
    }
}

#[test]
fn coverings(rt: HostRuntime) {
    let x = plain(4, 7);
    for (y, covers) in [
        (plain(4, 7), true),
        (plain(5, 7), true),
        (plain(4, 8), true),
        (plain(3, 9), false),
        (plain(9, 6), false),
    ] {
        assert_eq!(rt; x.covers(&y), covers);
    }
    let small = NodeSet::empty().with(63);
    let large = small.with(0);
    assert!(rt; once(x, small).covers(&once(x, large)));
    assert!(rt; once(x, small).covers(&once(x, small)));
    assert!(rt; !once(x, large).covers(&once(x, small)));
    assert!(rt; !once(x, NodeSet::empty().with(1)).covers(&once(x, large)));
}

#[test]
fn visits(rt: HostRuntime) {
    for (depot, back) in [(0, false), (63, false), (64, true), (65_535, true)] {
        let start = Once::start(15, depot);
        assert_eq!(rt; start.extend(&to(depot)).is_some(), back);
        assert_eq!(rt; start.visited.has(depot), !back);
    }
    let start = Once::start(0, 64);
    let there = start.extend(&to(63)).expect(&rt, "node 63 was not visited");
    assert_eq!(rt;
        (there.time(), there.cost(), there.visited),
        (10, -2, NodeSet::empty().with(63))
    );
    assert_eq!(rt; there.extend(&to(63)), None);
    assert!(rt; there.extend(&to(62)).is_some());
}
