//! A ring of three stops, and the limits of rings.
use crate::Ring;
use network::fault::NetworkFault;
use network::leg::{Leg, Window};
use network::network::Network;
use std::test::Fail;

#[test]
fn three_stops(rt: HostRuntime) -> Result<(), Fail> {
    let ring = Ring::new(3, 7, -2).ok_or_else(|| Fail::new("no ring"))?;
    assert_eq!(rt;
        (ring.node_count(), ring.depot(), ring.sink(), ring.reach()),
        (3, 0, 0, 2)
    );
    for (i, head) in [(0, 1), (1, 2), (2, 0)] {
        assert_eq!(rt;
            ring.window(i)?,
            Window {
                opens: 0,
                closes: 1_000_000,
            }
        );
        assert_eq!(rt; ring.row_len(i)?, 1);
        assert_eq!(rt;
            ring.leg(i, 0)?,
            Leg {
                head,
                duration: 7,
                cost: -2,
            }
        );
    }
    assert_eq!(rt; ring.leg(2, 1), Err(NetworkFault::NoLeg { node: 2 }));
    assert_eq!(rt; ring.leg(3, 1), Err(NetworkFault::NoNode { node: 3 }));
    Ok(())
}

#[test]
fn limits(rt: HostRuntime) {
    for (stops, minutes, cost, within) in [
        (1, 1, 1_000_000_000, true),
        (1_000, 1_000_000, -1_000_000_000, true),
        (0, 1, 0, false),
        (1_001, 1, 0, false),
        (1, 0, 0, false),
        (1, 1_000_001, 0, false),
        (1, 1, 1_000_000_001, false),
        (1, 1, -1_000_000_001, false),
    ] {
        assert_eq!(rt; Ring::new(stops, minutes, cost).is_some(), within);
    }
}
