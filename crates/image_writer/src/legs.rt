//! The records of the legs.
ghost use Rattle.std.specs.Prelude.{◌≡◌, ◌≤◌, length};
ghost use Rattle.std.specs.Iterator.{YieldsFirst, item_count};
ghost use Rattle.network.specs.Meaning.{legs_at};
ghost use Rattle.image_writer.specs.Write.{leg_records_from};

use image_format::records::{Record, leg_bytes};
use network::network::Network;

/// The records of a network's legs, row by row, from leg `leg` of node `node` on.
// Not a `flat_map` over the rows: it holds a closure, and then `Table::put` gets no value for its `ghost f`.
#[derive(Drop)]
pub(crate) struct LegRecords<'a, N: Network> {
    net: &'a N,
    node: u16,
    leg: u16,
    ghost in_row: { leg ≤ length (legs_at (N.Network.meaning net.now) node) },
}

impl<'a, N: Network> LegRecords<'a, N> {
    /// From the first node on.
    pub fn of(net: &'a N) -> Self
        ensures net { result.net.now ≡ net.now }
        ensures node { result.node ≡ 0 }
        ensures leg { result.leg ≡ 0 }
    {
        LegRecords {
            net,
            node: 0,
            leg: 0,
        }
    }
}

impl<N: Network> Iterator for LegRecords<'_, N> {
    type Item = Record;

    ghost next_gives = { YieldsFirst (λ s. leg_records_from (N.Network.meaning s.net.now) s.node s.leg) };

    ghost remaining = { item_count (λ s. leg_records_from (N.Network.meaning s.net.now) s.node s.leg) };

    fn next(&mut self) -> Option<Record> {
        while self.node < self.net.node_count() {
            if let Ok(leg) = self.net.leg(self.node, self.leg) {
                self.leg += 1;
                return Some(leg_bytes(leg));
            }
            self.node += 1;
            self.leg = 0;
        }
        None
    }
}
