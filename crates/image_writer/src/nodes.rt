//! The records of the nodes.
ghost use Rattle.std.specs.Prelude.{◌≡◌, ◌-◌};
ghost use Rattle.std.specs.Iterator.{YieldsFirst, at_most};
ghost use Rattle.image_format.specs.Encode.{first_of_node};
ghost use Rattle.image_writer.specs.Write.{node_records_from};

use image_format::records::{NodeRecord, Record};
use network::network::Network;

/// The records of a network's nodes from node `node` on, whose first leg is leg `first` of all.
#[derive(Drop)]
pub(crate) struct NodeRecords<'a, N: Network> {
    net: &'a N,
    node: u16,
    first: u32,
    ghost first_leg: { first ≡ first_of_node (N.Network.meaning net.now) node },
}

impl<'a, N: Network> NodeRecords<'a, N> {
    /// From the first node on.
    pub fn of(net: &'a N) -> Self
        ensures net { result.net.now ≡ net.now }
        ensures node { result.node ≡ 0 }
    {
        NodeRecords {
            net,
            node: 0,
            first: 0,
        }
    }
}

impl<N: Network> Iterator for NodeRecords<'_, N> {
    type Item = Record;

    ghost next_gives = { YieldsFirst (λ s. node_records_from (N.Network.meaning s.net.now) s.node) };

    ghost remaining = { λ s. at_most ((N.Network.meaning s.net.now).n - s.node) };

    fn next(&mut self) -> Option<Record> {
        let window = self.net.window(self.node).ok()?;
        let node = NodeRecord {
            window,
            first_leg: self.first,
        };
        self.first += u32::from(self.net.row_len(self.node).unwrap_or(0));
        self.node += 1;
        Some(node.bytes())
    }
}
