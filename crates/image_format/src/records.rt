//! The records of nodes and legs.
ghost use Rattle.std.specs.Prelude.{◌≡◌, length};
ghost use Rattle.image_format.specs.Decode.{node_in_record, leg_in_record};
ghost use Rattle.image_format.specs.Encode.{node_bytes, leg_bytes};

use blocks::bytes::{le16, le32, put_signed32, put16, put32, signed32};
use blocks::table::WIDTH;
use network::leg::{Leg, Window};

/// The bytes of a record.
pub type Record = [u8; WIDTH];

/// A node: its opening hours, and where its row begins among the legs.
#[derive(Clone, Copy, PartialEq, Eq, Debug)]
pub struct NodeRecord {
    pub window: Window,
    pub first_leg: u32,
}

impl NodeRecord {
    /// The node that a record holds.
    pub fn stored_in(bytes: &[u8]) -> NodeRecord
        requires { length bytes.now ≡ 12 }
        ensures { result ≡ node_in_record bytes.now }
    {
        NodeRecord {
            window: Window {
                opens: le32(bytes, 0),
                closes: le32(bytes, 4),
            },
            first_leg: le32(bytes, 8),
        }
    }

    /// The record of the node.
    pub fn bytes(self) -> Record
        ensures { result ≡ node_bytes self.window.opens self.window.closes self.first_leg }
    {
        let mut record = [0; WIDTH];
        put32(&mut record, 0, self.window.opens);
        put32(&mut record, 4, self.window.closes);
        put32(&mut record, 8, self.first_leg);
        record
    }
}

/// The leg that a record holds.
pub fn leg_in(bytes: &[u8]) -> Leg
    requires { length bytes.now ≡ 12 }
    ensures { result ≡ leg_in_record bytes.now }
{
    Leg {
        head: le16(bytes, 0),
        duration: le32(bytes, 4),
        cost: signed32(bytes, 8),
    }
}

/// The record of a leg.
pub fn leg_bytes(leg: Leg) -> Record
    ensures { result ≡ leg_bytes leg }
{
    let mut record = [0; WIDTH];
    put16(&mut record, 0, leg.head);
    put32(&mut record, 4, leg.duration);
    put_signed32(&mut record, 8, leg.cost);
    record
}
