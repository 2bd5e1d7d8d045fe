//! Writes any network as an image.
ghost use Rattle.std.specs.Prelude.{◌≡◌, ℕ, ◌≤◌, length, take, is_ok, IfOk};
ghost use Rattle.blocks.specs.Over.{over};
ghost use Rattle.image_format.specs.Encode.{header_of, encoded, encoded_size};
ghost use Rattle.image_writer.specs.Promise.{CopyOf, WrittenWhen};
ghost use Rattle.image_writer.specs.Write.{told_write, write_answer, written};

use crate::check::{check_costs, count_legs};
use crate::fault::WriteFault;
use crate::legs::LegRecords;
use crate::nodes::NodeRecords;
use crate::table::Table;
use image_format::header::Header;
use image_format::{BlockKind, image_len, leg_base};
use network::network::Network;

/// Writes the image of a network with this header.
fn put_image<N: Network>(net: &N, header: Header, out: &mut [u8])
    requires header { header ≡ header_of (N.meaning net.now) }
    requires room { encoded_size (N.meaning net.now) ≤ length out.old }
    ensures { out.new ≡ over out.old 0 (encoded (N.meaning net.now)) }
{
    let nodes = Table {
        kind: BlockKind::Nodes,
        base: 1,
        records: header.nodes as usize,
    };
    let legs = Table {
        kind: BlockKind::Legs,
        base: leg_base(header.nodes),
        records: header.legs as usize,
    };
    header.store_in(out.first_chunk_mut().unwrap());
    nodes.put(NodeRecords::of(net), out);
    legs.put(LegRecords::of(net), out);
}

/// Writes the image of a network and answers how many bytes it takes. The bytes beyond it stay, and a refusal changes
/// none. What is written opens, and reads back the same network.
pub fn write<N: Network>(net: &N, out: &mut [u8]) -> Result<usize, WriteFault>
    ensures answer { told_write result ≡ write_answer (N.meaning net.now) out.old }
    ensures bytes { out.new ≡ written (N.meaning net.now) out.old }
    ensures copy { IfOk result (λ k. CopyOf (N.meaning net.now) (take k out.new)) }
    ensures when { WrittenWhen (N.meaning net.now) (length out.old) (is_ok result) }
{
    let header = Header {
        nodes: net.node_count(),
        depot: net.depot(),
        sink: net.sink(),
        legs: count_legs(net)?,
    };
    check_costs(net)?;
    let size = image_len(header.nodes, header.legs);
    if out.len() < size {
        return Err(WriteFault::NoRoom);
    }
    put_image(net, header, out);
    Ok(size)
}
