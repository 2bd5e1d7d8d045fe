//! The header of an image.
ghost use Rattle.std.specs.Prelude.{◌≡◌, ◌++◌};
ghost use Rattle.blocks.specs.Blocks.{finished, start_bytes};
ghost use Rattle.image_format.specs.Layout.{header_in};
ghost use Rattle.image_format.specs.Encode.{header_bytes};

use crate::BlockKind;
use blocks::block::{Block, finish, start};
use blocks::bytes::{le16, le32, put16, put32};

/// How many nodes and legs an image has, and which nodes are depot and sink.
#[derive(Clone, Copy, PartialEq, Eq, Debug)]
pub struct Header {
    pub nodes: u16,
    pub depot: u16,
    pub sink: u16,
    pub legs: u32,
}

impl Header {
    /// The header that a header block holds.
    pub fn stored_in(block: &Block) -> Header
        ensures { result ≡ header_in block.now }
    {
        Header {
            nodes: le16(block, 4),
            depot: le16(block, 6),
            sink: le16(block, 8),
            legs: le32(block, 10),
        }
    }

    /// Writes the header block.
    pub fn store_in(self, block: &mut Block)
        ensures { block.new ≡ finished (start_bytes 1 0 ++ header_bytes self) }
    {
        start(block, BlockKind::Header as u8, 0);
        put16(block, 4, self.nodes);
        put16(block, 6, self.depot);
        put16(block, 8, self.sink);
        put32(block, 10, self.legs);
        finish(block, 14);
    }
}
