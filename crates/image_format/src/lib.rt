//! The image format: what an image means, how a network is encoded, and that the two are inverse to each other.
#![tactic(auto)]

ghost use Rattle.std.specs.Prelude.{◌≡◌, ◌+◌, ◌*◌};
ghost use Rattle.blocks.specs.Tables.{blocks_for};
ghost use Rattle.image_format.specs.Layout.{kind_part};
ghost use Rattle.image_format.specs.Judge.{block_count};
ghost use Rattle.image_format.specs.RoundTrip.{WrittenIsRead, ReadIsWritten};

use blocks::block::BLOCK_LEN;
use blocks::table::blocks_for;
use network::fault::FilePart;

pub mod header;
pub mod records;

/// The kinds of blocks, and the numbers that stand for them in a block.
#[derive(Clone, Copy, PartialEq, Eq, Debug)]
pub enum BlockKind {
    Header = 1,
    Nodes = 2,
    Legs = 3,
}

impl BlockKind {
    /// The part of the file that blocks of the kind hold.
    pub fn part(self) -> FilePart
        ensures { result ≡ kind_part self }
    {
        match self {
            BlockKind::Header => FilePart::Header,
            BlockKind::Nodes => FilePart::NodeTable,
            BlockKind::Legs => FilePart::LegTable,
        }
    }
}

/// The largest size of a cost in an image.
pub const MAX_COST: u32 = 10_000_000;

/// The number of the first leg block of an image of `n` nodes: the header block and the node blocks come before it.
pub fn leg_base(n: u16) -> usize
    ensures { result ≡ 1 + blocks_for 42 n }
{
    1 + blocks_for(n as usize)
}

/// How many bytes an image of `n` nodes and `m` legs has.
pub fn image_len(n: u16, m: u32) -> usize
    ensures { result ≡ 512 * block_count n m }
{
    BLOCK_LEN * (leg_base(n) + blocks_for(m as usize))
}

/// The image of a lawful network that an image can hold opens, and means the same network.
pub fn written_is_read()
    ensures { WrittenIsRead }
{}

/// An image that opens, and whose rows can all be read, is the image of its network.
#[tactic(auto, using(crate::proofs::Again::read_is_written_lem))]
pub fn read_is_written()
    ensures { ReadIsWritten }
{}
