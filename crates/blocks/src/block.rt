//! The frame of a block: judged, and written.
ghost use Rattle.std.specs.Prelude.{◌≡◌, ℕ, ◌+◌, ◌*◌, ◌≤◌, length, take};
ghost use Rattle.std.specs.Result.{result_err};
ghost use Rattle.blocks.specs.Blocks.{block_of, frame_fault, unused_fault, finished, start_bytes};

use crate::bytes::{le16, put16};
use crate::check::Check;
use network::fault::{FileFault, FilePart};

/// How many bytes a block has.
pub const BLOCK_LEN: usize = 512;

/// Where the check of a block stands: its last four bytes.
pub const CHECK_AT: usize = 508;

/// The bytes of a block.
pub type Block = [u8; BLOCK_LEN];

/// Block `b` of an image.
pub fn block_of(image: &[u8], b: usize) -> &Block
    requires { 512 * b + 512 ≤ length image.now }
    ensures { result.now ≡ block_of image.now b }
{
    // the end too, so that the length is known and not tested again
    image[BLOCK_LEN * b..BLOCK_LEN * b + BLOCK_LEN]
        .first_chunk()
        .unwrap()
}

/// Judges check, kind, zero byte and number of a block.
pub fn frame(block: &Block, kind: u8, number: u16) -> Result<(), FileFault>
    ensures { result_err result ≡ frame_fault block.now kind number }
{
    if Check::stored_in(block) != Check::of(block) {
        return Err(FilePart::Check.at(number, CHECK_AT as u16));
    }
    if block[0] != kind {
        return Err(FilePart::Frame.at(number, 0));
    }
    if block[1] != 0 {
        return Err(FilePart::Frame.at(number, 1));
    }
    if le16(block, 2) != number {
        return Err(FilePart::Frame.at(number, 2));
    }
    Ok(())
}

/// Judges the unused bytes of a block, from `from` up to the check.
pub fn unused(block: &Block, from: usize, part: FilePart, number: u16) -> Result<(), FileFault>
    requires { from ≤ 508 }
    ensures { result_err result ≡ unused_fault block.now from part number }
{
    for (k, byte) in block[from..CHECK_AT].iter().enumerate() {
        if *byte != 0 {
            return Err(part.at(number, (from + k) as u16));
        }
    }
    Ok(())
}

/// Begins a block: its kind and its number.
pub fn start(block: &mut Block, kind: u8, number: u16)
    ensures { take 4 block.new ≡ start_bytes kind number }
{
    block[0] = kind;
    block[1] = 0;
    put16(block, 2, number);
}

/// Ends a block whose first `used` bytes are written.
pub fn finish(block: &mut Block, used: usize)
    requires { used ≤ 508 }
    ensures { block.new ≡ finished (take used block.old) }
{
    block[used..CHECK_AT].fill(0);
    Check::of(block).store_in(block);
}
