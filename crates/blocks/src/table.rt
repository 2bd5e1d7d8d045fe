//! Tables of records in blocks, for records of any width.
ghost use Rattle.std.specs.Prelude.{◌≡◌, ℕ, ◌+◌, ◌*◌, ◌/◌, ◌%◌, ◌<◌, ◌≤◌, length};
ghost use Rattle.blocks.specs.Tables.{TablesStand, blocks_for, in_block, record_of, record_at};

use crate::block::{Block, block_of};

/// How many records a block holds.
pub const PER_BLOCK: usize = 42;

/// How many bytes a record takes.
pub const WIDTH: usize = 12;

/// Where the records of a block begin: after its kind, zero byte and number.
const RECORDS_AT: usize = 4;

/// How many blocks `n` records take.
pub fn blocks_for(n: usize) -> usize
    ensures { result ≡ blocks_for 42 n }
{
    n.div_ceil(PER_BLOCK)
}

/// How many of `n` records stand in block `k` of their table.
pub fn in_block(n: usize, k: usize) -> usize
    requires { 42 * k ≤ n }
    ensures { result ≡ in_block 42 n k }
{
    (n - PER_BLOCK * k).min(PER_BLOCK)
}

/// Where record `r` of a block of records of `width` bytes begins.
pub fn record_start(width: usize, r: usize) -> usize
    requires { 4 + width * r ≤ 512 }
    ensures { result ≡ 4 + width * r }
{
    RECORDS_AT + width * r
}

/// Record `r` of a block of records of `width` bytes.
#[tactic(auto, unfolding(crate::specs::Tables::record_of))]
pub fn record_of(block: &Block, width: usize, r: usize) -> &[u8]
    requires { 4 + width * r + width ≤ 512 }
    ensures value { result.now ≡ record_of width block.now r }
    ensures len { length result.now ≡ width }
{
    let at = record_start(width, r);
    &block[at..at + width]
}

/// Record `i` of a table whose first block has the number `base`, with `per` records of `width` bytes to a block.
#[tactic(auto, unfolding(crate::specs::Tables::record_at))]
pub fn record_at(image: &[u8], width: usize, per: usize, base: usize, i: usize) -> &[u8]
    requires some { 0 < per }
    requires block { 512 * (base + i / per) + 512 ≤ length image.now }
    requires room { 4 + width * (i % per) + width ≤ 512 }
    ensures value { result.now ≡ record_at width per base image.now i }
    ensures len { length result.now ≡ width }
{
    record_of(block_of(image, base + i / per), width, i % per)
}

/// A table that is written is read again, and one that is read is written again.
#[tactic(auto, using(crate::proofs::Chunked::kept, crate::proofs::Chunked::chunks12))]
pub fn tables_stand()
    ensures { TablesStand }
{}
