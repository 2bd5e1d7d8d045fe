//! Tables of records, block by block.
ghost use Rattle.std.specs.Prelude.{◌≡◌, ℕ, ◌+◌, ◌*◌, ◌^◌, ◌<◌, ◌≤◌, List, length};
ghost use Rattle.blocks.specs.Over.{over};
ghost use Rattle.blocks.specs.Tables.{blocks_for, in_block, table_block, table_bytes};
ghost use Rattle.image_format.specs.Layout.{kind_number};
ghost use Rattle.image_writer.specs.Order.{GivesFrom};

use blocks::block::{BLOCK_LEN, Block, finish, start};
use blocks::table::{WIDTH, blocks_for, in_block, record_start};
use image_format::BlockKind;
use image_format::records::Record;

/// A table of an image: the kind of its blocks, the number of the first, and how many records there are.
#[derive(Drop)]
pub(crate) struct Table {
    pub kind: BlockKind,
    pub base: usize,
    pub records: usize,
    ghost numbered: { base + blocks_for 42 records < 2 ^ 16 },
}

impl Table {
    /// Block `k`, which holds the next records.
    fn block<I: Iterator<Item = Record>>(&self, k: usize, records: &mut I) -> Block
        ghost f: { ℕ → List ℕ }
        requires within { k < blocks_for 42 self.now.records }
        requires begins { GivesFrom I.can_next I.next_gives f self.now.records (42 * k) records.old }
        ensures next { GivesFrom I.can_next I.next_gives f self.now.records (42 * k + in_block 42 self.now.records k) records.new }
        ensures bytes { result ≡ table_block 42 (kind_number self.now.kind) self.now.base f self.now.records k }
    {
        let mut block = [0; BLOCK_LEN];
        start(&mut block, self.kind as u8, (self.base + k) as u16);
        let count = in_block(self.records, k);
        // By number, as what is written through `chunks_exact_mut` is not known afterwards; the blocks below likewise.
        for r in 0..count {
            let at = record_start(WIDTH, r);
            block[at..at + WIDTH].copy_from_slice(&records.next().unwrap());
        }
        finish(&mut block, record_start(WIDTH, count));
        block
    }

    /// Writes the table of these records.
    pub fn put<I: Iterator<Item = Record>>(&self, mut records: I, out: &mut [u8])
        ghost f: { ℕ → List ℕ }
        requires begins { GivesFrom I.can_next I.next_gives f self.now.records 0 records }
        requires room { 512 * (self.now.base + blocks_for 42 self.now.records) ≤ length out.old }
        ensures { out.new ≡ over out.old (512 * self.now.base) (table_bytes 42 (kind_number self.now.kind) self.now.base f self.now.records) }
    {
        for k in 0..blocks_for(self.records) {
            let at = BLOCK_LEN * (self.base + k);
            out[at..at + BLOCK_LEN].copy_from_slice(&self.block(k, &mut records));
        }
    }
}
