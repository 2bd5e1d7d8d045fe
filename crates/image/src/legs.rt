//! Whether leg blocks are sound.
ghost use Rattle.std.specs.Prelude.{◌≡◌, ◌<◌};
ghost use Rattle.std.specs.Result.{result_err};
ghost use Rattle.blocks.specs.Tables.{blocks_for};
ghost use Rattle.image_format.specs.Judge.{leg_fault_in, leg_block_fault_at};
ghost use Rattle.image.specs.Marks.{Marked};

use crate::judge::judge_block;
use crate::layout::Layout;
use blocks::block::{Block, block_of};
use blocks::bytes::le16;
use blocks::table::{WIDTH, blocks_for, in_block, record_of, record_start};
use image_format::records::leg_in;
use image_format::{BlockKind, MAX_COST, leg_base};
use network::each::unless;
use network::fault::{FileFault, FilePart};
use network::limits::MAX_TIME;

/// The most leg blocks that an image has.
pub(crate) const MAX_LEG_BLOCKS: usize = 477;

impl Layout<'_> {
    /// Judges record `r` of the leg block with this number.
    #[tactic(auto, unfolding(image_format::specs::Judge::leg_fault))]
    fn judge_leg(&self, block: &Block, number: u16, r: usize) -> Result<(), FileFault>
        requires { r < 42 }
        ensures { result_err result ≡ leg_fault_in block.now self.now.nodes number r }
    {
        let record = record_of(block, WIDTH, r);
        let leg = leg_in(record);
        let part = FilePart::LegTable;
        let byte = record_start(WIDTH, r) as u16;
        unless(leg.head < self.nodes, part.at(number, byte))?;
        unless(le16(record, 2) == 0, part.at(number, byte + 2))?;
        unless(
            1 <= leg.duration && leg.duration <= MAX_TIME,
            part.at(number, byte + 4),
        )?;
        unless(
            leg.cost.unsigned_abs() <= MAX_COST,
            part.at(number, byte + 8),
        )
    }

    /// Judges leg block `k`, counted from 0.
    #[tactic(auto, unfolding(image_format::specs::Judge::leg_block_fault))]
    pub(crate) fn judge_leg_block(&self, k: usize) -> Result<(), FileFault>
        requires { k < blocks_for 42 self.now.legs }
        ensures { result_err result ≡ leg_block_fault_at self.now.image.now k }
    {
        let number = leg_base(self.nodes) + k;
        let block = block_of(self.image, number);
        let count = in_block(self.legs as usize, k);
        judge_block(block, BlockKind::Legs, number as u16, count, |r| {
            self.judge_leg(block, number as u16, r)
        })
    }

    /// Marks the leg blocks that are sound.
    // A loop that ends with the leg blocks: an array made by a closure would ask it at every place that there could be.
    pub(crate) fn sound_leg_blocks(&self) -> [bool; MAX_LEG_BLOCKS]
        ensures { Marked result self.now.image.now }
    {
        let mut marks = [false; MAX_LEG_BLOCKS];
        let blocks = blocks_for(self.legs as usize);
        for (k, mark) in marks.iter_mut().enumerate() {
            if k >= blocks {
                break;
            }
            *mark = self.judge_leg_block(k).is_ok();
        }
        marks
    }
}
