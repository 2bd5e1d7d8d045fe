//! What opening an image judges: its length, its header and its node blocks.
ghost use Rattle.std.specs.Prelude.{◌≡◌, ℕ, ◌+◌, ◌*◌, ◌/◌, ◌<◌, ◌≤◌, length, IfOk, Option};
ghost use Rattle.std.specs.Result.{result_err};
ghost use Rattle.network.specs.First.{first_of};
ghost use Rattle.network.specs.declared.fault.FileFault.{FileFault};
ghost use Rattle.network.specs.Rows.{least_first};
ghost use Rattle.blocks.specs.Tables.{blocks_for, in_block};
ghost use Rattle.image_format.specs.Layout.{first_leg_of, header_in};
ghost use Rattle.image_format.specs.Judge.{judge as judgement, header_fault, node_fault_at, node_block_fault, table_block_fault};

use crate::layout::Layout;
use blocks::block::{BLOCK_LEN, Block, block_of, frame, unused};
use blocks::table::{PER_BLOCK, WIDTH, blocks_for, in_block, record_start};
use image_format::header::Header;
use image_format::{BlockKind, image_len};
use network::each::{check_each, unless};
use network::fault::{FileFault, FilePart};
use network::limits::{MAX_LEGS, MAX_NODES, MAX_TIME};
use network::rows::most_first;

/// Judges what a header block holds, and answers it.
fn judge_header(block: &Block) -> Result<Header, FileFault>
    ensures fault { result_err result ≡ header_fault block.now }
    ensures header { IfOk result (λ h. h ≡ header_in block.now) }
{
    let header = Header::stored_in(block);
    unless(
        1 <= header.nodes && header.nodes <= MAX_NODES,
        FilePart::Header.at(0, 4),
    )?;
    unless(header.depot < header.nodes, FilePart::Header.at(0, 6))?;
    unless(header.sink < header.nodes, FilePart::Header.at(0, 8))?;
    unless(header.legs <= MAX_LEGS, FilePart::Header.at(0, 10))?;
    unused(block, 14, FilePart::Header, 0)?;
    Ok(header)
}

/// Judges a block of a table: its frame, each of its records, and that nothing stands after them.
pub(crate) fn judge_block<F: Fn(usize) -> Result<(), FileFault>>(
    block: &Block,
    kind: BlockKind,
    number: u16,
    count: usize,
    judge_record: F,
) -> Result<(), FileFault>
    requires few { count ≤ 42 }
    requires callable { (r : ℕ) → r < count → F.pre judge_record r }
    ensures { (f : ℕ → Option FileFault) → ((r : ℕ) (x : _) → r < count → F.post judge_record r x → result_err x ≡ f r) → result_err result ≡ table_block_fault block.now kind number count f }
{
    frame(block, kind as u8, number)?;
    check_each(count, judge_record)?;
    unused(block, record_start(WIDTH, count), kind.part(), number)
}

impl Layout<'_> {
    /// The least that the first leg of node `i` may be.
    fn least_first(&self, i: usize) -> u32
        requires { i < self.now.nodes }
        ensures { result ≡ least_first (first_leg_of self.now.image.now) i }
    {
        if i == 0 {
            0
        } else {
            self.node(i - 1).first_leg
        }
    }

    /// Judges record `r` of node block `k`, counted from 0.
    #[tactic(auto, unfolding(image_format::specs::Judge::node_fault))]
    fn judge_node(&self, k: usize, r: usize) -> Result<(), FileFault>
        requires there { 42 * k + r < self.now.nodes }
        requires r_bound { r < 42 }
        ensures { result_err result ≡ node_fault_at self.now.image.now self.now.legs k r }
    {
        let i = PER_BLOCK * k + r;
        let node = self.node(i);
        let hours = node.window;
        let low = self.least_first(i);
        let high = most_first(self.legs, i);
        let part = FilePart::NodeTable;
        let block = (1 + k) as u16;
        let byte = record_start(WIDTH, r) as u16;
        unless(hours.opens <= MAX_TIME, part.at(block, byte))?;
        unless(
            hours.opens <= hours.closes && hours.closes <= MAX_TIME,
            part.at(block, byte + 4),
        )?;
        unless(
            low <= node.first_leg && node.first_leg <= high,
            part.at(block, byte + 8),
        )
    }

    /// Judges node block `k`, counted from 0.
    #[tactic(auto, unfolding(image_format::specs::Judge::node_block_fault))]
    fn judge_node_block(&self, k: usize) -> Result<(), FileFault>
        requires { k < blocks_for 42 self.now.nodes }
        ensures { result_err result ≡ node_block_fault self.now.image.now self.now.nodes self.now.legs k }
    {
        let number = 1 + k;
        let block = block_of(self.image, number);
        let count = in_block(self.nodes as usize, k);
        judge_block(block, BlockKind::Nodes, number as u16, count, |r| {
            self.judge_node(k, r)
        })
    }

    /// Judges the node blocks.
    fn judge_nodes(&self) -> Result<(), FileFault>
        ensures { result_err result ≡ first_of (node_block_fault self.now.image.now self.now.nodes self.now.legs) (blocks_for 42 self.now.nodes) }
    {
        check_each(
            blocks_for(self.nodes as usize),
            |k| self.judge_node_block(k),
        )
    }
}

/// Judges an image as opening it does, and answers where its nodes and legs stand.
#[tactic(auto, unfolding(image_format::specs::Judge::judge))]
pub(crate) fn judged(image: &[u8]) -> Result<Layout<'_>, FileFault>
    ensures verdict { result_err result ≡ judgement image.now }
    ensures layout { IfOk result (λ l. l.image.now ≡ image.now) }
{
    let size = FilePart::Size.at(0, 0);
    unless(!image.is_empty() && image.len() % BLOCK_LEN == 0, size)?;
    let top = block_of(image, 0);
    frame(top, BlockKind::Header as u8, 0)?;
    let Header { nodes, legs, .. } = judge_header(top)?;
    unless(image.len() == image_len(nodes, legs), size)?;
    let layout = Layout { image, nodes, legs };
    layout.judge_nodes()?;
    Ok(layout)
}
