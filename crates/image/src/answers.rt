//! What an image answers.
ghost use Rattle.std.specs.Prelude.{◌≡◌, ◌<◌, ◌≤◌, MatchResult};
ghost use Rattle.std.specs.Result.{result_err};
ghost use Rattle.network.specs.Limits.{most_legs};
ghost use Rattle.network.specs.Refusals.{network_refusal};
ghost use Rattle.blocks.specs.Tables.{blocks_for};
ghost use Rattle.image_format.specs.Layout.{legs_in};
ghost use Rattle.image_format.specs.Judge.{leg_block_fault_at};
ghost use Rattle.image_format.specs.Decode.{image_net, blocks_over, span_fault};
ghost use Rattle.image_format.proofs.Lawfuls.{image_lawful};
ghost use Rattle.image.specs.Spans.{IsSpan, IsRefused};

use crate::source::ImageSource;
use blocks::table::{PER_BLOCK, blocks_for};
use image_format::MAX_COST;
use network::each::check_each;
use network::fault::{FileFault, NetworkFault, known, met_at};
use network::leg::{Leg, Window};
use network::network::Network;
use std::ops::Range;

/// How many leg blocks hold the legs from `from` to before `to`.
fn blocks_over(from: usize, to: usize) -> usize
    requires { to ≤ most_legs }
    ensures { result ≡ blocks_over from to }
{
    if from < to {
        blocks_for(to) - from / PER_BLOCK
    } else {
        0
    }
}

impl ImageSource<'_> {
    /// Judges leg block `k`, counted from 0.
    fn leg_block(&self, k: usize) -> Result<(), FileFault>
        requires { k < blocks_for 42 (legs_in self.now.image.now) }
        ensures { result_err result ≡ leg_block_fault_at self.now.image.now k }
    {
        if self.marks[k] {
            Ok(())
        } else {
            self.layout().judge_leg_block(k)
        }
    }

    /// Judges the leg blocks that hold a leg from `from` to before `to`.
    // Two numbers: where a `&Range` is captured, the closure's `requires` gets no proof.
    #[tactic(auto, unfolding(image_format::specs::Decode::span_fault))]
    fn readable(&self, from: usize, to: usize) -> Result<(), FileFault>
        requires { to ≤ legs_in self.now.image.now }
        ensures { result_err result ≡ span_fault self.now.image.now from to }
    {
        check_each(
            blocks_over(from, to),
            |k| self.leg_block(from / PER_BLOCK + k),
        )
    }

    /// Where the row of node `i` stands among the legs, where it can be read.
    fn row(&self, i: u16) -> Result<Range<usize>, NetworkFault>
        ensures { MatchResult result (λ row. IsSpan self.now.image.now i row.start row.end) (λ f. IsRefused self.now.image.now i (network_refusal f)) }
    {
        let layout = self.layout();
        known(i, layout.nodes)?;
        let row = layout.row(i as usize);
        met_at(self.readable(row.start, row.end), i)?;
        Ok(row)
    }
}

impl Network for ImageSource<'_> {
    ghost meaning = { λ s. image_net s.image.now };

    ghost lawful = { λ s. image_lawful s.image.now s.sound };

    fn node_count(&self) -> u16 {
        self.header().nodes
    }

    fn depot(&self) -> u16 {
        self.header().depot
    }

    fn sink(&self) -> u16 {
        self.header().sink
    }

    fn reach(&self) -> u32 {
        MAX_COST
    }

    fn window(&self, i: u16) -> Result<Window, NetworkFault> {
        let layout = self.layout();
        known(i, layout.nodes)?;
        Ok(layout.node(i as usize).window)
    }

    #[tactic(auto, using(crate::proofs::Spanning::length_of))]
    fn row_len(&self, i: u16) -> Result<u16, NetworkFault> {
        let row = self.row(i)?;
        Ok(row.len() as u16)
    }

    #[tactic(auto, using(crate::proofs::Spanning::leg_beyond))]
    fn leg(&self, i: u16, k: u16) -> Result<Leg, NetworkFault> {
        let row = self.row(i)?;
        let j = row.start + k as usize;
        if j >= row.end {
            return Err(NetworkFault::NoLeg { node: i });
        }
        Ok(self.layout().leg(j))
    }
}
