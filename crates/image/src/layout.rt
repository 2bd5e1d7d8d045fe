//! Where nodes and legs stand in an image.
ghost use Rattle.std.specs.Prelude.{◌≡◌, ℕ, ◌+◌, ◌*◌, ◌<◌, ◌≤◌, length};
ghost use Rattle.network.specs.Limits.{most_nodes, most_legs};
ghost use Rattle.image_format.specs.Layout.{nodes_in, legs_in, start};
ghost use Rattle.image_format.specs.Judge.{block_count};
ghost use Rattle.image_format.specs.Decode.{leg_at};
ghost use Rattle.image.specs.Nodes.{node_at};

use blocks::table::{PER_BLOCK, WIDTH, record_at};
use image_format::leg_base;
use image_format::records::{NodeRecord, leg_in};
use network::leg::Leg;
use std::ops::Range;

/// An image whose length fits the nodes and legs that its header counts.
#[derive(Clone, Copy)]
pub(crate) struct Layout<'a> {
    pub(crate) image: &'a [u8],
    pub(crate) nodes: u16,
    pub(crate) legs: u32,
    ghost nodes_read: { nodes ≡ nodes_in image.now },
    ghost legs_read: { legs ≡ legs_in image.now },
    ghost few_nodes: { nodes ≤ most_nodes },
    ghost few_legs: { legs ≤ most_legs },
    ghost long: { length image.now ≡ 512 * block_count nodes legs },
}

impl Layout<'_> {
    /// The record of node `i`.
    pub(crate) fn node(&self, i: usize) -> NodeRecord
        requires { i < self.now.nodes }
        ensures { result ≡ node_at self.now.image.now i }
    {
        NodeRecord::stored_in(record_at(self.image, WIDTH, PER_BLOCK, 1, i))
    }

    /// Where the row of node `i` starts among the legs, and the row before it ends.
    fn row_start(&self, i: usize) -> usize
        ensures { result ≡ start self.now.image.now i }
    {
        if i < self.nodes as usize {
            self.node(i).first_leg as usize
        } else {
            self.legs as usize
        }
    }

    /// Where the row of node `i` stands among the legs.
    pub(crate) fn row(&self, i: usize) -> Range<usize>
        requires { i < self.now.nodes }
        ensures starts { result.start ≡ start self.now.image.now i }
        ensures ends { result.end ≡ start self.now.image.now (i + 1) }
    {
        self.row_start(i)..self.row_start(i + 1)
    }

    /// Leg `j` of the image.
    pub(crate) fn leg(&self, j: usize) -> Leg
        requires { j < self.now.legs }
        ensures { result ≡ leg_at self.now.image.now j }
    {
        leg_in(record_at(self.image, WIDTH, PER_BLOCK, leg_base(self.nodes), j))
    }
}
