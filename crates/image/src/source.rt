//! A source over a borrowed image.
ghost use Rattle.std.specs.Prelude.{◌≡◌, MatchResult};
ghost use Rattle.network.specs.Meaning.{Same, lone_node};
ghost use Rattle.network.specs.Refusals.{told_file, verdict};
ghost use Rattle.blocks.specs.Numbers.{Bytes};
ghost use Rattle.blocks.specs.Blocks.{block_of};
ghost use Rattle.image_format.specs.Layout.{header_in};
ghost use Rattle.image_format.specs.Judge.{judge as judgement, Sound};
ghost use Rattle.image_format.specs.Decode.{image_net};
ghost use Rattle.image.specs.Marks.{Marked};

use crate::built_in::BUILT_IN;
use crate::judge::judged;
use crate::layout::Layout;
use crate::legs::MAX_LEG_BLOCKS;
use blocks::block::block_of;
use image_format::header::Header;
use network::fault::FileFault;

/// A network read from a borrowed image in place: windows and legs are answered from parts of the image.
///
/// Beside the image it holds a mark for each leg block that is sound, so that no question judges it anew.
#[derive(Drop)]
pub struct ImageSource<'a> {
    pub(crate) image: &'a [u8],
    pub(crate) marks: [bool; MAX_LEG_BLOCKS],
    ghost sound: { Sound image.now },
    ghost bytes: { Bytes image.now },
    ghost marked: { Marked marks image.now },
}

impl<'a> ImageSource<'a> {
    /// A source of one node with the window 0 to 1,000,000 and no leg.
    pub fn built_in() -> ImageSource<'a>
        ensures { Same (image_net result.image.now) lone_node }
    {
        ImageSource {
            image: &BUILT_IN,
            marks: [false; MAX_LEG_BLOCKS],
        }
    }

    /// Fills the source from an image. A refusal leaves it as it was.
    pub fn open(&mut self, image: &'a [u8]) -> Result<(), FileFault>
        ensures verdict { told_file result ≡ verdict (judgement image.now) }
        ensures cases { MatchResult result (λ _. self.new.image.now ≡ image.now) (λ _. self.new ≡ self.old) }
    {
        let layout = judged(image)?;
        let marks = layout.sound_leg_blocks();
        *self = ImageSource { image, marks };
        Ok(())
    }

    /// The header of the image.
    pub(crate) fn header(&self) -> Header
        ensures { result ≡ header_in (block_of self.now.image.now 0) }
    {
        Header::stored_in(block_of(self.image, 0))
    }

    /// Where nodes and legs stand in the image.
    pub(crate) fn layout(&self) -> Layout<'a>
        ensures { result.image.now ≡ self.now.image.now }
    {
        let Header { nodes, legs, .. } = self.header();
        Layout {
            image: self.image,
            nodes,
            legs,
        }
    }
}
