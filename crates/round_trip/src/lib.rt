//! The round trips of images, as calls.
#![tactic(auto)]

ghost use Rattle.std.specs.Prelude.{◌≡◌, MatchResult};
ghost use Rattle.network.specs.Meaning.{Same};
ghost use Rattle.image_format.specs.Decode.{image_net};
ghost use Rattle.image_writer.specs.Write.{told_write, write_answer};
ghost use Rattle.round_trip.specs.Rewrite.{rewrite_answer, rewritten};

use image::source::ImageSource;
use image_writer::fault::WriteFault;
use image_writer::write::write;
use network::network::Network;

/// Writes the network of an opened image. Where every row can be read, what is written is that image.
pub fn rewrite(source: &ImageSource<'_>, out: &mut [u8]) -> Result<usize, WriteFault>
    ensures answer { told_write result ≡ rewrite_answer source.now.image.now out.old }
    ensures bytes { out.new ≡ rewritten source.now.image.now out.old }
{
    write(source, out)
}

/// Writes a network into a buffer and opens what was written: the source then is the same network. A refusal leaves
/// the source as it was.
pub fn copy<'a, N: Network>(
    net: &N,
    out: &'a mut [u8],
    source: &mut ImageSource<'a>,
) -> Result<usize, WriteFault>
    ensures answer { told_write result ≡ write_answer (N.meaning net.now) out.old }
    ensures copy { MatchResult result (λ _. Same (image_net source.new.image.now) (N.meaning net.now)) (λ _. source.new ≡ source.old) }
{
    let size = write(net, out)?;
    source.open(&out[..size]).unwrap();
    Ok(size)
}
