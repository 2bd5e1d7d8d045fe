//! Edits of an image.
use anyhow::anyhow;
use blocks::block::BLOCK_LEN;
use blocks::check::Check;

fn set(image: &mut [u8], at: usize, value: u8) -> anyhow::Result<()> {
    let byte = image.get_mut(at).ok_or_else(|| anyhow!("no such byte"))?;
    *byte = value;
    Ok(())
}

/// Puts the check of block `b` right.
fn fit(image: &mut [u8], b: usize) -> anyhow::Result<()> {
    let (blocks, _) = image.as_chunks_mut::<BLOCK_LEN>();
    let block = blocks.get_mut(b).ok_or_else(|| anyhow!("no such block"))?;
    Check::of(block).store_in(block);
    Ok(())
}

/// Makes one edit.
pub fn edit(image: &mut Vec<u8>, word: &str) -> anyhow::Result<()> {
    if let Some((at, value)) = word.split_once('=') {
        return set(image.as_mut_slice(), at.parse()?, value.parse()?);
    }
    match word.split_once(':') {
        Some(("fit", b)) => fit(image.as_mut_slice(), b.parse()?),
        Some(("pad", n)) => {
            let len = image.len().saturating_add(n.parse()?);
            Ok(image.resize(len, 0)?)
        }
        Some(("cut", n)) => {
            image.truncate(n.parse()?);
            Ok(())
        }
        _ => Err(anyhow!("no such edit")),
    }
}
