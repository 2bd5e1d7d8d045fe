//! Opens many images, sound and damaged, and prints what comes of each.
//!
//! A line of standard input names a network and the edits of its image, as `f 4=5 fit:0`; `#` starts a comment. The
//! edits are `OFFSET=VALUE`, which sets a byte, `fit:B`, which puts the check of block B right, `cut:N`, which keeps
//! the first N bytes, and `pad:N`, which appends N zero bytes. The answer is a line `refused NUMBER BLOCK BYTE`, or `ok`
//! with ` 9:NODE:NUMBER:BLOCK:BYTE` for each row that cannot be read.
#![tactic(auto)]

mod bases;
mod edits;

use bases::base;
use edits::edit;
use image::source::ImageSource;
use network::fault::{FileFault, NetworkFault};
use network::network::Network;

fn tell_rows<N: Network>(rt: &HostRuntime, net: &N) -> anyhow::Result<()> {
    print!(rt; "ok")?;
    let faults = (0..net.node_count()).filter_map(|i| net.row_len(i).err());
    for fault in faults {
        if let NetworkFault::UnreadableRow { node, below } = fault {
            let FileFault { part, block, byte } = below;
            print!(rt; " 9:{node}:{}:{block}:{byte}", part.number())?;
        }
    }
    println!(rt; "")?;
    Ok(())
}

fn tell(rt: &HostRuntime, image: &[u8]) -> anyhow::Result<()> {
    let mut source = ImageSource::built_in();
    match source.open(image) {
        Ok(()) => tell_rows(rt, &source),
        Err(fault) => {
            println!(rt; "refused {fault}")?;
            Ok(())
        }
    }
}

fn run_case(rt: &HostRuntime, line: &str) -> anyhow::Result<()> {
    let mut words = line.split_whitespace();
    let Some(name) = words.next() else {
        return Ok(());
    };
    if name.starts_with('#') {
        return Ok(());
    }
    let mut image = base(rt.alloc(), name)?;
    for word in words {
        edit(&mut image, word)?;
    }
    tell(rt, image.as_slice())
}

fn main(rt: HostRuntime) -> anyhow::Result<()> {
    for line in rt.lines(rt.alloc()) {
        let line = line?;
        run_case(&rt, line.as_str())?;
    }
    Ok(())
}
