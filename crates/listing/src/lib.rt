//! The lines that list a network, and the image that a program reads.
#![tactic(auto)]

ghost use Rattle.std.specs.Prelude.{◌<◌, ◌≤◌, IfSome, IfOk, vec_len};

use image::source::ImageSource;
use network::fault::{FilePart, NetworkFault};
use network::leg::{Leg, Window};
use network::network::Network;
use network::reading::window_at;
use network::row::legs_from;
use std::alloc::Global;
use std::fmt::Display;
use std::io;
use std::io::Read;

/// The most bytes of an image that are read.
pub const MAX_INPUT: usize = 61_440;

/// What standard input holds, or nothing where that is more than the limit.
pub fn input(rt: &HostRuntime, heap: Global) -> io::Result<Option<Vec<u8>>>
    ensures { IfOk result (λ o. IfSome o (λ v. vec_len v ≤ 61440)) }
{
    let mut bytes = Vec::new(heap);
    rt.stdin()
        .take(MAX_INPUT as u64 + 1)
        .read_to_end(&mut bytes)?;
    if bytes.len() > MAX_INPUT {
        return Ok(None);
    }
    Ok(Some(bytes))
}

/// The refusal of a file or of a change.
pub fn refuse<F: Display + Drop>(rt: &HostRuntime, fault: F) -> io::Result<()> {
    println!(rt; "REFUSED {fault}")
}

/// Opens the image that standard input holds and hands its source over, or prints its refusal.
pub fn with_source<F: FnOnce(ImageSource) -> io::Result<()> + Drop>(
    rt: &HostRuntime,
    then: F,
) -> io::Result<()>
    requires { F.IsAlwaysCallable then }
{
    let Some(image) = input(rt, rt.alloc())? else {
        return refuse(rt, FilePart::Size.at(0, 0));
    };
    let mut source = ImageSource::built_in();
    match source.open(image.as_slice()) {
        Ok(()) => then(source),
        Err(fault) => refuse(rt, fault),
    }
}

/// Node `i` with its window.
fn list_stop<N: Network>(rt: &HostRuntime, net: &N, i: u16) -> io::Result<()>
    requires { i < (N.meaning net.now).n }
{
    let Window { opens, closes } = window_at(net, i);
    println!(rt; "stop {i} {opens} {closes}")
}

/// A leg of node `i`, with its head, duration and cost.
fn list_leg(rt: &HostRuntime, i: u16, leg: Leg) -> io::Result<()> {
    let Leg {
        head,
        duration,
        cost,
    } = leg;
    println!(rt; "leg {i} {head} {duration} {cost}")
}

/// The legs of node `i`, or why its row cannot be read.
fn list_row<N: Network>(rt: &HostRuntime, net: &N, i: u16) -> io::Result<()> {
    match net.row_len(i) {
        Ok(len) => {
            // the length spares asking for a leg beyond the row, which a layer may answer dearly
            for leg in legs_from(net, i, 0).take(len as usize) {
                list_leg(rt, i, leg)?;
            }
            Ok(())
        }
        Err(NetworkFault::UnreadableRow { below, .. }) => println!(rt; "unreadable {i} {below}"),
        Err(_) => Ok(()),
    }
}

/// A network: its depot and sink, then each node with its window and its legs.
pub fn list<N: Network>(rt: &HostRuntime, net: &N) -> io::Result<()> {
    println!(rt; "depot {} sink {}", net.depot(), net.sink())?;
    // by number: a node has no other name
    for i in 0..net.node_count() {
        list_stop(rt, net, i)?;
        list_row(rt, net, i)?;
    }
    Ok(())
}
