//! Lists the network of an image that is read from standard input.
#![tactic(auto)]

use listing::{list, with_source};
use std::io;

fn main(rt: HostRuntime) -> io::Result<()> {
    with_source(&rt, |net| list(&rt, &net))
}
