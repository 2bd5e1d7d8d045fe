//! Lists the network of an image that is read from standard input, with the price 5 at node 2, and without the legs from
//! node 1 to node 3.
#![tactic(auto)]

use layers::bars::Bars;
use layers::draft::Sealed;
use layers::fault::LayerFault;
use layers::prices::Prices;
use listing::{list, refuse, with_source};
use network::network::Network;
use std::io;

/// A network with its price and its bar.
fn layered<N: Network + Drop>(net: N) -> Result<Sealed<Bars<Sealed<Prices<N>>>>, LayerFault> {
    let mut prices = Prices::over(net);
    prices.price(2, 5)?;
    let mut bars = Bars::over(prices.seal());
    bars.bar(1, 3)?;
    Ok(bars.seal())
}

fn main(rt: HostRuntime) -> io::Result<()> {
    with_source(&rt, |net| match layered(net) {
        Ok(net) => list(&rt, &net),
        Err(fault) => refuse(&rt, fault),
    })
}
