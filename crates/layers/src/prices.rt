//! Prices at nodes.
ghost use Rattle.std.specs.Prelude.{◌≡◌, ◌<◌, ◌≤◌, replicate, pos, ◌-ℤ◌};
ghost use Rattle.network.specs.Limits.{most_nodes, most_reach};
ghost use Rattle.layers.specs.Prices.{acceptable, cut, priced_leg, priced_reach, price_of, priced, set_price, Accepted};
ghost use Rattle.layers.specs.PricesLawful.{priced_lawful};
ghost use Rattle.layers.specs.Refusals.{told};

use crate::draft::{Draft, Sealed};
use crate::fault::{LayerFault, known};
use network::fault::NetworkFault;
use network::leg::{Leg, Window};
use network::limits::{MAX_NODES, MAX_REACH};
use network::network::Network;

/// The largest size of a price.
pub const MAX_PRICE: u32 = 10_000_000;

/// A price for each node of the network below: every leg is cheaper by the price of the node that it leaves.
///
/// Each price was accepted, so no cost is cut.
#[derive(Drop)]
pub struct Prices<N: Network> {
    pub(crate) below: N,
    pub(crate) prices: [i32; MAX_NODES as usize],
    ghost accepted: { Accepted prices (N.meaning below) },
}

// A cost, cut to a reach.
fn cut(cost: i64, reach: u32) -> i32
    requires { reach ≤ most_reach }
    ensures { result ≡ cut reach cost }
{
    let most = i64::from(reach);
    cost.clamp(-most, most) as i32
}

impl<N: Network> Prices<N> {
    /// A draft over a network, with the price 0 at every node.
    pub fn over(below: N) -> Draft<Prices<N>>
        ensures prices { result.layer.prices ≡ replicate most_nodes (pos 0) }
        ensures below { result.layer.below ≡ below }
    {
        Draft {
            layer: Prices {
                below,
                prices: [0; MAX_NODES as usize],
            },
        }
    }

    // Whether a price may stand here.
    fn accepts(&self, price: i32) -> bool
        ensures { result ≡ acceptable (N.meaning self.now.below).reach price }
    {
        let size = price.unsigned_abs();
        size <= MAX_PRICE && size + self.below.reach() <= MAX_REACH
    }

    // The reach with the prices.
    fn reach(&self) -> u32
        ensures { result ≡ priced_reach (N.meaning self.now.below).reach }
    {
        (self.below.reach() + MAX_PRICE).min(MAX_REACH)
    }

    // A leg of node `i`, cheaper by the price of the node, its cost cut to the reach.
    fn priced(&self, i: u16, leg: Leg) -> Leg
        requires { i < most_nodes }
        ensures { result ≡ priced_leg (priced_reach (N.meaning self.now.below).reach) (price_of self.now.prices i) leg }
    {
        let cost = i64::from(leg.cost) - i64::from(self.prices[i as usize]);
        Leg {
            cost: cut(cost, self.reach()),
            ..leg
        }
    }
}

impl<N: Network> Draft<Prices<N>> {
    /// Sets the price of a node, in the place of an earlier one.
    ///
    /// Refuses 7 where there is no such node, then 10 where the price is above 10,000,000 in size, or above
    /// 1,000,000,000 together with the reach below. A refusal changes nothing.
    pub fn price(&mut self, node: u16, price: i32) -> Result<(), LayerFault>
        ensures step { (told result, self.new.layer.prices) ≡ set_price (N.meaning self.old.layer.below) self.old.layer.prices node price }
        ensures below { self.new.layer.below ≡ self.old.layer.below }
    {
        known(&self.layer.below, node)?;
        if !self.layer.accepts(price) {
            return Err(LayerFault::PriceTooLarge { node });
        }
        self.layer.prices[node as usize] = price;
        Ok(())
    }
}

impl<N: Network> Network for Sealed<Prices<N>> {
    ghost meaning = { λ s. priced s.layer.prices (N.Network.meaning s.layer.below) };

    ghost lawful = { λ s. priced_lawful s.layer.prices (N.Network.meaning s.layer.below) (N.Network.lawful s.layer.below) };

    fn node_count(&self) -> u16 {
        self.layer.below.node_count()
    }

    fn depot(&self) -> u16 {
        self.layer.below.depot()
    }

    fn sink(&self) -> u16 {
        self.layer.below.sink()
    }

    fn reach(&self) -> u32 {
        self.layer.reach()
    }

    fn window(&self, i: u16) -> Result<Window, NetworkFault> {
        self.layer.below.window(i)
    }

    fn row_len(&self, i: u16) -> Result<u16, NetworkFault> {
        self.layer.below.row_len(i)
    }

    fn leg(&self, i: u16, k: u16) -> Result<Leg, NetworkFault> {
        let leg = self.layer.below.leg(i, k)?;
        Ok(self.layer.priced(i, leg))
    }
}
