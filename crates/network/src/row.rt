//! The legs of a row, one after another.
ghost use Rattle.std.specs.Prelude.{◌≡◌};
ghost use Rattle.std.specs.Iterator.{YieldsFirst, item_count};
ghost use Rattle.network.specs.Meaning.{legs_left};

use crate::leg::Leg;
use crate::network::Network;

/// The legs of a node from a number on: none where there is no such node, or its row cannot be read.
#[derive(Drop)]
pub struct Legs<'a, N> {
    net: &'a N,
    node: u16,
    next: u16,
}

/// The legs of node `i`, from leg `k` on.
pub fn legs_from<N: Network>(net: &N, i: u16, k: u16) -> Legs<'_, N>
    ensures net { result.net.now ≡ net.now }
    ensures node { result.node ≡ i }
    ensures next { result.next ≡ k }
{
    Legs {
        net,
        node: i,
        next: k,
    }
}

impl<'a, N: Network> Iterator for Legs<'a, N> {
    type Item = Leg;

    ghost next_gives = { YieldsFirst (λ s. legs_left (N.Network.meaning s.net.now) s.node s.next) };

    ghost remaining = { item_count (λ s. legs_left (N.Network.meaning s.net.now) s.node s.next) };

    fn next(&mut self) -> Option<Leg> {
        let leg = self.net.leg(self.node, self.next).ok()?;
        self.next += 1;
        Some(leg)
    }
}
