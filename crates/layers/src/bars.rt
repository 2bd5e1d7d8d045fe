//! Bars between nodes.
ghost use Rattle.std.specs.Prelude.{◌≡◌, []};
ghost use Rattle.network.specs.Answers.{length_answer, leg_answer};
ghost use Rattle.network.specs.Refusals.{told as told_answer};
ghost use Rattle.layers.specs.Bars.{is_barred, bars_from, stays, barred, bar_pair};
ghost use Rattle.layers.specs.BarsLawful.{barred_lawful};
ghost use Rattle.layers.specs.Refusals.{told};

use crate::draft::{Draft, Sealed};
use crate::fault::{LayerFault, known};
use arrayvec::ArrayVec;
use network::fault::NetworkFault;
use network::leg::{Leg, Window};
use network::network::Network;
use network::row::legs_from;

/// The most pairs that are barred.
pub const MAX_PAIRS: u16 = 256;

const PLACES: usize = MAX_PAIRS as usize;

/// Pairs of nodes of the network below, each once: every leg from the first to the second of a pair is left out.
#[derive(Drop)]
pub struct Bars<N: Network> {
    pub(crate) below: N,
    pub(crate) pairs: ArrayVec<(u16, u16), PLACES>,
}

impl<N: Network> Bars<N> {
    /// A draft over a network, with no pair barred.
    pub fn over(below: N) -> Draft<Bars<N>>
        ensures pairs { result.layer.pairs.items ≡ [] }
        ensures below { result.layer.below ≡ below }
    {
        Draft {
            layer: Bars {
                below,
                pairs: ArrayVec::new(),
            },
        }
    }

    // Whether the legs from node `i` to node `j` are barred. Ends at the pair: `contains` ends at a group of pairs.
    fn is_barred(&self, i: u16, j: u16) -> bool
        ensures { result ≡ is_barred self.now.pairs.items i j }
    {
        self.pairs.iter().any(|pair| *pair == (i, j))
    }

    // Whether one of the pairs leaves node `i`.
    fn bars_from(&self, i: u16) -> bool
        ensures { result ≡ bars_from self.now.pairs.items i }
    {
        self.pairs.iter().any(|pair| pair.0 == i)
    }

    // Whether a leg of node `i` stays.
    fn stays(&self, i: u16, leg: &Leg) -> bool
        ensures { result ≡ stays self.now.pairs.items i leg.now }
    {
        !self.is_barred(i, leg.head)
    }

    // How many legs of node `i` stay. Apart from `row_len`, as the next from `leg`: these are short where no pair leaves.
    #[inline(never)]
    fn len_left(&self, i: u16) -> Result<u16, NetworkFault>
        ensures { told_answer result ≡ length_answer (barred self.now.pairs.items (N.meaning self.now.below)) i }
    {
        let len = self.below.row_len(i)?;
        let left = legs_from(&self.below, i, 0)
            .take(len as usize)
            .filter(|leg| self.stays(i, leg))
            .count();
        Ok(left as u16)
    }

    // Leg `k` of those of node `i` that stay.
    #[inline(never)]
    fn leg_left(&self, i: u16, k: u16) -> Result<Leg, NetworkFault>
        ensures { told_answer result ≡ leg_answer (barred self.now.pairs.items (N.meaning self.now.below)) i k }
    {
        let len = self.below.row_len(i)?;
        let mut left = k;
        // A loop: `nth` of a filter is called for each leg, and takes twice as long.
        for leg in legs_from(&self.below, i, 0).take(len as usize) {
            if self.stays(i, &leg) {
                if left == 0 {
                    return Ok(leg);
                }
                left -= 1;
            }
        }
        Err(NetworkFault::NoLeg { node: i })
    }
}

impl<N: Network> Draft<Bars<N>> {
    /// Bars every leg from node `i` to node `j`.
    ///
    /// Refuses 7 where there is no node `i`, or no node `j`, then 11 where 256 other pairs are barred. A pair that is
    /// barred already takes no further place. A refusal changes nothing.
    pub fn bar(&mut self, i: u16, j: u16) -> Result<(), LayerFault>
        ensures step { (told result, self.new.layer.pairs.items) ≡ bar_pair (N.meaning self.old.layer.below) self.old.layer.pairs.items i j }
        ensures below { self.new.layer.below ≡ self.old.layer.below }
    {
        let bars = &mut self.layer;
        known(&bars.below, i)?;
        known(&bars.below, j)?;
        if bars.is_barred(i, j) {
            return Ok(());
        }
        bars.pairs
            .try_push((i, j))
            .map_err(|_| LayerFault::TooManyBars { node: i })
    }
}

impl<N: Network> Network for Sealed<Bars<N>> {
    ghost meaning = { λ s. barred s.layer.pairs.items (N.Network.meaning s.layer.below) };

    ghost lawful = { λ s. barred_lawful s.layer.pairs.items (N.Network.meaning s.layer.below) (N.Network.lawful s.layer.below) };

    fn node_count(&self) -> u16 {
        self.layer.below.node_count()
    }

    fn depot(&self) -> u16 {
        self.layer.below.depot()
    }

    fn sink(&self) -> u16 {
        self.layer.below.sink()
    }

    fn reach(&self) -> u32 {
        self.layer.below.reach()
    }

    fn window(&self, i: u16) -> Result<Window, NetworkFault> {
        self.layer.below.window(i)
    }

    // Costs a look at each pair; where one leaves the node, also every leg of the row below with a look at each pair.
    #[tactic(auto, using(crate::proofs::Barring::length_below))]
    fn row_len(&self, i: u16) -> Result<u16, NetworkFault> {
        let bars = &self.layer;
        if bars.bars_from(i) {
            bars.len_left(i)
        } else {
            bars.below.row_len(i)
        }
    }

    // Costs as `row_len`, but the row below is read only up to the leg that is asked for.
    #[tactic(auto, using(crate::proofs::Barring::leg_below))]
    fn leg(&self, i: u16, k: u16) -> Result<Leg, NetworkFault> {
        let bars = &self.layer;
        if bars.bars_from(i) {
            bars.leg_left(i, k)
        } else {
            bars.below.leg(i, k)
        }
    }
}
