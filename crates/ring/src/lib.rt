//! A source of one's own: a network that stands in no table, and is computed as it is asked for.
//!
//! A source is a type that implements `Network`. Its `meaning` says which network a value stands for, and its `lawful`
//! proves that this network keeps the limits; what that proof needs to know of a value stands in a ghost field. Each
//! question is then held to the meaning.
#![tactic(auto)]

ghost use Rattle.std.specs.Prelude.{◌≡◌, ◌<◌, Ok, MatchOption};
ghost use Rattle.network.specs.Answers.{if_node};
ghost use Rattle.network.specs.Refusals.{told};
ghost use Rattle.ring.specs.Ring.{WithinLimits, next_stop, ring_net};
ghost use Rattle.ring.specs.Lawful.{ring_lawful};

use network::fault::{NetworkFault, known};
use network::leg::{Leg, Window};
use network::limits::{MAX_NODES, MAX_REACH, MAX_TIME};
use network::network::Network;

/// Stops in a ring, each with one leg to the next, and the last with one to the first.
///
/// All legs last equally long and cost the same. The first stop is depot and sink, and every stop is always open.
#[derive(Clone, Copy, Debug)]
pub struct Ring {
    stops: u16,
    minutes: u32,
    cost: i32,
    ghost within: { WithinLimits stops minutes cost },
}

impl Ring {
    /// The ring of so many stops, or nothing where it does not keep the limits of a network.
    pub fn new(stops: u16, minutes: u32, cost: i32) -> Option<Ring>
        ensures { MatchOption result (WithinLimits stops minutes cost → ⊥) (λ ring. (ring.stops ≡ stops) × (ring.minutes ≡ minutes) × (ring.cost ≡ cost)) }
    {
        let within = 1 <= stops
            && stops <= MAX_NODES
            && 1 <= minutes
            && minutes <= MAX_TIME
            && cost.unsigned_abs() <= MAX_REACH;
        if within {
            Some(Ring {
                stops,
                minutes,
                cost,
            })
        } else {
            None
        }
    }

    /// The stop after stop `i`.
    fn next(&self, i: u16) -> u16
        requires { i < self.now.stops }
        ensures { result ≡ next_stop self.now.stops i }
    {
        (i + 1) % self.stops
    }
}

impl Network for Ring {
    ghost meaning = { λ s. ring_net s.stops s.minutes s.cost };

    ghost lawful = { λ s. ring_lawful s.stops s.minutes s.cost s.within };

    fn node_count(&self) -> u16 {
        self.stops
    }

    fn depot(&self) -> u16 {
        0
    }

    fn sink(&self) -> u16 {
        self.depot()
    }

    fn reach(&self) -> u32 {
        self.cost.unsigned_abs()
    }

    fn window(&self, i: u16) -> Result<Window, NetworkFault> {
        known(i, self.stops)?;
        Ok(Window {
            opens: 0,
            closes: MAX_TIME,
        })
    }

    fn row_len(&self, i: u16) -> Result<u16, NetworkFault> {
        known(i, self.stops)?;
        Ok(1)
    }

    fn leg(&self, i: u16, k: u16) -> Result<Leg, NetworkFault> {
        known(i, self.stops)?;
        if k > 0 {
            return Err(NetworkFault::NoLeg { node: i });
        }
        Ok(Leg {
            head: self.next(i),
            duration: self.minutes,
            cost: self.cost,
        })
    }
}

#[cfg(test)]
mod tests;
