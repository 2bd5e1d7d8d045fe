//! Why a layer refuses a change.
ghost use Rattle.std.specs.Prelude.{◌≡◌, Some, Ok};
ghost use Rattle.network.specs.Answers.{if_node};
ghost use Rattle.layers.specs.Refusals.{layer_refusal, layer_refusal_text, told};

use network::each::unless;
use network::network::Network;
use std::fmt;

/// Why a layer refuses a change, and the node that it names.
#[derive(Clone, Copy, PartialEq, Eq, Debug)]
pub enum LayerFault {
    /// there is no such node
    NoNode { node: u16 },
    /// the price of the node is too large, alone or together with the reach below
    PriceTooLarge { node: u16 },
    /// there is no place for another pair, here one that leaves the node
    TooManyBars { node: u16 },
}

impl LayerFault {
    /// The number of the refusal.
    pub fn number(&self) -> u8
        ensures { result ≡ (layer_refusal self.now).number }
    {
        match self {
            LayerFault::NoNode { .. } => 7,
            LayerFault::PriceTooLarge { .. } => 10,
            LayerFault::TooManyBars { .. } => 11,
        }
    }

    /// The node that the refusal names.
    pub fn node(&self) -> u16
        ensures { result ≡ (layer_refusal self.now).node }
    {
        match self {
            LayerFault::NoNode { node }
            | LayerFault::PriceTooLarge { node }
            | LayerFault::TooManyBars { node } => *node,
        }
    }
}

/// The number of the refusal and its node.
impl fmt::Display for LayerFault {
    ghost output = { λ f. Some (layer_refusal_text (layer_refusal f)) };

    fn fmt<W: fmt::Write>(&self, f: &mut fmt::Formatter<W>) -> fmt::Result {
        write!(f, "{} {}", self.number(), self.node())
    }
}

// Refuses a node that is not in the network.
pub(crate) fn known<N: Network>(net: &N, node: u16) -> Result<(), LayerFault>
    ensures { told result ≡ if_node (N.meaning net.now) node (Ok tt) }
{
    unless(node < net.node_count(), LayerFault::NoNode { node })
}
