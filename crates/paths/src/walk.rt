//! Where a list of leg numbers leads.
ghost use Rattle.std.specs.Prelude.{◌≡◌, MatchOption};
ghost use Rattle.paths.specs.Walks.{PathBy, NoPathBy};

use crate::asking::step_along;
use labels::label::Label;
use network::network::Network;
use network::reading::window_at;

/// Where a path ends: the node, and the label with which it is there.
#[derive(Clone, Copy)]
pub struct Arrived<L> {
    pub node: u16,
    pub label: L,
}

/// Where the path leads that takes the leg of each number in turn, each in the row of the node that it leaves; `None`
/// where a leg is missing or its row cannot be read, or where the label does not go on along it.
pub fn walk<N: Network, L: Label>(net: &N, legs: &[u16]) -> Option<Arrived<L>>
    ensures { MatchOption result (NoPathBy (N.meaning net.now) L.kind legs.now) (λ a. PathBy (N.meaning net.now) L.kind legs.now a.node a.label) }
{
    let mut node = net.depot();
    let mut label = L::start(window_at(net, node).opens, node);
    for leg in legs {
        let step = step_along(net, node, *leg).ok()?;
        label = label.extend(&step)?;
        node = step.head;
    }
    Some(Arrived { node, label })
}
