//! What a label is told of a leg.
ghost use Rattle.std.specs.Prelude.{◌≡◌};
ghost use Rattle.labels.specs.Steps.{step_along};

use network::leg::{Leg, Window};

/// A leg to the node `head`, with the window of that node.
#[derive(Clone, Copy, PartialEq, Eq, Debug)]
pub struct Step {
    pub duration: u32,
    pub cost: i32,
    pub head: u16,
    pub opens: u32,
    pub closes: u32,
}

impl Step {
    /// The step along a leg to a node with this window.
    pub fn along(leg: &Leg, window: &Window) -> Step
        ensures { result ≡ step_along leg.now window.now }
    {
        Step {
            duration: leg.duration,
            cost: leg.cost,
            head: leg.head,
            opens: window.opens,
            closes: window.closes,
        }
    }
}
