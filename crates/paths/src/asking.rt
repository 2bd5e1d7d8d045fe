//! The step along a leg of a network.
ghost use Rattle.std.specs.Prelude.{◌≡◌, ◌<◌, length, slice_index_or};
ghost use Rattle.network.specs.Meaning.{legs_at, no_leg};
ghost use Rattle.network.specs.Refusals.{told};
ghost use Rattle.paths.specs.Paths.{step_of};
ghost use Rattle.paths.specs.Asking.{step_answer};

use labels::step::Step;
use network::fault::NetworkFault;
use network::network::Network;
use network::reading::window_at;

/// The step along leg `k` of node `i`; refused as the leg itself is.
pub fn step_along<N: Network>(net: &N, i: u16, k: u16) -> Result<Step, NetworkFault>
    ensures { told result ≡ step_answer (N.meaning net.now) i k }
{
    let leg = net.leg(i, k)?;
    let window = window_at(net, leg.head);
    Ok(Step::along(&leg, &window))
}

/// The same of a leg that is there.
pub fn step_at<N: Network>(net: &N, i: u16, k: u16) -> Step
    requires node { i < (N.meaning net.now).n }
    requires within { k < length (legs_at (N.meaning net.now) i) }
    ensures { result ≡ step_of (N.meaning net.now) (slice_index_or (legs_at (N.meaning net.now) i) k no_leg) }
{
    step_along(net, i, k).unwrap()
}
