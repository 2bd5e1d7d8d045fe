//! Whether a network can be written.
ghost use Rattle.std.specs.Prelude.{◌≡◌, ◌<◌};
ghost use Rattle.std.specs.Option.{option_map};
ghost use Rattle.std.specs.Result.{result_err};
ghost use Rattle.network.specs.First.{first_of};
ghost use Rattle.network.specs.Meaning.{legs_left};
ghost use Rattle.network.specs.Refusals.{told};
ghost use Rattle.image_writer.specs.Write.{count_answer, holds_leg, holds_legs, dear_at, dear_fault, write_refusal};

use crate::fault::WriteFault;
use image_format::MAX_COST;
use network::each::{check_each, unless};
use network::fault::NetworkFault;
use network::leg::Leg;
use network::network::Network;
use network::row::legs_from;

/// How many legs there are, once every row is found readable.
pub(crate) fn count_legs<N: Network>(net: &N) -> Result<u32, NetworkFault>
    ensures { told result ≡ count_answer (N.meaning net.now) }
{
    // A loop: the step of a fold would carry its invariant as clauses.
    let mut total = 0;
    for i in 0..net.node_count() {
        total += u32::from(net.row_len(i)?);
    }
    Ok(total)
}

/// Whether an image can hold the cost of a leg.
fn holds_leg(l: Leg) -> bool
    ensures { result ≡ holds_leg l }
{
    l.cost.unsigned_abs() <= MAX_COST
}

/// Whether an image can hold every cost of a row.
fn holds_row<N: Network>(net: &N, node: u16) -> bool
    ensures { result ≡ holds_legs (legs_left (N.meaning net.now) node 0) }
{
    legs_from(net, node, 0).all(holds_leg)
}

/// Refuses a node with a cost that an image cannot hold.
fn check_row<N: Network>(net: &N, node: u16) -> Result<(), WriteFault>
    requires { node < (N.meaning net.now).n }
    ensures { result_err result ≡ dear_fault (N.meaning net.now) node }
{
    unless(holds_row(net, node), WriteFault::CostTooLarge { node })
}

/// Refuses at the lowest node with a cost that an image cannot hold.
pub(crate) fn check_costs<N: Network>(net: &N) -> Result<(), WriteFault>
    ensures { option_map write_refusal (result_err result) ≡ first_of (dear_at (N.meaning net.now)) (N.meaning net.now).n }
{
    check_each(
        net.node_count() as usize,
        |node| check_row(net, node as u16),
    )
}
