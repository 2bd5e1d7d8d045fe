//! The first fault of tables: their sizes, the depot and the sink come first, then each node, then each leg.
ghost use Rattle.std.specs.Prelude.{◌≡◌, ◌<◌, ◌≤◌, length};
ghost use Rattle.std.specs.Result.{result_err};
ghost use Rattle.network.specs.First.{first_of};
ghost use Rattle.network.specs.Limits.{most_nodes, most_legs};
ghost use Rattle.network.specs.Rows.{least_first};
ghost use Rattle.tables.specs.Tables.{first_leg_of};
ghost use Rattle.tables.specs.Judge.{valid_header, valid_node, valid_leg, header_fault, node_fault, leg_fault, table_fault};

use crate::record::NodeRecord;
use network::each::{check_each, unless};
use network::fault::{FileFault, FilePart};
use network::leg::Leg;
use network::limits::{MAX_LEGS, MAX_NODES, MAX_REACH, MAX_TIME};
use network::rows::most_first;

fn is_valid_header(nodes: usize, legs: usize, depot: u16, sink: u16) -> bool
    ensures { result ≡ valid_header nodes legs depot sink }
{
    1 <= nodes
        && nodes <= MAX_NODES as usize
        && (depot as usize) < nodes
        && (sink as usize) < nodes
        && legs <= MAX_LEGS as usize
}

/// Whether a node keeps the limits, and its first leg is from `least` to `most`.
fn is_valid_node(node: NodeRecord, least: u32, most: u32) -> bool
    ensures { result ≡ valid_node node least most }
{
    node.opens <= node.closes
        && node.closes <= MAX_TIME
        && least <= node.first_leg
        && node.first_leg <= most
}

fn is_valid_leg(leg: Leg, nodes: usize) -> bool
    ensures { result ≡ valid_leg leg nodes }
{
    (leg.head as usize) < nodes
        && 1 <= leg.duration
        && leg.duration <= MAX_TIME
        && leg.cost.unsigned_abs() <= MAX_REACH
}

/// The least first leg that node `i` may have.
fn least_first(nodes: &[NodeRecord], i: usize) -> u32
    requires { i < length nodes.now }
    ensures { result ≡ least_first (first_leg_of nodes.now) i }
{
    if i == 0 { 0 } else { nodes[i - 1].first_leg }
}

fn judge_header(nodes: usize, legs: usize, depot: u16, sink: u16) -> Result<(), FileFault>
    ensures { result_err result ≡ header_fault nodes legs depot sink }
{
    unless(
        is_valid_header(nodes, legs, depot, sink),
        FilePart::Header.at(0, 0),
    )
}

fn judge_node(nodes: &[NodeRecord], legs: u32, i: usize) -> Result<(), FileFault>
    requires i_in_bounds { i < length nodes.now }
    requires nodes_len_bound { length nodes.now ≤ most_nodes }
    ensures { result_err result ≡ node_fault nodes.now legs i }
{
    let valid = is_valid_node(nodes[i], least_first(nodes, i), most_first(legs, i));
    unless(valid, FilePart::NodeTable.at(0, i as u16))
}

fn judge_leg(legs: &[Leg], nodes: usize, j: usize) -> Result<(), FileFault>
    requires j_in_bounds { j < length legs.now }
    requires legs_len_bound { length legs.now ≤ most_legs }
    ensures { result_err result ≡ leg_fault legs.now nodes j }
{
    unless(
        is_valid_leg(legs[j], nodes),
        FilePart::LegTable.at(0, j as u16),
    )
}

/// Refuses tables with their first fault.
pub(crate) fn judge(
    nodes: &[NodeRecord],
    legs: &[Leg],
    depot: u16,
    sink: u16,
) -> Result<(), FileFault>
    ensures { result_err result ≡ table_fault nodes.now legs.now depot sink }
{
    judge_header(nodes.len(), legs.len(), depot, sink)?;
    check_each(nodes.len(), |i| judge_node(nodes, legs.len() as u32, i))?;
    check_each(legs.len(), |j| judge_leg(legs, nodes.len(), j))
}
