//! Tables by example: a network of four stops, and tables with each fault.
#![tactic(auto)]

use network::fault::{FileFault, FilePart};
use network::leg::Leg;
use tables::record::NodeRecord;
use tables::source::TableSource;

#[cfg(test)]
mod answers;
#[cfg(test)]
mod refusals;

pub fn node(opens: u32, closes: u32, first_leg: u32) -> NodeRecord {
    NodeRecord {
        opens,
        closes,
        first_leg,
    }
}

pub fn leg(head: u16, duration: u32, cost: i32) -> Leg {
    Leg {
        head,
        duration,
        cost,
    }
}

/// The nodes of the four stops; the depot is 0, and the sink 3.
pub fn four_nodes() -> [NodeRecord; 4] {
    [node(0, 0, 0), node(2, 5, 2), node(1, 9, 4), node(4, 10, 6)]
}

/// Their legs.
pub fn six_legs() -> [Leg; 6] {
    [
        leg(1, 2, 4),
        leg(2, 3, 1),
        leg(3, 2, -3),
        leg(2, 1, -2),
        leg(1, 1, -2),
        leg(3, 4, 2),
    ]
}

/// The source over tables.
pub fn source_over<'a>(
    nodes: &'a [NodeRecord],
    legs: &'a [Leg],
    depot: u16,
    sink: u16,
) -> Result<TableSource<'a>, FileFault> {
    let mut source = TableSource::built_in();
    source.open(nodes, legs, depot, sink)?;
    Ok(source)
}

/// What comes of opening tables.
pub fn opened(nodes: &[NodeRecord], legs: &[Leg], depot: u16, sink: u16) -> Result<(), FileFault> {
    source_over(nodes, legs, depot, sink)?;
    Ok(())
}

/// The refusal of a record.
pub fn refused(part: FilePart, byte: u16) -> Result<(), FileFault> {
    Err(part.at(0, byte))
}
