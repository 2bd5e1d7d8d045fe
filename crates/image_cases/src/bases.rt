//! The networks whose images are edited.
use anyhow::anyhow;
use image_writer::write::write;
use network::leg::Leg;
use std::alloc::Global;
use table_cases::{four_nodes, leg, node, six_legs, source_over};
use tables::record::NodeRecord;

/// The image of tables.
fn image_of(
    heap: Global,
    nodes: &[NodeRecord],
    legs: &[Leg],
    depot: u16,
    sink: u16,
) -> anyhow::Result<Vec<u8>> {
    let source = source_over(nodes, legs, depot, sink).map_err(|_| anyhow!("tables refused"))?;
    let mut image = vec![in heap; 0u8; 4096]?;
    let size = write(&source, image.as_mut_slice()).map_err(|_| anyhow!("not written"))?;
    image.truncate(size);
    Ok(image)
}

/// `n` nodes in a ring, with a leg from each to the next.
fn ring(heap: Global, n: u16) -> anyhow::Result<Vec<u8>> {
    let nodes = (0..n)
        .map(u32::from)
        .map(|i| node(i, i + 1000, i))
        .collect::<Vec<_>>(heap)?;
    let legs = (0..n)
        .map(|i| leg((i + 1) % n, u32::from(i) + 1, i32::from(i) - 21))
        .collect::<Vec<_>>(heap)?;
    image_of(heap, &nodes, &legs, 0, n.saturating_sub(1))
}

/// Three nodes and 84 legs: the row of node 1 stands across both leg blocks.
fn wide(heap: Global) -> anyhow::Result<Vec<u8>> {
    let nodes = [node(0, 1000, 0), node(0, 1000, 41), node(0, 1000, 43)];
    let legs = (0..84u16)
        .map(|j| leg(j % 3, u32::from(j) + 1, 1000 - i32::from(j)))
        .collect::<Vec<_>>(heap)?;
    image_of(heap, &nodes, &legs, 0, 2)
}

/// The image of the network that has this name.
pub fn base(heap: Global, name: &str) -> anyhow::Result<Vec<u8>> {
    match name {
        "one" => image_of(heap, &[node(0, 1_000_000, 0)], &[], 0, 0),
        "f" => image_of(heap, &four_nodes(), &six_legs(), 0, 3),
        "full" => ring(heap, 42),
        "over" => ring(heap, 43),
        "wide" => wide(heap),
        _ => Err(anyhow!("no such network")),
    }
}
