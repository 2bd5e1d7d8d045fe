//! Where lists of legs lead among the four stops.
use crate::walk::walk;
use labels::label::Label;
use labels::once::Once;
use labels::plain::Plain;
use std::test::Fail;
use table_cases::{four_nodes, six_legs, source_over};

/// The node, time and cost to which a list of legs leads, for labels of a kind.
fn led<L: Label>(legs: &[u16]) -> Result<Option<(u16, u32, i64)>, Fail> {
    let (nodes, all) = (four_nodes(), six_legs());
    let source = source_over(&nodes, &all, 0, 3)?;
    let arrived = walk::<_, L>(&source, legs);
    Ok(arrived.map(|a| (a.node, a.label.time(), a.label.cost())))
}

#[test]
fn plain_walks(rt: HostRuntime) -> Result<(), Fail> {
    assert_eq!(rt; led::<Plain>(&[])?, Some((0, 0, 0)));
    assert_eq!(rt; led::<Plain>(&[0])?, Some((1, 2, 4)));
    assert_eq!(rt; led::<Plain>(&[0, 0])?, Some((3, 4, 1)));
    assert_eq!(rt; led::<Plain>(&[1])?, Some((2, 3, 1)));
    assert_eq!(rt; led::<Plain>(&[1, 0])?, Some((1, 4, -1)));
    assert_eq!(rt; led::<Plain>(&[1, 0, 0])?, Some((3, 6, -4)));
    assert_eq!(rt; led::<Plain>(&[1, 0, 1])?, Some((2, 5, -3)));
    assert_eq!(rt; led::<Plain>(&[1, 0, 1, 1])?, Some((3, 9, -1)));
    Ok(())
}

#[test]
fn no_such_walk(rt: HostRuntime) -> Result<(), Fail> {
    assert_eq!(rt; led::<Plain>(&[1, 0, 1, 0])?, None);
    assert_eq!(rt; led::<Plain>(&[2])?, None);
    assert_eq!(rt; led::<Plain>(&[0, 0, 0])?, None);
    assert_eq!(rt; led::<Plain>(&[65_535])?, None);
    Ok(())
}

#[test]
fn once_only_walks(rt: HostRuntime) -> Result<(), Fail> {
    assert_eq!(rt; led::<Once>(&[1, 0, 0])?, Some((3, 6, -4)));
    assert_eq!(rt; led::<Once>(&[1, 0, 1])?, None);
    assert_eq!(rt; led::<Once>(&[0, 1, 1])?, Some((3, 7, 4)));
    Ok(())
}
