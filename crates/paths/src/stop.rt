//! The stops of a path.

/// The leg number of a path's first stop, to which no leg led.
pub const NO_LEG_TAKEN: u16 = 65_535;

/// A stop: the node, the number of the leg that led there in the row of the node before, and the time of the label.
#[derive(Clone, Copy, PartialEq, Eq, Debug)]
pub struct Stop {
    pub node: u16,
    pub leg: u16,
    pub time: u32,
}
