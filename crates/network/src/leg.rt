//! Windows and legs.

/// The opening hours of a node: from `opens` to `closes`, both included.
#[derive(Clone, Copy, PartialEq, Eq, Debug)]
pub struct Window {
    pub opens: u32,
    pub closes: u32,
}

/// A leg from the node in whose row it stands to the node `head`.
#[derive(Clone, Copy, PartialEq, Eq, Debug)]
pub struct Leg {
    pub head: u16,
    pub duration: u32,
    pub cost: i32,
}
