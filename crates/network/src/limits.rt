//! The limits of every network.

/// The most nodes.
pub const MAX_NODES: u16 = 1_000;

/// The most legs, all rows together.
pub const MAX_LEGS: u32 = 20_000;

/// The latest time, and the longest duration.
pub const MAX_TIME: u32 = 1_000_000;

/// The largest reach.
pub const MAX_REACH: u32 = 1_000_000_000;
