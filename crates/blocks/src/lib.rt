//! What images are made of: numbers in bytes, checked blocks, and tables of records in blocks.
//!
//! These are inner parts for reader and writer, whose callers have tested the lengths: their functions ask for them.
#![tactic(auto)]

pub mod block;
pub mod bytes;
pub mod check;
pub mod table;
