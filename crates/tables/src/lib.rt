//! A source over borrowed tables: a record for each node, and the legs of all rows one after another.
#![tactic(auto)]

pub mod answers;
mod judge;
pub mod open;
pub mod record;
pub mod source;
