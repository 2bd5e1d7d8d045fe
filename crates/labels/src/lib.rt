//! Kinds of label: what is remembered of a way, how a leg changes it, and when one label makes another needless.
#![tactic(auto)]

pub mod label;
pub mod node_set;
pub mod once;
pub mod plain;
pub mod step;
#[cfg(test)]
mod tests;
