//! Parts of one's own: a kind of label that counts legs, and an agenda that takes the last entry.
//!
//! They are the examples of docs/labels.md and docs/agendas.md.
#![tactic(auto)]

pub mod hops;
pub mod last_in;
#[cfg(test)]
mod tests;
