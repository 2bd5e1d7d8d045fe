//! Writes any network as an image.
#![tactic(auto)]

mod check;
pub mod fault;
mod legs;
mod nodes;
mod table;
pub mod write;
