//! The label table: its rows, and how labels are considered.
#![tactic(auto)]

pub mod consider;
pub mod fault;
pub mod row;
pub mod table;
#[cfg(test)]
mod tests;
