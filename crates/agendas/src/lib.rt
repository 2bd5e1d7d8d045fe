//! Agendas: in which order the entries of a search are taken up.
#![tactic(auto)]

pub mod agenda;
pub mod capacity;
pub mod fault;
pub mod first_in;
mod heap;
#[cfg(test)]
mod tests;
pub mod time_first;
pub mod timed;
