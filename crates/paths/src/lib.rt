//! Paths through a network: their stops, what a label is told along them, and where they lead.
#![tactic(auto)]

pub mod asking;
pub mod stop;
#[cfg(test)]
mod tests;
pub mod walk;
