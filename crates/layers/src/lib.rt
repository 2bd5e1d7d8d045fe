//! Layers over any network: prices at nodes, and bars between nodes.
//!
//! A layer holds the network below it by value. It is changed as a draft, and answers as a network once it is sealed,
//! so that another layer can stand on it.
#![tactic(auto)]

pub mod bars;
pub mod draft;
pub mod fault;
pub mod prices;
