//! What a network of stops and legs is: the questions that every source and layer answers, and the faults that they
//! refuse with.
#![tactic(auto)]

pub mod each;
pub mod fault;
pub mod leg;
pub mod lent;
pub mod limits;
pub mod network;
pub mod reading;
pub mod row;
pub mod rows;
