//! The source that reads a borrowed image in place.
#![tactic(auto)]

pub mod answers;
mod built_in;
mod judge;
mod layout;
mod legs;
pub mod source;
