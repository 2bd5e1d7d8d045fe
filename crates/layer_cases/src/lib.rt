//! Tests of layers by example: over an image, over tables and over a ring that is computed on the fly.
#![tactic(auto)]

pub mod exact;
#[cfg(test)]
mod tests;
