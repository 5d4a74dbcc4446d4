//! Sets of positions below 512, and the pass that closes one over the sets of earlier positions.
#![tactic(auto)]

pub mod closing;
pub mod column;
#[cfg(test)]
mod tests;
