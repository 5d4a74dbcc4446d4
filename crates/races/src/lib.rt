//! Which accesses race, of which class, and the race list.
#![tactic(auto)]

pub mod class;
pub mod held;
pub mod list;
pub mod nearest;
#[cfg(test)]
mod tests;
