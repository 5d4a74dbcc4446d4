//! Dispatch disciplines: how the queue of a thread hands out its tasks.
#![tactic(auto)]

pub mod any_order;
pub mod discipline;
pub mod first_in_first_out;
pub mod recorded;
#[cfg(test)]
mod tests;
pub mod timed;
