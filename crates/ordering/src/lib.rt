//! The column of a new operation: what is before it.
#![tactic(auto)]

pub mod column;
mod handover;
pub mod past;
