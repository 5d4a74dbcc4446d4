//! The held positions by thread, task and lock, as columns, so that the ordering rules are operations on columns.
#![tactic(auto)]

pub mod sets;
