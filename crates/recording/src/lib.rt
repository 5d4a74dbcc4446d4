//! The operations of a recording, and their records.
#![tactic(auto)]

pub mod action;
pub mod code;
pub mod discipline;
pub mod faults;
mod judge;
pub mod marks;
pub mod numbers;
pub mod operation;
pub mod record;
pub mod row;
pub mod text;
