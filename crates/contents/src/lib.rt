//! Whole recordings: read, held and written.
#![tactic(auto)]

pub mod faults;
pub mod recorded;
pub mod writer;
