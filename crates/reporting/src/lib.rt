//! The report of a recording: its races, or its fault.
#![tactic(auto)]

mod lines;
mod race_list;
pub mod report;
