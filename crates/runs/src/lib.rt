//! Whole runs: any calls on a newly opened examination, and the law that their answers keep.
#![tactic(auto)]

pub mod calls;
pub mod run;
mod step;
