//! Scripts of calls: their lines, the run that they make, and its answers as text.
#![tactic(auto)]

pub mod answer;
pub mod fault;
pub mod line;
mod lines;
pub mod number;
mod read;
pub mod tell;
