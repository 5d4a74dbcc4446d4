//! The rules of an examination: what is accepted, what each call answers, and the laws of whole runs.
#![tactic(auto)]

pub mod faults;
pub mod laws;
pub mod order;
pub mod race;
