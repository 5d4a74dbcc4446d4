//! What a recording holds, as lines of text.
#![tactic(auto)]

pub mod fault;
pub mod inspect;
mod lines;
