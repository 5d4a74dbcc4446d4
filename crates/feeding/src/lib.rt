//! Feeding the records of a file to an examination.
#![tactic(auto)]

pub mod fault;
pub mod feed;
pub mod text;
