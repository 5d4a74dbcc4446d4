//! Recordings of crane panels as binary files: their header, their records one by one, and their faults.
#![tactic(auto)]

pub mod faults;
pub mod header;
pub mod input;
pub mod reader;
