//! The inner state of an examination: the records of threads, locks and tasks that operations are judged by.
#![tactic(auto)]

mod locks;
pub mod tables;
pub mod tasks;
pub mod threads;
