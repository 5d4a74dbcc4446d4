//! Examinations: held operations, what is before what, and which accesses race.
#![tactic(auto)]

mod chain;
pub mod examination;
mod state;
mod turn;
