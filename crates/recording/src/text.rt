//! Disciplines and operations as text.
pub mod discipline;
pub mod operation;
