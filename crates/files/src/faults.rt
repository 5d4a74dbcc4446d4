//! Faults, a type for each layer, with their numbers and places.
pub mod at;
pub mod failure;
pub mod file;
pub mod read;
pub mod text;
