//! Faults, with their numbers and places.
pub mod record;
