//! Tests of reading, listing and writing recordings.
#![tactic(auto)]

#[cfg(test)]
mod headers;
#[cfg(test)]
mod lines;
#[cfg(test)]
mod records;
#[cfg(test)]
mod writes;
