//! Tests of scripts.
#![tactic(auto)]

#[cfg(test)]
mod bad;
#[cfg(test)]
mod good;
#[cfg(test)]
mod tried;
