//! Tests of examinations and of feeding them.
#![tactic(auto)]

#[cfg(test)]
mod cases;
#[cfg(test)]
mod examined;
#[cfg(test)]
mod feeds;
#[cfg(test)]
mod limits;
#[cfg(test)]
mod made_up;
