//! Calls and answers.
use examination::examination::added::Added;
use recording::operation::Operation;
use rules::faults::StateFault;
use rules::order::Order;
use rules::race::{RaceClass, RaceRow};

/// A call on an examination.
#[derive(Drop)]
pub enum Call {
    Add(Operation),
    Cut(usize),
    Order(usize, usize),
    Class(usize, usize),
    /// With the places that are lent.
    List(Vec<RaceRow>),
}

/// What a call answers: a case for each answer and each kind of refusal, as the definitions have them.
#[derive(Drop)]
pub enum Answer {
    Added(Added),
    Refused(StateFault),
    Cut(usize),
    Ordered(Order),
    Classed(Option<RaceClass>),
    /// A position that is not held, or a cut above what is held.
    NotHeld,
    /// How many races, and the lent places after the call.
    Listed(usize, Vec<RaceRow>),
    /// The places needed, and the lent ones after the call.
    Needs(usize, Vec<RaceRow>),
}
