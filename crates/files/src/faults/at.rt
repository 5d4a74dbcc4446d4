//! A fault and where it is.

/// A fault, with the number of its place in a list, from 0.
#[derive(Clone, Copy, PartialEq, Eq, Debug)]
pub struct At<F> {
    pub number: usize,
    pub fault: F,
}
