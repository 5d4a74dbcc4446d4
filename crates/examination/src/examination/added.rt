//! What add answers.

/// The position of an added operation, and how many held operations are before it.
#[derive(Clone, Copy, PartialEq, Eq, Debug)]
pub struct Added {
    pub position: usize,
    pub before: usize,
}
