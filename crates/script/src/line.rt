//! The lines of a script.
use recording::row::Row;

/// A line of a script: the opening, or a call.
#[derive(Clone, Copy)]
pub enum Line {
    /// With the number of a discipline, which may name none, and a mask of initial threads.
    Open(u8, u64),
    Add(Row),
    Cut(usize),
    Order(usize, usize),
    Class(usize, usize),
    /// With the number of places that are lent.
    List(usize),
}

pub mod reading;
