//! The numbers of threads, tasks, locks and locations: a type for each, so that none is taken for another.
ghost use Rattle.std.specs.Prelude.{◌<◌, ◌^◌};

use std::marker::PhantomData;

/// A number below a limit; `Of` is what it numbers.
pub struct Number<Of, const LIMIT: u16> {
    number: u16,
    of: PhantomData<Of>,
    ghost bounded: { number < LIMIT },
}

/// What threads are told from other numbers by.
pub enum OfThread {}

/// What tasks are told from other numbers by.
pub enum OfTask {}

/// What locks are told from other numbers by.
pub enum OfLock {}

/// A thread, 0 to 63.
pub type Thread = Number<OfThread, 64>;

/// A task, 0 to 511.
pub type Task = Number<OfTask, 512>;

/// A lock, 0 to 63.
pub type Lock = Number<OfLock, 64>;

/// A memory location, 0 to 65,535.
// no `Number`: each 16-bit number is one, and 65,536 is no `u16`
#[derive(Clone, Copy)]
pub struct Location {
    number: u16,
    ghost bounded: { number < 2 ^ 16 },
}

// by hand, as `Clone` is
impl<Of, const LIMIT: u16> Copy for Number<Of, LIMIT> {}

mod bounded;
mod locations;
