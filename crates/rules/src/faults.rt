//! What the calls of an examination refuse.
ghost use Rattle.std.specs.Prelude.{◌≡◌};
ghost use Rattle.rules.specs.Numbers.{state_number};

/// Why the state of an examination turns an operation away.
#[derive(Clone, Copy, PartialEq, Eq, Debug)]
pub enum StateFault {
    /// 512 operations are held.
    Full = 11,
    /// The thread is not created (threadinit) or not running.
    ThreadNotReady = 12,
    /// The target is not unknown (fork), not finished (join), or does not run with a queue (post).
    WrongTarget = 13,
    /// attachQ with a queue, loopOnQ without one or twice, begin without looping.
    WrongQueue = 14,
    /// The lock is held by another thread (acquire) or not by this one (release).
    WrongLock = 15,
    /// Post of a posted task; begin or end out of turn.
    OutOfTurn = 16,
    /// The discipline does not admit the post.
    NotAdmitted = 17,
}

impl StateFault {
    /// The fault's number.
    pub fn number(self) -> u8
        ensures { result ≡ state_number self }
    {
        self as u8
    }
}

/// A position that is not below the number held, or a cut above it: refusal 18.
#[derive(Clone, Copy, PartialEq, Eq, Debug)]
pub struct NotHeld;

/// The caller's list is too short, and so many places are needed: refusal 9.
#[derive(Clone, Copy, PartialEq, Eq, Debug)]
pub struct TooShort {
    pub needed: usize,
}
