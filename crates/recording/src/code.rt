//! The fourteen operations by their codes, and which fields each has.
ghost use Rattle.std.specs.Prelude.{◌≡◌, false, MatchResult};
ghost use Rattle.recording.specs.Codes.{code_number, known, has_target, has_task, has_lock, has_item};
ghost use Rattle.recording.specs.declared.faults.record.RecordFault.TheVariants.{UnknownCode};

use crate::faults::record::RecordFault;

/// Which operation a record is of, by its code.
#[derive(Clone, Copy, PartialEq, Eq, Debug)]
pub enum Code {
    ThreadInit = 1,
    ThreadExit = 2,
    Fork = 3,
    Join = 4,
    AttachQ = 5,
    LoopOnQ = 6,
    Post = 7,
    Begin = 8,
    End = 9,
    Acquire = 10,
    Release = 11,
    Enable = 12,
    Read = 13,
    Write = 14,
}

impl TryFrom<u8> for Code {
    type Error = RecordFault;

    ghost try_from_gives = { λ n r. MatchResult r (λ c. code_number c ≡ n) (λ f. (known n ≡ false) × (f ≡ UnknownCode)) };

    fn try_from(number: u8) -> Result<Self, RecordFault> {
        match number {
            1 => Ok(Code::ThreadInit),
            2 => Ok(Code::ThreadExit),
            3 => Ok(Code::Fork),
            4 => Ok(Code::Join),
            5 => Ok(Code::AttachQ),
            6 => Ok(Code::LoopOnQ),
            7 => Ok(Code::Post),
            8 => Ok(Code::Begin),
            9 => Ok(Code::End),
            10 => Ok(Code::Acquire),
            11 => Ok(Code::Release),
            12 => Ok(Code::Enable),
            13 => Ok(Code::Read),
            14 => Ok(Code::Write),
            _ => Err(RecordFault::UnknownCode),
        }
    }
}

impl Code {
    pub(crate) fn has_target(self) -> bool
        ensures { result ≡ has_target (code_number self) }
    {
        matches!(self, Code::Fork | Code::Join | Code::Post)
    }

    pub(crate) fn has_task(self) -> bool
        ensures { result ≡ has_task (code_number self) }
    {
        matches!(self, Code::Post | Code::Begin | Code::End | Code::Enable)
    }

    pub(crate) fn has_lock(self) -> bool
        ensures { result ≡ has_lock (code_number self) }
    {
        matches!(self, Code::Acquire | Code::Release)
    }

    /// Whether the operation has a task, a lock or a location.
    pub(crate) fn has_item(self) -> bool
        ensures { result ≡ has_item (code_number self) }
    {
        self.has_task() || self.has_lock() || matches!(self, Code::Read | Code::Write)
    }
}
