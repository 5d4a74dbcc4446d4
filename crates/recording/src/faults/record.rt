//! Why a record is no operation.
ghost use Rattle.std.specs.Prelude.{◌≡◌};
ghost use Rattle.recording.specs.Faults.{record_number, record_byte};

/// Why a record is no operation.
#[derive(Clone, Copy, PartialEq, Eq, Debug)]
pub enum RecordFault {
    UnknownCode,
    ThreadTooLarge,
    TargetTooLarge,
    TaskTooLarge,
    LockTooLarge,
    ItemNotZero,
    TargetNotZero,
    MarksWrong,
    ReservedNotZero,
    DelayNotZero,
}

impl RecordFault {
    /// The fault's number, which is no discriminant: several faults share one.
    pub fn number(self) -> u8
        ensures { result ≡ record_number self }
    {
        match self {
            RecordFault::UnknownCode => 1,
            RecordFault::ThreadTooLarge | RecordFault::TargetTooLarge => 2,
            RecordFault::TaskTooLarge | RecordFault::LockTooLarge => 3,
            _ => 4,
        }
    }

    /// The first byte, in the record, of the field that is at fault; a number besides the fault's own, so by match too.
    pub fn byte(self) -> u8
        ensures { result ≡ record_byte self }
    {
        match self {
            RecordFault::UnknownCode => 0,
            RecordFault::ThreadTooLarge => 1,
            RecordFault::TaskTooLarge | RecordFault::LockTooLarge | RecordFault::ItemNotZero => 2,
            RecordFault::TargetTooLarge | RecordFault::TargetNotZero => 4,
            RecordFault::MarksWrong => 5,
            RecordFault::ReservedNotZero => 6,
            RecordFault::DelayNotZero => 8,
        }
    }
}
