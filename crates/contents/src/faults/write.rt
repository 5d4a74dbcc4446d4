//! Why a recording is not written.
ghost use Rattle.std.specs.Prelude.{◌≡◌};
ghost use Rattle.contents.specs.declared.faults.write.WriteFault.TheVariants.{Record};

use files::faults::at::At;
use files::faults::file::FileFault;
use recording::faults::record::RecordFault;

/// Why a recording is not written.
#[derive(Clone, Copy, PartialEq, Eq, Debug)]
pub enum WriteFault {
    /// The fault that the header would have.
    File(FileFault),
    /// The first row that is no lawful record.
    Record(At<RecordFault>),
    /// The buffer is too short; so many bytes are needed.
    TooShort(usize),
}

impl From<At<RecordFault>> for WriteFault {
    ghost from_gives = { λ x y. y ≡ Record x };

    fn from(at: At<RecordFault>) -> WriteFault {
        WriteFault::Record(at)
    }
}
