//! Why a file cannot be read: the fault of a layer, with its place.
ghost use Rattle.std.specs.Prelude.{◌≡◌};
ghost use Rattle.files.specs.declared.faults.read.ReadFault.TheVariants.{File, Record};

use crate::faults::at::At;
use crate::faults::file::FileFault;
use recording::faults::record::RecordFault;

/// The first fault of a recording.
#[derive(Clone, Copy, PartialEq, Eq, Debug)]
pub enum ReadFault {
    File(FileFault),
    Record(At<RecordFault>),
}

impl From<FileFault> for ReadFault {
    ghost from_gives = { λ x y. y ≡ File x };

    fn from(fault: FileFault) -> ReadFault {
        ReadFault::File(fault)
    }
}

impl From<At<RecordFault>> for ReadFault {
    ghost from_gives = { λ x y. y ≡ Record x };

    fn from(at: At<RecordFault>) -> ReadFault {
        ReadFault::Record(at)
    }
}
