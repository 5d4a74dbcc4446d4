//! Why a feed stops.
ghost use Rattle.std.specs.Prelude.{◌≡◌};
ghost use Rattle.feeding.specs.declared.fault.FeedFault.TheVariants.{File, Record, State};

use files::faults::at::At;
use files::faults::file::FileFault;
use recording::faults::record::RecordFault;
use rules::faults::StateFault;

/// The first fault of a feed, by its layer; that of a record or of the state with the record's number in the file.
// no `ReadFault` in it: its cases would be matched in two steps
#[derive(Clone, Copy, PartialEq, Eq, Debug)]
pub enum FeedFault {
    File(FileFault),
    Record(At<RecordFault>),
    State(At<StateFault>),
}

impl From<FileFault> for FeedFault {
    ghost from_gives = { λ x y. y ≡ File x };

    fn from(fault: FileFault) -> FeedFault {
        FeedFault::File(fault)
    }
}

impl From<At<RecordFault>> for FeedFault {
    ghost from_gives = { λ x y. y ≡ Record x };

    fn from(at: At<RecordFault>) -> FeedFault {
        FeedFault::Record(at)
    }
}

impl From<At<StateFault>> for FeedFault {
    ghost from_gives = { λ x y. y ≡ State x };

    fn from(at: At<StateFault>) -> FeedFault {
        FeedFault::State(at)
    }
}
