//! The faults of a feed as text.
ghost use Rattle.std.specs.Prelude.{Some};
ghost use Rattle.feeding.specs.Texts.{feed_text};

use crate::fault::FeedFault;
use files::faults::read::ReadFault;
use std::fmt;

impl fmt::Display for FeedFault {
    ghost output = { λ f. Some (feed_text f) };

    fn fmt<W: fmt::Write>(&self, f: &mut fmt::Formatter<W>) -> fmt::Result {
        match self {
            FeedFault::File(fault) => ReadFault::from(*fault).fmt(f),
            FeedFault::Record(at) => ReadFault::from(*at).fmt(f),
            FeedFault::State(at) => {
                let number = at.fault.number();
                let record = at.number;
                write!(f, "state {number} at {record}")
            }
        }
    }
}
