//! Faults as text.
ghost use Rattle.std.specs.Prelude.{Some};
ghost use Rattle.files.specs.Texts.{fault_text};

use crate::faults::read::ReadFault;
use std::fmt;

impl fmt::Display for ReadFault {
    ghost output = { λ f. Some (fault_text f) };

    fn fmt<W: fmt::Write>(&self, f: &mut fmt::Formatter<W>) -> fmt::Result {
        match self {
            ReadFault::File(fault) => {
                let number = fault.number();
                let byte = fault.byte();
                write!(f, "file {number} at {byte}")
            }
            ReadFault::Record(at) => {
                let number = at.fault.number();
                let record = at.number;
                write!(f, "record {number} at {record}")
            }
        }
    }
}
