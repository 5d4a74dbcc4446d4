//! Why a script goes no further.
ghost use Rattle.std.specs.Prelude.{◌≡◌, Some};
ghost use Rattle.script.specs.Faults.{fault_text, stop_text};

use std::fmt;

/// Why a line is no step of a script.
#[derive(Clone, Copy, PartialEq, Eq, Debug)]
pub enum LineFault {
    /// The line is neither an opening nor a call.
    NotACall,
    /// The first line opens nothing.
    NotOpened,
    /// A second opening.
    OpenedTwice,
    /// More than 1,048,576 places are lent in all.
    TooManyPlaces,
}

/// A line's fault, with the line's number, from 1.
// not `At` of files: that counts from 0, and another crate's type can have no `Display` here
#[derive(Clone, Copy, PartialEq, Eq, Debug)]
pub struct AtLine {
    pub number: usize,
    pub fault: LineFault,
}

impl LineFault {
    /// What is wrong.
    // beside `Display`, which goes through a writer that may fail
    pub fn text(self) -> &'static str
        ensures { result.now ≡ fault_text self }
    {
        match self {
            LineFault::NotACall => "this is no call",
            LineFault::NotOpened => "this is no opening",
            LineFault::OpenedTwice => "a second opening",
            LineFault::TooManyPlaces => "too many places lent",
        }
    }
}

impl fmt::Display for LineFault {
    ghost output = { λ f. Some (fault_text f) };

    fn fmt<W: fmt::Write>(&self, f: &mut fmt::Formatter<W>) -> fmt::Result {
        f.write_str(self.text())
    }
}

impl fmt::Display for AtLine {
    ghost output = { λ s. Some (stop_text s) };

    fn fmt<W: fmt::Write>(&self, f: &mut fmt::Formatter<W>) -> fmt::Result {
        write!(f, "line {}: {}", self.number, self.fault)
    }
}
