//! Why a file is no recording.
ghost use Rattle.std.specs.Prelude.{◌≡◌};
ghost use Rattle.files.specs.Faults.{file_number, file_byte};

/// What is wrong with a recording's header, by its number.
#[derive(Clone, Copy, PartialEq, Eq, Debug)]
pub enum FileFault {
    /// Under 16 bytes, or another mark.
    NotARecording = 5,
    /// A version other than 1.
    Version = 6,
    /// No such discipline.
    Discipline = 7,
    /// Too many records, or a length that does not fit their count.
    Length = 8,
}

impl FileFault {
    /// The fault's number.
    pub fn number(self) -> u8
        ensures { result ≡ file_number self }
    {
        self as u8
    }

    /// The first byte, in the header, of the field that is at fault; a number besides the fault's own, so by match.
    pub fn byte(self) -> u8
        ensures { result ≡ file_byte self }
    {
        match self {
            FileFault::NotARecording => 0,
            FileFault::Version => 4,
            FileFault::Discipline => 3,
            FileFault::Length => 6,
        }
    }
}
