//! The lines of a recording.
ghost use Rattle.std.specs.Prelude.{◌<◌, Some};
ghost use Rattle.std.specs.Str.{bytes_eq};
ghost use Rattle.contents.specs.Recordings.{contents_of};
ghost use Rattle.listing.specs.Listings.{threads_text, head_lines, operation_lines, lines_of};

use contents::recorded::Recording;
use std::fmt;

/// The threads of a mask, a space before each, or none.
#[derive(Clone, Copy)]
struct Threads(u64);

impl fmt::Display for Threads {
    ghost output = { λ t. Some (threads_text t.0) };

    fn fmt<W: fmt::Write>(&self, f: &mut fmt::Formatter<W>) -> fmt::Result {
        if self.0 == 0 {
            return write!(f, " none");
        }
        for thread in 0..64u32 {
            if (self.0 >> thread) % 2 == 1 {
                write!(f, " {thread}")?;
            }
        }
        Ok(())
    }
}

/// The lines before the operations.
#[derive(Clone, Copy)]
struct Head<'a>(&'a Recording);

impl fmt::Display for Head<'_> {
    ghost output = { λ h. Some (head_lines (contents_of h.0.now)) };

    fn fmt<W: fmt::Write>(&self, f: &mut fmt::Formatter<W>) -> fmt::Result {
        let discipline = self.0.discipline();
        let number = discipline.number();
        let threads = Threads(self.0.mask());
        let count = self.0.rows().len();
        write!(f, "discipline {number} {discipline}\n")?;
        write!(f, "initial threads{threads}\n")?;
        write!(f, "count {count}\n")
    }
}

/// A line for each operation.
#[derive(Clone, Copy)]
struct Operations<'a>(&'a Recording);

impl fmt::Display for Operations<'_> {
    ghost output = { λ o. Some (operation_lines 0 (contents_of o.0.now).rows) };

    fn fmt<W: fmt::Write>(&self, f: &mut fmt::Formatter<W>) -> fmt::Result {
        for number in 0..self.0.rows().len() {
            let operation = self.0.operation(number).unwrap();
            write!(f, "{number} {operation}\n")?;
        }
        Ok(())
    }
}

/// The lines of a recording, and whether it has the file's bytes when it is written again.
#[derive(Clone, Copy)]
pub(crate) struct Listing<'a> {
    pub(crate) recording: &'a Recording,
    pub(crate) again: &'a [u8],
    pub(crate) file: &'a [u8],
}

impl fmt::Display for Listing<'_> {
    ghost output = { λ l. Some (lines_of (contents_of l.recording.now) (bytes_eq l.again.now l.file.now)) };

    fn fmt<W: fmt::Write>(&self, f: &mut fmt::Formatter<W>) -> fmt::Result {
        let head = Head(self.recording);
        let operations = Operations(self.recording);
        let count = self.recording.rows().len();
        let bytes = if self.again == self.file {
            "same"
        } else {
            "other"
        };
        write!(
            f,
            "{head}{operations}{count} operations read, written again: {bytes} bytes\n"
        )
    }
}
