//! The records of a file, one by one.
ghost use Rattle.std.specs.Prelude.{◌≡◌, ◌-◌, ◌*◌, ◌≤◌, true, length, drop, Some, MatchResult};
ghost use Rattle.std.specs.Iterator.{at_most};
ghost use Rattle.recording.specs.Lawful.{fault_in, lawful as lawfulRow};
ghost use Rattle.recording.specs.Records.{row_in};
ghost use Rattle.recording.specs.Rows.{operation_row};

use crate::faults::at::At;
use crate::header::HEADER;
use recording::faults::record::RecordFault;
use recording::operation::Operation;
use recording::record::RECORD;
use recording::row::Row;

/// A record as a part of the file, with its number, from 0.
#[derive(Clone, Copy)]
pub struct Record<'a> {
    pub number: usize,
    pub bytes: &'a [u8; RECORD],
}

impl Record<'_> {
    /// The record's operation, or its fault with its number.
    pub fn operation(self) -> Result<Operation, At<RecordFault>>
        ensures { MatchResult result (λ o. (lawfulRow (row_in self.entry.bytes.now) ≡ true) × (operation_row o ≡ row_in self.entry.bytes.now)) (λ e. (e.number ≡ self.entry.number) × (fault_in (row_in self.entry.bytes.now) ≡ Some e.fault)) }
    {
        let number = self.number;
        Operation::try_from(Row::from_bytes(self.bytes)).map_err(|fault| At { number, fault })
    }
}

/// Hands out the records of a file in turn.
// no chain over `as_chunks` of the library: with the closure that makes records it has no name
#[derive(Drop)]
pub struct Reader<'a> {
    records: &'a [u8],
    number: usize,
    ghost within: { 12 * number ≤ length records.now },
}

impl<'a> Reader<'a> {
    /// A reader of the records behind the header of a file; a file with no room for a header has none.
    pub fn new(file: &'a [u8]) -> Self
        ensures { (result.number ≡ 0) × (result.records.now ≡ drop 16 file.now) }
    {
        let start = file.len().min(HEADER);
        Reader {
            records: &file[start..],
            number: 0,
        }
    }
}

/// The records in turn; none comes where fewer than twelve bytes are left.
impl<'a> Iterator for Reader<'a> {
    ghost use Rattle.files.specs.Readers.{Hands};

    type Item = Record<'a>;

    ghost next_gives = { Hands };

    ghost remaining = { λ r. at_most (length r.records.now - 12 * r.number) };

    fn next(&mut self) -> Option<Record<'a>> {
        let number = self.number;
        let bytes = self.records[RECORD * number..].first_chunk::<RECORD>()?;
        self.number += 1;
        Some(Record { number, bytes })
    }
}
