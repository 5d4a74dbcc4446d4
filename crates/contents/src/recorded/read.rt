//! Recordings read from files.
ghost use Rattle.std.specs.Prelude.{◌≡◌, Ok, Err, None};
ghost use Rattle.files.specs.Failures.{MatchFailure};
ghost use Rattle.files.specs.Files.{Faulty, Reads, file_fault};
ghost use Rattle.contents.specs.Reading.{RowsRead};
ghost use Rattle.contents.specs.Recordings.{contents_of};

use crate::recorded::Recording;
use files::faults::failure::Failure;
use files::faults::read::ReadFault;
use files::header::Header;
use files::reader::Reader;
use recording::row::Row;
use std::alloc::Global;

/// The rows of a file whose header is lawful.
fn read_rows(heap: Global, file: &[u8]) -> Result<Vec<Row>, Failure<ReadFault>>
    requires { file_fault file.now ≡ None }
    ensures { MatchFailure result (λ rows. RowsRead file.now rows.items) (Faulty file.now) }
{
    let mut rows = Vec::new(heap);
    for record in Reader::new(file) {
        rows.push(record.operation()?.row())?;
    }
    Ok(rows)
}

impl Recording {
    /// What a file says, or its first fault.
    pub fn read(heap: Global, file: &[u8]) -> Result<Recording, Failure<ReadFault>>
        ensures { MatchFailure result (λ r. Reads file.now (Ok (contents_of r))) (λ f. Reads file.now (Err f)) }
    {
        let header = Header::read(file)?;
        let rows = read_rows(heap, file)?;
        Ok(Recording {
            discipline: header.discipline,
            mask: header.mask,
            rows,
        })
    }
}
