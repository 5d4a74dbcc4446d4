//! What a recording says, and its bytes.
ghost use Rattle.std.specs.Prelude.{◌≡◌, ◌<◌, ◌≤◌, Ok, Err, IfOk, vec_len, MatchOption};
ghost use Rattle.files.specs.Failures.{MatchFailure};
ghost use Rattle.files.specs.Files.{Contents, Reads, file_of};
ghost use Rattle.recording.specs.Rows.{row_at};
ghost use Rattle.contents.specs.Recordings.{contents_of};
ghost use Rattle.recording.specs.Rows.{operation_row};

use crate::recorded::Recording;
use crate::writer::write;
use files::faults::failure::Failure;
use files::faults::read::ReadFault;
use files::header::HEADER;
use recording::discipline::DisciplineKind;
use recording::operation::Operation;
use recording::record::RECORD;
use recording::row::Row;
use std::alloc::{AllocError, Global};

impl Recording {
    /// The discipline that the recording names.
    pub fn discipline(&self) -> DisciplineKind
        ensures { result ≡ self.now.discipline }
    {
        self.discipline
    }

    /// The mask of initial threads.
    pub fn mask(&self) -> u64
        ensures { result ≡ self.now.mask }
    {
        self.mask
    }

    /// The rows of the operations.
    pub fn rows(&self) -> &[Row]
        ensures { result.now ≡ self.now.rows.items }
    {
        &self.rows
    }

    /// The operation at a position, or none past the last.
    pub fn operation(&self, position: usize) -> Option<Operation>
        ensures { MatchOption result (vec_len self.now.rows ≤ position) (λ o. (position < vec_len self.now.rows) × (operation_row o ≡ row_at self.now.rows.items position)) }
    {
        let row = self.rows.get(position)?;
        Operation::try_from(*row).ok()
    }

    /// The recording's file.
    pub fn to_bytes(&self, heap: Global) -> Result<Vec<u8>, AllocError>
        ensures { IfOk result (λ v. v.items ≡ file_of (contents_of self.now)) }
    {
        let mut bytes = vec![in heap; 0; HEADER + RECORD * self.rows.len()]?;
        // by match, since a proof goes by its two cases
        match write(self.discipline.number(), self.mask, &self.rows, &mut bytes) {
            Ok(_) => Ok(bytes),
            Err(_) => unreachable!(),
        }
    }
}

/// A file read and written again.
pub fn copy(heap: Global, file: &[u8]) -> Result<Vec<u8>, Failure<ReadFault>>
    ensures { MatchFailure result (λ v. ((c : Contents) × Reads file.now (Ok c)) × (v.items ≡ file.now)) (λ f. Reads file.now (Err f)) }
{
    Ok(Recording::read(heap, file)?.to_bytes(heap)?)
}
