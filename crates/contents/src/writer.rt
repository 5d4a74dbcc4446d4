//! Recordings written into a lent buffer.
ghost use Rattle.std.specs.Prelude.{◌≡◌, ℕ, ◌+◌, ◌*◌, ◌<◌, ◌≤◌, true, ◌++◌, length, take, drop, MatchResult, OnOk};
ghost use Rattle.recording.specs.Lawful.{lawful as lawfulRow};
ghost use Rattle.files.specs.Files.{FirstUnlawful, header_of, records_of};
ghost use Rattle.recording.specs.Rows.{row_at};
ghost use Rattle.contents.specs.Writing.{Writes, ReadBack};

use crate::faults::write::WriteFault;
use files::faults::at::At;
use files::faults::file::FileFault;
use files::header::{HEADER, MOST_RECORDS, VERSION};
use recording::discipline::DisciplineKind;
use recording::faults::record::RecordFault;
use recording::operation::Operation;
use recording::record::RECORD;
use recording::row::Row;

/// The first row that is no lawful record, if there is one.
fn judge_rows(rows: &[Row]) -> Result<(), At<RecordFault>>
    ensures { MatchResult result (λ _. (k : ℕ) → k < length rows.now → lawfulRow (row_at rows.now k) ≡ true) (λ e. FirstUnlawful (length rows.now) (row_at rows.now) e.number e.fault) }
{
    for (number, row) in rows.iter().enumerate() {
        Operation::try_from(*row).map_err(|fault| At { number, fault })?;
    }
    Ok(())
}

fn header_bytes(discipline: u8, mask: u64, count: u16) -> [u8; HEADER]
    ensures { result ≡ header_of discipline mask count }
{
    let [v0, v1] = VERSION.to_le_bytes();
    let [c0, c1] = count.to_le_bytes();
    let [m0, m1, m2, m3, m4, m5, m6, m7] = mask.to_le_bytes();
    [
        b'T', b'L', b'R', discipline, v0, v1, c0, c1, m0, m1, m2, m3, m4, m5, m6, m7,
    ]
}

/// Puts bytes into the buffer from place `at` on: the buffer is lent, and written in parts.
fn put(buffer: &mut [u8], at: usize, bytes: &[u8])
    requires { at + length bytes.now ≤ length buffer.old }
    ensures { buffer.new ≡ take at buffer.old ++ (bytes.now ++ drop (at + length bytes.now) buffer.old) }
{
    let end = at + bytes.len();
    buffer[at..end].copy_from_slice(bytes);
}

/// Puts the rows' records behind the header.
// By index, since a proof knows nothing of what is written through an iterator over chunks.
fn write_records(rows: &[Row], buffer: &mut [u8])
    requires { 16 + 12 * length rows.now ≤ length buffer.old }
    ensures { buffer.new ≡ take 16 buffer.old ++ (records_of rows.now ++ drop (16 + 12 * length rows.now) buffer.old) }
{
    for (number, row) in rows.iter().enumerate() {
        put(buffer, HEADER + RECORD * number, &row.to_bytes());
    }
}

/// Writes a recording into the buffer, and answers its length.
// plain numbers, lawful or not: they are judged here
pub fn write(
    discipline: u8,
    mask: u64,
    rows: &[Row],
    buffer: &mut [u8],
) -> Result<usize, WriteFault>
    ensures writes { Writes (record { discipline = discipline; mask = mask; rows = rows.now }) buffer.old result buffer.new }
    ensures reads_back { OnOk result (ReadBack (record { discipline = discipline; mask = mask; rows = rows.now })) }
{
    if DisciplineKind::try_from(discipline).is_err() {
        return Err(WriteFault::File(FileFault::Discipline));
    }
    if rows.len() > MOST_RECORDS {
        return Err(WriteFault::File(FileFault::Length));
    }
    judge_rows(rows)?;
    let needed = HEADER + RECORD * rows.len();
    if buffer.len() < needed {
        return Err(WriteFault::TooShort(needed));
    }
    put(
        buffer,
        0,
        &header_bytes(discipline, mask, rows.len() as u16),
    );
    write_records(rows, buffer);
    Ok(needed)
}
