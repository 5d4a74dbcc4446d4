//! What a recording holds.
ghost use Rattle.std.specs.Prelude.{◌≡◌, ℕ, ◌<◌, ◌≤◌, true, vec_len};
ghost use Rattle.recording.specs.Lawful.{lawful as lawfulRow};
ghost use Rattle.recording.specs.Rows.{row_at};

use recording::discipline::DisciplineKind;
use recording::row::Row;

/// A recording: each of its rows, at most 512, is a lawful record.
#[derive(Drop)]
pub struct Recording {
    discipline: DisciplineKind,
    mask: u64,
    // rows and no operations, as the writer is lent them
    rows: Vec<Row>,
    ghost few: { vec_len rows ≤ 512 },
    ghost lawful: { (k : ℕ) → k < vec_len rows → lawfulRow (row_at rows.items k) ≡ true },
}

pub mod read;
pub mod said;
