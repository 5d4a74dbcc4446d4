//! The sixteen bytes before the records.
ghost use Rattle.std.specs.Prelude.{◌≡◌, ◌≤◌, length, Some, None, MatchResult};
ghost use Rattle.recording.specs.Bytes.{number_at};
ghost use Rattle.files.specs.Files.{file_fault};
ghost use Rattle.files.specs.Headers.{Heads};

use crate::faults::file::FileFault;
use recording::discipline::DisciplineKind;
use recording::record::RECORD;

/// The length of a header.
pub const HEADER: usize = 16;

/// The most records that a recording has.
pub const MOST_RECORDS: usize = 512;

/// The version that is read and written.
pub const VERSION: u16 = 1;

/// What a recording's header says.
#[derive(Clone, Copy)]
pub struct Header {
    pub discipline: DisciplineKind,
    pub mask: u64,
    pub count: usize,
}

impl Header {
    /// The header of a file, or its first fault; the file's length is judged by the count.
    pub fn read(file: &[u8]) -> Result<Header, FileFault>
        ensures { MatchResult result (λ h. (file_fault file.now ≡ None) × Heads file.now h) (λ f. file_fault file.now ≡ Some f) }
    {
        if file.len() < HEADER || !file.starts_with(b"TLR") {
            return Err(FileFault::NotARecording);
        }
        if u16::from_le_bytes([file[4], file[5]]) != VERSION {
            return Err(FileFault::Version);
        }
        let discipline = DisciplineKind::try_from(file[3]).map_err(|_| FileFault::Discipline)?;
        let count = usize::from(u16::from_le_bytes([file[6], file[7]]));
        if count > MOST_RECORDS || file.len() != HEADER + RECORD * count {
            return Err(FileFault::Length);
        }
        Ok(Header {
            discipline,
            mask: mask(file),
            count,
        })
    }
}

fn mask(file: &[u8]) -> u64
    requires { 16 ≤ length file.now }
    ensures { result ≡ number_at 8 8 file.now }
{
    u64::from_le_bytes([
        file[8], file[9], file[10], file[11], file[12], file[13], file[14], file[15],
    ])
}
