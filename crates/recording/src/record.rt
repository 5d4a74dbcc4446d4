//! The twelve bytes of a record.
ghost use Rattle.std.specs.Prelude.{◌≡◌};
ghost use Rattle.recording.specs.Records.{record_of, row_in};

use crate::row::Row;

/// The length of a record.
pub const RECORD: usize = 12;

// Named, as `from_le_bytes` is, and no `From`: the bytes are in this format's layout.
impl Row {
    /// The row in the bytes of a record.
    pub fn from_bytes(bytes: &[u8; RECORD]) -> Row
        ensures { result ≡ row_in bytes.now }
    {
        let [code, thread, i0, i1, target, marks, r0, r1, d0, d1, d2, d3] = *bytes;
        Row {
            code,
            thread,
            item: u16::from_le_bytes([i0, i1]),
            target,
            marks,
            reserved: u16::from_le_bytes([r0, r1]),
            delay: u32::from_le_bytes([d0, d1, d2, d3]),
        }
    }

    /// The bytes of the row's record.
    pub fn to_bytes(self) -> [u8; RECORD]
        ensures { result ≡ record_of self }
    {
        let [i0, i1] = self.item.to_le_bytes();
        let [r0, r1] = self.reserved.to_le_bytes();
        let [d0, d1, d2, d3] = self.delay.to_le_bytes();
        [
            self.code,
            self.thread,
            i0,
            i1,
            self.target,
            self.marks,
            r0,
            r1,
            d0,
            d1,
            d2,
            d3,
        ]
    }
}
