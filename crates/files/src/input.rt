//! The bytes of a recording from a reader.
ghost use Rattle.std.specs.Prelude.{◌≡◌, take, IfOk, IfSome};
ghost use Rattle.std.specs.Option.{option_map};

use crate::header::{HEADER, MOST_RECORDS};
use recording::record::RECORD;
use std::alloc::Global;
use std::io;
use std::io::Read;

/// One byte more than the longest recording has, so that a longer input has a wrong length too.
const LIMIT: u64 = (HEADER + RECORD * MOST_RECORDS + 1) as u64;

/// What the reader has left, cut where it is longer than any recording.
pub fn input<R: Read + Drop>(heap: Global, reader: R) -> io::Result<Vec<u8>>
    ensures { IfOk result (λ v. IfSome (option_map (take 6161) (R.remaining reader)) (λ bytes. v.items ≡ bytes)) }
{
    let mut bytes = Vec::new(heap);
    reader.take(LIMIT).read_to_end(&mut bytes)?;
    Ok(bytes)
}
