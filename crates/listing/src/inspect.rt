//! A file's listing.
ghost use Rattle.std.specs.Prelude.{◌≡◌, Ok, Err, string_bytes};
ghost use Rattle.files.specs.Failures.{MatchFailure};
ghost use Rattle.files.specs.Files.{Contents, Reads};
ghost use Rattle.listing.specs.Listings.{listing_of};

use crate::lines::Listing;
use contents::recorded::Recording;
use files::faults::failure::Failure;
use files::faults::read::ReadFault;
use std::alloc::Global;

/// The lines of what a file holds, once it was read whole and written again.
pub fn inspect(heap: Global, file: &[u8]) -> Result<String, Failure<ReadFault>>
    ensures { MatchFailure result (λ text. (c : Contents) × Reads file.now (Ok c) × (string_bytes text ≡ listing_of c)) (λ f. Reads file.now (Err f)) }
{
    let recording = Recording::read(heap, file)?;
    let again = recording.to_bytes(heap)?;
    let listing = Listing {
        recording: &recording,
        again: &again,
        file,
    };
    Ok(format!(in heap; "{listing}")?)
}
