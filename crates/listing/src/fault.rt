//! The line of a fault.
ghost use Rattle.std.specs.Prelude.{◌≡◌, ◌++◌, IfOk, string_bytes, codes};
ghost use Rattle.files.specs.Texts.{fault_text};

use files::faults::read::ReadFault;
use std::alloc::{AllocError, Global};

/// The line that says a file's fault.
pub fn fault_line(heap: Global, fault: ReadFault) -> Result<String, AllocError>
    ensures { IfOk result (λ s. string_bytes s ≡ fault_text fault ++ codes "\n") }
{
    format!(in heap; "{fault}\n")
}
