//! Recordings worked through, as one table and one theorem about all of it: definitions and theorems only.
#![tactic(auto)]

ghost use Rattle.worked.specs.Table.{RecordingsStand};

/// Every worked recording is examined as the table says.
pub fn recordings_stand()
    ensures { RecordingsStand }
{}
