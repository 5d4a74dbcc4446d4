//! What a record is refused for: one test after another, in the order in which they count.
ghost use Rattle.std.specs.Prelude.{◌≡◌, true, Some, None, MatchResult};
ghost use Rattle.recording.specs.Codes.{code_number};
ghost use Rattle.recording.specs.Faults.{first};
ghost use Rattle.recording.specs.Lawful.{fault_in, number_tests, zero_tests};

use crate::code::Code;
use crate::faults::record::RecordFault;
use crate::row::Row;

/// The code is known, and threads, tasks and locks that the record has are in range.
fn judge_numbers(row: Row) -> Result<Code, RecordFault>
    ensures { MatchResult result (λ code. (code_number code ≡ row.code) × (first (number_tests row) ≡ None)) (λ f. first (number_tests row) ≡ Some f) }
{
    let code = Code::try_from(row.code)?;
    if row.thread > 63 {
        return Err(RecordFault::ThreadTooLarge);
    }
    if code.has_target() && row.target > 63 {
        return Err(RecordFault::TargetTooLarge);
    }
    if code.has_task() && row.item > 511 {
        return Err(RecordFault::TaskTooLarge);
    }
    if code.has_lock() && row.item > 63 {
        return Err(RecordFault::LockTooLarge);
    }
    Ok(code)
}

/// What must be zero is.
fn judge_zeros(code: Code, row: Row) -> Result<(), RecordFault>
    requires { code_number code ≡ row.code }
    ensures { MatchResult result (λ _. first (zero_tests row) ≡ None) (λ f. first (zero_tests row) ≡ Some f) }
{
    let marks_limit = if code == Code::Post { 3 } else { 0 };
    let may_delay = code == Code::Post && row.marks >= 2;
    if !code.has_item() && row.item != 0 {
        return Err(RecordFault::ItemNotZero);
    }
    if !code.has_target() && row.target != 0 {
        return Err(RecordFault::TargetNotZero);
    }
    if row.marks > marks_limit {
        return Err(RecordFault::MarksWrong);
    }
    if row.reserved != 0 {
        return Err(RecordFault::ReservedNotZero);
    }
    if !may_delay && row.delay != 0 {
        return Err(RecordFault::DelayNotZero);
    }
    Ok(())
}

/// The record's fault, if it has one.
pub(crate) fn judge(row: Row) -> Result<(), RecordFault>
    ensures { MatchResult result (λ _. fault_in row ≡ None) (λ f. fault_in row ≡ Some f) }
{
    let code = judge_numbers(row)?;
    judge_zeros(code, row)
}
