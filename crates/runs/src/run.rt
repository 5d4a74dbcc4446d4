//! Whole runs.
ghost use Rattle.std.specs.Prelude.{List, [], map, IfOk};
ghost use Rattle.recording.specs.declared.row.Row.{Row};
ghost use Rattle.rules.specs.Runs.{Run, SameRenamed};
ghost use Rattle.runs.specs.Calls.{call_of, answer_of};
ghost use Rattle.rules.specs.Acceptance.{opened};

use crate::calls::{Answer, Call};
use crate::step::make;
use dispatch::discipline::Discipline;
use examination::examination::Examination;
use std::alloc::{AllocError, Global};

/// Opens an examination and makes every call in turn, going on after refusals.
/// All memory is got before the first call.
pub fn run<D: Discipline + Drop>(
    heap: Global,
    discipline: D,
    mask: u64,
    calls: Vec<Call>,
) -> Result<Vec<Answer>, AllocError>
    ensures ran { IfOk result (λ answers. ((left : List Row) × Run (opened (D.Discipline.admission discipline) (D.Discipline.precedence discipline) mask) [] (map call_of calls.items) (map answer_of answers.items) left)) }
    ensures renamed { IfOk result (λ answers. SameRenamed (opened (D.Discipline.admission discipline) (D.Discipline.precedence discipline) mask) (map call_of calls.items) (map answer_of answers.items)) }
{
    let mut examination = Examination::open(heap, discipline, mask)?;
    let mut answers = Vec::with_capacity(heap, calls.len())?;
    for call in calls {
        answers.push_reserved(make(&mut examination, call));
    }
    Ok(answers)
}
