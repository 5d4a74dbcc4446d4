//! What only the discipline tells of an operation.
ghost use Rattle.std.specs.Prelude.{◌≡◌, ℕ, ◌<◌, Bool, ◌&&◌};
ghost use Rattle.recording.specs.declared.row.Row.{Row};
ghost use Rattle.recording.specs.Masks.{bit};
ghost use Rattle.happens_before.specs.Theorems.{InRange, AllInRange};
ghost use Rattle.rules.specs.Acceptance.{Judged, opened, overtakes, posts_to};
ghost use Rattle.tables.specs.Matches.{Matches};
ghost use Rattle.examination.specs.Refusals.{discipline_refusal, goes_ahead};

use dispatch::discipline::Discipline;
use ordering::past::Past;
use recording::action::Action;
use recording::code::Code;
use recording::marks::Marks;
use recording::numbers::{Task, Thread};
use recording::operation::Operation;
use recording::row::Row;
use rules::faults::StateFault;

/// Whether the row posts to the thread.
fn posts_to(row: Row, thread: Thread) -> bool
    ensures { result ≡ posts_to thread.number row }
{
    row.code == Code::Post as u8 && u16::from(row.target) == thread.number()
}

/// Whether the row posts a task that waits at the thread and precedes the one that `later` posts.
fn is_ahead<D: Discipline>(past: &Past<'_, D>, thread: Thread, earlier: Row, later: Row) -> bool
    ensures { (initial : ℕ → Bool) → Matches initial past.now.rows.now past.now.tables.now → InRange earlier → result ≡ goes_ahead (D.Discipline.precedence past.now.discipline.now) past.now.rows.now thread.number later earlier }
{
    posts_to(earlier, thread)
        && past.tables.waits(thread, earlier.item)
        && past
            .discipline
            .precedes(Marks::from(earlier), Marks::from(later))
}

/// Whether a task that waits at the thread, posted before this one was, precedes it.
fn is_overtaken<D: Discipline>(past: &Past<'_, D>, thread: Thread, task: Task) -> bool
    ensures { (initial : ℕ → Bool) → Matches initial past.now.rows.now past.now.tables.now → AllInRange past.now.rows.now → result ≡ overtakes (D.Discipline.precedence past.now.discipline.now) past.now.rows.now thread.number task.number }
{
    let Some(posting) = past.tables.posting(task.number()) else {
        return false;
    };
    let later = posting.position as usize;
    let Some(post) = past.rows.get(later) else {
        return false;
    };
    past.rows[..later].iter().any(
        |earlier|
            ensures { (initial : ℕ → Bool) → Matches initial past.entry.now.rows.now past.entry.now.tables.now → InRange earlier.now → result ≡ goes_ahead (D.Discipline.precedence past.entry.now.discipline.now) past.entry.now.rows.now thread.number post.entry.now earlier.now }
        { is_ahead(past, thread, *earlier, *post) },
    )
}

/// Turns the operation away where only the discipline does.
pub(crate) fn judge_turn<D: Discipline>(
    past: &Past<'_, D>,
    operation: Operation,
) -> Result<(), StateFault>
    ensures { (mask : ℕ) → Matches (bit mask) past.now.rows.now past.now.tables.now → AllInRange past.now.rows.now → Judged (discipline_refusal (opened (D.Discipline.admission past.now.discipline.now) (D.Discipline.precedence past.now.discipline.now) mask) past.now.rows.now operation.row) result }
{
    match operation.action() {
        Action::Begin(task) if is_overtaken(past, operation.thread(), task) => {
            Err(StateFault::OutOfTurn)
        }
        Action::Post(_, _, marks) if !past.discipline.admits(marks) => Err(StateFault::NotAdmitted),
        _ => Ok(()),
    }
}
