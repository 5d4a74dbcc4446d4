//! The record of a task.
ghost use Rattle.std.specs.Prelude.{◌≡◌, ℕ};
ghost use Rattle.recording.specs.Rows.{row_of};
ghost use Rattle.tables.specs.Records.{waits_at};
ghost use Rattle.tables.specs.Steps.{posted_at, retasked};

use recording::action::Action;

/// The post of a task: its position, and the thread that it posts to.
// plain numbers: what an operation makes of a task is said of any row, lawful or not
#[derive(Clone, Copy)]
pub struct Posting {
    pub position: u16,
    pub target: u16,
}

#[derive(Clone, Copy)]
pub struct TaskRecord {
    pub(crate) posting: Option<Posting>,
    // beside the post, which is asked for before the begin and after it
    pub(crate) begun: bool,
}

impl Posting {
    /// The post at a position; all positions are below 512.
    fn at(position: usize, target: u16) -> Option<Posting>
        ensures { result ≡ posted_at position target }
    {
        (position < 512).then(|| Posting {
            position: position as u16,
            target,
        })
    }
}

impl TaskRecord {
    /// Whether the task is posted to the thread and not begun.
    pub(crate) fn waits_at(self, thread: u16) -> bool
        ensures { result ≡ waits_at self thread }
    {
        !self.begun && self.posting.is_some_and(|posting| posting.target == thread)
    }
}

/// Takes the step of an accepted operation at its position.
pub(crate) fn step(tasks: &mut [TaskRecord; 512], action: Action, position: usize)
    ensures { (t : ℕ) → tasks.new ≡ retasked (row_of t action) position tasks.old }
{
    match action {
        Action::Post(task, target, _) => {
            tasks[task.number() as usize].posting = Posting::at(position, target.number());
        }
        Action::Begin(task) => tasks[task.number() as usize].begun = true,
        _ => {}
    }
}
