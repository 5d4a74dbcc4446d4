//! The record of a thread.
ghost use Rattle.std.specs.Prelude.{◌≡◌, ℕ};
ghost use Rattle.recording.specs.Rows.{row_of};
ghost use Rattle.tables.specs.Steps.{stepped};

use recording::action::Action;

#[derive(Clone, Copy, PartialEq, Eq, Debug)]
pub enum Stage {
    Unknown,
    Created,
    Running,
    Finished,
}

#[derive(Clone, Copy)]
pub struct ThreadRecord {
    pub(crate) stage: Stage,
    // flags beside the stage: a thread keeps its queue when it has finished
    pub(crate) queue: bool,
    pub(crate) looping: bool,
    /// The current task.
    // a plain number: what an operation makes of a thread is said of any row, lawful or not
    pub(crate) current: Option<u16>,
}

impl ThreadRecord {
    /// Takes the step of an accepted operation that changes this thread.
    pub(crate) fn step(&mut self, action: Action)
        ensures { (t : ℕ) → self.new ≡ stepped (row_of t action) self.old }
    {
        match action {
            Action::ThreadInit => self.stage = Stage::Running,
            Action::ThreadExit => self.stage = Stage::Finished,
            Action::Fork(_) => self.stage = Stage::Created,
            Action::AttachQ => self.queue = true,
            Action::LoopOnQ => self.looping = true,
            Action::Begin(task) => self.current = Some(task.number()),
            Action::End(_) => self.current = None,
            _ => {}
        }
    }
}
