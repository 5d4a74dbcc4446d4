//! What the tables turn an operation away for.
ghost use Rattle.std.specs.Prelude.{◌≡◌, if◌then◌else◌, Some, None, nat_eq};
ghost use Rattle.recording.specs.Codes.{threadinit};
ghost use Rattle.recording.specs.Rows.{row_of};
ghost use Rattle.rules.specs.Acceptance.{Judged};
ghost use Rattle.tables.specs.Judging.{begin_fault, post_fault, verdict};
ghost use Rattle.tables.specs.Records.{is_created, is_running};

use crate::tables::Tables;
use crate::tasks::TaskRecord;
use crate::threads::{Stage, ThreadRecord};
use recording::action::Action;
use recording::numbers::Thread;
use rules::faults::StateFault;

impl Tables {
    pub(crate) fn judge_action(&self, thread: Thread, action: Action) -> Result<(), StateFault>
        ensures { Judged (verdict self.now (row_of thread.number action)) result }
    {
        let own = self.thread(thread);
        ensure(is_ready(own.stage, action), StateFault::ThreadNotReady)?;
        match action {
            Action::Fork(target) => ensure(
                self.thread(target).stage == Stage::Unknown,
                StateFault::WrongTarget,
            ),
            Action::Join(target) => ensure(
                self.thread(target).stage == Stage::Finished,
                StateFault::WrongTarget,
            ),
            Action::AttachQ => ensure(!own.queue, StateFault::WrongQueue),
            Action::LoopOnQ => ensure(own.queue && !own.looping, StateFault::WrongQueue),
            Action::Post(task, target, _) => judge_post(self.thread(target), self.task(task)),
            Action::Begin(task) => judge_begin(own, thread, self.task(task)),
            Action::End(task) => ensure(own.current == Some(task.number()), StateFault::OutOfTurn),
            Action::Acquire(lock) => ensure(
                self.holder(lock)
                    .is_none_or(|holder| holder == thread.number()),
                StateFault::WrongLock,
            ),
            Action::Release(lock) => ensure(
                self.holder(lock) == Some(thread.number()),
                StateFault::WrongLock,
            ),
            Action::ThreadInit
            | Action::ThreadExit
            | Action::Enable(_)
            | Action::Read(_)
            | Action::Write(_) => Ok(()),
        }
    }
}

/// Created for threadinit, running for all else.
fn is_ready(stage: Stage, action: Action) -> bool
    ensures { result ≡ (if nat_eq (row_of 0 action).code threadinit then is_created stage else is_running stage) }
{
    match action {
        Action::ThreadInit => stage == Stage::Created,
        _ => stage == Stage::Running,
    }
}

/// Refuses where the test fails.
fn ensure(test: bool, fault: StateFault) -> Result<(), StateFault>
    ensures { Judged (if test then None else Some fault) result }
{
    if test { Ok(()) } else { Err(fault) }
}

fn judge_post(target: ThreadRecord, task: TaskRecord) -> Result<(), StateFault>
    ensures { Judged (post_fault target task) result }
{
    ensure(
        target.stage == Stage::Running && target.queue,
        StateFault::WrongTarget,
    )?;
    ensure(task.posting.is_none(), StateFault::OutOfTurn)
}

fn judge_begin(own: ThreadRecord, thread: Thread, task: TaskRecord) -> Result<(), StateFault>
    ensures { Judged (begin_fault own thread.number task) result }
{
    ensure(own.looping, StateFault::WrongQueue)?;
    ensure(
        own.current.is_none() && task.waits_at(thread.number()),
        StateFault::OutOfTurn,
    )
}
