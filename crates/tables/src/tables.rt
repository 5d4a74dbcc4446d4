//! The tables of threads, locks and tasks.
ghost use Rattle.std.specs.Prelude.{◌≡◌, ℕ, ◌<◌, ◌≤◌, Bool, ◌&&◌, ltb, List, [], ◌∷◌, ◌++◌, length, if◌then◌else◌, None, nat_lt};
ghost use Rattle.recording.specs.Rows.{row_of};
ghost use Rattle.recording.specs.declared.row.Row.{Row};
ghost use Rattle.recording.specs.Masks.{bit};
ghost use Rattle.rules.specs.Acceptance.{Judged};
ghost use Rattle.tables.specs.Matches.{Matches, table_refusal};
ghost use Rattle.tables.specs.Records.{thread_at, holder_at, task_at, unstarted, waits_at};
ghost use Rattle.tables.specs.Steps.{changed, TakenIn};

use crate::tasks::{Posting, TaskRecord};
use crate::threads::{Stage, ThreadRecord};
use crate::{locks, tasks};
use recording::action::Action;
use recording::numbers::{Lock, Task, Thread};
use recording::operation::Operation;
use recording::row::Row;
use rules::faults::StateFault;
use std::array;

mod judging;

/// What the held operations have made of each thread, lock and task.
// no invariant says which these operations are: their list is not stored here
#[derive(Clone, Copy)]
pub struct Tables {
    threads: [ThreadRecord; 64],
    /// The thread that holds each lock.
    // a plain number: what an operation makes of a lock is said of any row, lawful or not
    holders: [Option<u16>; 64],
    tasks: [TaskRecord; 512],
}

impl Tables {
    /// Where nothing is held: the threads of the mask are created, all others unknown.
    pub fn new(mask: u64) -> Self
        ensures { Matches (bit mask) [] result }
    {
        Tables {
            threads: first_threads(mask),
            holders: [None; 64],
            tasks: [TaskRecord {
                posting: None,
                begun: false,
            }; 512],
        }
    }

    fn thread(&self, thread: Thread) -> ThreadRecord
        ensures { result ≡ thread_at self.now.threads thread.number }
    {
        self.threads[thread.number() as usize]
    }

    fn holder(&self, lock: Lock) -> Option<u16>
        ensures { result ≡ holder_at self.now.holders lock.number }
    {
        self.holders[lock.number() as usize]
    }

    fn task(&self, task: Task) -> TaskRecord
        ensures { result ≡ task_at self.now.tasks task.number }
    {
        self.tasks[task.number() as usize]
    }

    /// Why the operation is turned away, whatever the discipline and however many are held.
    pub fn judge(&self, operation: Operation) -> Result<(), StateFault>
        ensures { (initial : ℕ → Bool) (held : List Row) → Matches initial held self.now → Judged (table_refusal initial held operation.row) result }
    {
        self.judge_action(operation.thread(), operation.action())
    }

    /// Takes the step of an accepted operation at its position.
    pub fn accept(&mut self, operation: Operation, position: usize)
        ensures agrees { (initial : ℕ → Bool) (held : List Row) → Matches initial held self.old → table_refusal initial held operation.row ≡ None → position ≡ length held → position < 512 → Matches initial (held ++ operation.row ∷ []) self.new }
        ensures steps { TakenIn operation.row position self.old self.new }
    {
        let thread = operation.thread();
        let action = operation.action();
        let changed = changed_thread(thread, action);
        self.threads[changed.number() as usize].step(action);
        locks::step(&mut self.holders, thread.number(), action);
        tasks::step(&mut self.tasks, action, position);
    }

    /// The number of the thread's current task.
    pub fn current(&self, thread: Thread) -> Option<u16>
        ensures { result ≡ (thread_at self.now.threads thread.number).current }
    {
        self.thread(thread).current
    }

    /// Whether the thread loops on its queue.
    pub fn is_looping(&self, thread: Thread) -> bool
        ensures { result ≡ (thread_at self.now.threads thread.number).looping }
    {
        self.thread(thread).looping
    }

    /// Whether the task with this number waits at the thread; there are no tasks from 512 on.
    pub fn waits(&self, thread: Thread, task: u16) -> bool
        ensures { result ≡ (nat_lt task 512 && waits_at (task_at self.now.tasks task) thread.number) }
    {
        self.tasks
            .get(task as usize)
            .is_some_and(|record| record.waits_at(thread.number()))
    }

    /// The post of the task with this number; there are no tasks from 512 on.
    pub fn posting(&self, task: u16) -> Option<Posting>
        ensures { result ≡ (if ltb task 512 then (task_at self.now.tasks task).posting else None) }
    {
        self.tasks
            .get(task as usize)
            .and_then(|record| record.posting)
    }
}

/// The record of thread n where nothing is held.
fn first_thread(mask: u64, n: usize) -> ThreadRecord
    requires { n < 64 }
    ensures { result ≡ unstarted (bit mask n) }
{
    let stage = if (mask >> n) % 2 == 1 {
        Stage::Created
    } else {
        Stage::Unknown
    };
    ThreadRecord {
        stage,
        queue: false,
        looping: false,
        current: None,
    }
}

fn first_threads(mask: u64) -> [ThreadRecord; 64]
    ensures whole { length result ≡ 64 }
    ensures each { (t : ℕ) → t < 64 → thread_at result t ≡ unstarted (bit mask t) }
{
    array::from_fn(|n| first_thread(mask, n))
}

/// The one thread whose record an operation changes.
fn changed_thread(thread: Thread, action: Action) -> Thread
    ensures { result.number ≡ changed (row_of thread.number action) }
{
    match action {
        Action::Fork(target) => target,
        _ => thread,
    }
}
