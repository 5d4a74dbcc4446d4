//! The positions that the ordering rules put before a new operation.
ghost use Rattle.std.specs.Prelude.{◌≡◌, ℕ, ◌<◌, ◌≤◌, true, false, not, ◌&&◌, ◌||◌, ◌⊎◌, ◌↔◌, List, length, take, ◌==◌, nat_lt, MatchOption};
ghost use Rattle.columns.specs.Positions.{has};
ghost use Rattle.happens_before.specs.Trace.{row};
ghost use Rattle.recording.specs.Codes.{end, release};
ghost use Rattle.recording.specs.Rows.{row_of};
ghost use Rattle.recording.specs.declared.row.Row.{Row};
ghost use Rattle.rules.specs.Acceptance.{does, is_on};
ghost use Rattle.index.specs.Given.{kindly};
ghost use Rattle.index.specs.Indexed.{Indexed, unlooped_at, member_at};
ghost use Rattle.index.specs.Sets.{members_of, of_thread};

use crate::sets::{Index, ThreadSets};
use columns::column::Column;
use recording::action::Action;
use recording::numbers::{Lock, Thread};

impl Index {
    fn thread(&self, thread: Thread) -> &ThreadSets
        ensures { result.now ≡ of_thread self.now thread.number }
    {
        &self.threads[thread.number() as usize]
    }

    /// By program order: what the thread did before it looped.
    pub fn program_order(&self, thread: Thread) -> Column
        ensures { (held : List Row) → Indexed held self.now → (i : ℕ) → has result i ≡ (nat_lt i (length held) && unlooped_at (take i held) thread.number (row held i)) }
    {
        self.thread(thread).unlooped
    }

    /// Adds the releases of a lock by other threads.
    fn add_lock_order(&self, thread: Thread, lock: Lock, column: &mut Column)
        ensures { (held : List Row) → Indexed held self.now → (i : ℕ) → has column.new i ≡ (has column.old i || (nat_lt i (length held) && (is_on release lock.number (row held i) && not ((row held i).thread == thread.number)))) }
    {
        column.join_except(&self.releases[lock.number() as usize], self.own(thread));
    }

    /// Adds what attach, enable, fork, join and lock order put before the action.
    pub fn add_kinds(&self, thread: Thread, action: Action, column: &mut Column)
        ensures { (held : List Row) → Indexed held self.now → (i : ℕ) → has column.new i ≡ (has column.old i || (nat_lt i (length held) && kindly (row held i) (row_of thread.number action))) }
    {
        match action {
            Action::Post(task, target, _) => {
                if target.number() != thread.number() {
                    column.join(&self.thread(target).attaches);
                }
                column.join(&self.tasks[task.number() as usize].enables);
            }
            Action::ThreadInit => column.join(&self.thread(thread).forks),
            Action::Join(target) => column.join(&self.thread(target).exits),
            Action::Acquire(lock) => self.add_lock_order(thread, lock, column),
            _ => {}
        }
    }

    /// The operations of a task; there is none from 512 on.
    fn members(&self, task: usize) -> Option<&Column>
        ensures { MatchOption result (512 ≤ task) (λ members. (task < 512) × (members.now ≡ members_of self.now task)) }
    {
        Some(&self.tasks.get(task)?.members)
    }

    /// Adds the operations of a task; there is none from 512 on.
    pub fn add_members(&self, task: usize, column: &mut Column)
        ensures added { (held : List Row) → Indexed held self.now → task < 512 → (i : ℕ) → has column.new i ≡ (has column.old i || (nat_lt i (length held) && member_at (take i held) task (row held i))) }
        ensures past { 512 ≤ task → column.new ≡ column.old }
    {
        if let Some(members) = self.members(task) {
            column.join(members);
        }
    }

    /// Whether some operation of a task is at the position or in the column; there is no task from 512 on.
    pub fn reaches(&self, task: usize, position: usize, column: &Column) -> bool
        ensures met { (held : List Row) → Indexed held self.now → task < 512 → (result ≡ true) ↔ ((k : ℕ) × (k < length held) × (member_at (take k held) task (row held k) ≡ true) × ((k ≡ position) ⊎ (has column.now k ≡ true))) }
        ensures past { 512 ≤ task → result ≡ false }
    {
        self.members(task).is_some_and(|members| members.contains(position)
            || members.meets(column))
    }

    /// The operations of a thread.
    pub fn own(&self, thread: Thread) -> &Column
        ensures { (held : List Row) → Indexed held self.now → (i : ℕ) → has result.now i ≡ (nat_lt i (length held) && (row held i).thread == thread.number) }
    {
        &self.thread(thread).own
    }

    /// The ends of tasks by a thread.
    pub fn ends(&self, thread: Thread) -> &Column
        ensures { (held : List Row) → Indexed held self.now → (i : ℕ) → has result.now i ≡ (nat_lt i (length held) && does end thread.number (row held i)) }
    {
        &self.thread(thread).ends
    }
}
