//! The column of a new operation.
ghost use Rattle.std.specs.Prelude.{◌≡◌, ℕ, ◌<◌, ◌≤◌, Bool, true, false, ◌⊎◌, ◌↔◌, List, [], ◌∷◌, ◌++◌, length, if◌then◌else◌, Some, ◌≢◌, nat_eq};
ghost use Rattle.recording.specs.Codes.{begin};
ghost use Rattle.recording.specs.Rows.{operation_row, row_of};
ghost use Rattle.recording.specs.declared.row.Row.{Row};
ghost use Rattle.columns.specs.Positions.{has};
ghost use Rattle.happens_before.specs.Order.{Before};
ghost use Rattle.happens_before.specs.Theorems.{AllInRange};
ghost use Rattle.happens_before.specs.Trace.{row};
ghost use Rattle.rules.specs.Acceptance.{busy};
ghost use Rattle.rules.specs.Fair.{FairTables};
ghost use Rattle.rules.specs.Options.{is_of};
ghost use Rattle.tables.specs.Matches.{Matches};
ghost use Rattle.tables.specs.Records.{thread_at};
ghost use Rattle.index.specs.Indexed.{Indexed, member_at};
ghost use Rattle.rules.specs.Columns.{pairs_in, Right};
ghost use Rattle.ordering.specs.Agrees.{Agrees};
ghost use Rattle.ordering.specs.Directly.{BegunAfter, TaskBefore, Directly};

use crate::past::Past;
use columns::closing::close;
use columns::column::Column;
use dispatch::discipline::Discipline;
use index::sets::Index;
use recording::action::Action;
use recording::numbers::{Task, Thread};
use recording::operation::Operation;
use recording::row::Row;
use tables::tables::Tables;

/// The task that an accepted operation belongs to: the one that it begins, or its thread's current one.
pub fn task_of(tables: &Tables, operation: Operation) -> Option<u16>
    ensures member { (initial : ℕ → Bool) (held : List Row) → Matches initial held tables.now → ((operation_row operation).code ≡ begin → busy held (operation_row operation).thread ≡ false) → (p : ℕ) → is_of result p ≡ member_at held p (operation_row operation) }
    ensures found { result ≡ (if nat_eq (operation_row operation).code begin then Some (operation_row operation).item else (thread_at tables.now.threads (operation_row operation).thread).current) }
{
    // a plain number: the tables may hold any where they match no held list
    match operation.action() {
        Action::Begin(task) => Some(task.number()),
        _ => tables.current(operation.thread()),
    }
}

/// Adds the operations of the task.
fn add_task_order(index: &Index, task: Option<u16>, column: &mut Column)
    ensures { (held : List Row) → Indexed held index.now → ((p : ℕ) → is_of task p ≡ true → p < 512) → (i : ℕ) → (has column.new i ≡ true) ↔ ((has column.old i ≡ true) ⊎ TaskBefore held (is_of task) i) }
{
    if let Some(task) = task {
        index.add_members(task as usize, column);
    }
}

impl<D: Discipline> Past<'_, D> {
    /// Adds what post order, queue order and run to completion put before the begin of a task.
    fn add_begin(&self, thread: Thread, task: Task, column: &mut Column)
        requires { length self.now.columns.now ≡ length self.now.rows.now }
        ensures { (initial : ℕ → Bool) → Agrees initial self.now → AllInRange self.now.rows.now → (i : ℕ) → (has column.new i ≡ true) ↔ ((has column.old i ≡ true) ⊎ BegunAfter (D.Discipline.precedence self.now.discipline.now) (pairs_in self.now.columns.now) self.now.rows.now thread.number task.number i) }
    {
        if let Some(posting) = self.tables.posting(task.number()) {
            let later = posting.position as usize;
            if later < self.rows.len() {
                self.add_handovers(thread, later, column);
            }
        }
    }

    /// What every rule but the two transitive ones puts before the operation.
    fn directly(&self, operation: Operation, task: Option<u16>) -> Column
        requires { length self.now.columns.now ≡ length self.now.rows.now }
        ensures { (initial : ℕ → Bool) → Agrees initial self.now → AllInRange self.now.rows.now → ((p : ℕ) → is_of task p ≡ member_at self.now.rows.now p (operation_row operation)) → ((p : ℕ) → is_of task p ≡ true → p < 512) → (i : ℕ) → (has result i ≡ true) ↔ ((i < length self.now.rows.now) × Directly (D.Discipline.precedence self.now.discipline.now) (pairs_in self.now.columns.now) self.now.rows.now (operation_row operation) i) }
    {
        let thread = operation.thread();
        let action = operation.action();
        let mut column = self.index.program_order(thread);
        add_task_order(self.index, task, &mut column);
        self.index.add_kinds(thread, action, &mut column);
        if let Action::Begin(task) = action {
            self.add_begin(thread, task, &mut column);
        }
        column
    }

    /// What is before an accepted operation that belongs to the task; nothing where rows and columns are not as many.
    pub fn predecessors(&self, operation: Operation, task: Option<u16>) -> Column
        ensures before { (initial : ℕ → Bool) → Agrees initial self.now → FairTables initial (self.now.rows.now ++ operation_row operation ∷ []) → length self.now.columns.now ≡ length self.now.rows.now → Right (D.Discipline.precedence self.now.discipline.now) self.now.rows.now self.now.columns.now → ((p : ℕ) → is_of task p ≡ member_at self.now.rows.now p (operation_row operation)) → (i : ℕ) → (has result i ≡ true) ↔ Before (D.Discipline.precedence self.now.discipline.now) (self.now.rows.now ++ operation_row operation ∷ []) i (length self.now.rows.now) }
        ensures apart { (length self.now.columns.now ≢ length self.now.rows.now) → (i : ℕ) → has result i ≡ false }
    {
        if self.columns.len() != self.rows.len() {
            return Column::empty();
        }
        let mut column = self.directly(operation, task);
        let own = self.index.own(operation.thread());
        close(self.columns, own, &mut column);
        column
    }
}
