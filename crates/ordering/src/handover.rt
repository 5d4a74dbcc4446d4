//! What stands before the begin of a task: its post, and the ends of tasks that hand over to it.
//! Where that post stands is checked once, in `add_begin`; the bounds are handed on from there.
ghost use Rattle.std.specs.Prelude.{◌≡◌, ℕ, ◌<◌, Bool, true, ◌⊎◌, ◌↔◌, length};
ghost use Rattle.happens_before.specs.Trace.{row, marks, Posts};
ghost use Rattle.happens_before.specs.Theorems.{AllInRange};
ghost use Rattle.columns.specs.Positions.{has};
ghost use Rattle.tables.specs.Matches.{Matches};
ghost use Rattle.rules.specs.Columns.{pairs_in};
ghost use Rattle.ordering.specs.Agrees.{Agrees};
ghost use Rattle.ordering.specs.Directly.{Hands, Ended, Handed};

use crate::past::Past;
use columns::column::Column;
use dispatch::discipline::Discipline;
use recording::marks::Marks;
use recording::numbers::Thread;
use recording::row::Row;

impl<D: Discipline> Past<'_, D> {
    /// Whether the discipline has the post at `earlier` precede the one at `later`.
    fn precedes(&self, earlier: usize, later: usize) -> bool
        requires { (earlier < length self.now.rows.now) × (later < length self.now.rows.now) }
        ensures { result ≡ D.Discipline.precedence self.now.discipline.now (marks self.now.rows.now earlier) (marks self.now.rows.now later) }
    {
        let earlier = Marks::from(self.rows[earlier]);
        let later = Marks::from(self.rows[later]);
        self.discipline.precedes(earlier, later)
    }

    /// Whether the post of a task is before the one at `later` and precedes it.
    fn is_queued(&self, task: u16, later: usize) -> bool
        requires columns { later < length self.now.columns.now }
        requires rows { later < length self.now.rows.now }
        ensures { (initial : ℕ → Bool) → Matches initial self.now.rows.now self.now.tables.now → task < 512 → (result ≡ true) ↔ ((a : ℕ) × (a < length self.now.rows.now) × Posts self.now.rows.now a task × (pairs_in self.now.columns.now a later ≡ true) × (D.Discipline.precedence self.now.discipline.now (marks self.now.rows.now a) (marks self.now.rows.now later) ≡ true)) }
    {
        let Some(first) = self.tables.posting(task) else {
            return false;
        };
        let earlier = first.position as usize;
        earlier < self.rows.len()
            && self.columns[later].contains(earlier)
            && self.precedes(earlier, later)
    }

    /// Whether a task hands over to the one whose post stands at `later`.
    fn hands_over(&self, task: u16, later: usize) -> bool
        requires columns { later < length self.now.columns.now }
        requires rows { later < length self.now.rows.now }
        ensures { (initial : ℕ → Bool) → Agrees initial self.now → task < 512 → (result ≡ true) ↔ Hands (D.Discipline.precedence self.now.discipline.now) (pairs_in self.now.columns.now) self.now.rows.now task later }
    {
        self.index
            .reaches(task as usize, later, &self.columns[later])
            || self.is_queued(task, later)
    }

    /// Whether the thread ends a task by the row at `position` that hands over to the task whose post stands at `later`.
    fn is_handed(&self, thread: Thread, later: usize, position: usize, end: Row) -> bool
        requires columns { later < length self.now.columns.now }
        requires rows { later < length self.now.rows.now }
        requires held { (position < length self.now.rows.now) × (end ≡ row self.now.rows.now position) }
        ensures { (initial : ℕ → Bool) → Agrees initial self.now → AllInRange self.now.rows.now → (result ≡ true) ↔ Ended (D.Discipline.precedence self.now.discipline.now) (pairs_in self.now.columns.now) self.now.rows.now thread.number later position }
    {
        self.index.ends(thread).contains(position) && self.hands_over(end.item, later)
    }

    /// Adds the post at `later`, and the ends by the thread of tasks that hand over to its task.
    pub(crate) fn add_handovers(&self, thread: Thread, later: usize, column: &mut Column)
        requires columns { later < length self.now.columns.now }
        requires rows { later < length self.now.rows.now }
        ensures { (initial : ℕ → Bool) → Agrees initial self.now → AllInRange self.now.rows.now → (i : ℕ) → (has column.new i ≡ true) ↔ ((has column.old i ≡ true) ⊎ Handed (D.Discipline.precedence self.now.discipline.now) (pairs_in self.now.columns.now) self.now.rows.now thread.number later i) }
    {
        column.insert(later);
        for (position, row) in self.rows.iter().enumerate() {
            if self.is_handed(thread, later, position, *row) {
                column.insert(position);
            }
        }
    }
}
