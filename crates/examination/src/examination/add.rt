//! Adding an operation.
ghost use Rattle.std.specs.Prelude.{◌≡◌, ℕ, true, ◌↔◌, [], ◌∷◌, ◌++◌, length, IfOk, None};
ghost use Rattle.columns.specs.Positions.{has};
ghost use Rattle.happens_before.specs.Order.{Before};
ghost use Rattle.recording.specs.Rows.{operation_row};
ghost use Rattle.rules.specs.Acceptance.{Judged, refusal};
ghost use Rattle.rules.specs.Answers.{Count};
ghost use Rattle.races.specs.Chains.{NearestTo};
ghost use Rattle.examination.specs.Holding.{held, setting_of, SameSetting, FairlyHeld};
ghost use Rattle.examination.specs.Calls.{Adds};

use crate::chain::post_of;
use crate::examination::Examination;
use crate::examination::added::Added;
use crate::examination::open::MOST;
use crate::turn::judge_turn;
use columns::column::Column;
use dispatch::discipline::Discipline;
use ordering::column::task_of;
use races::nearest::NearestPosts;
use recording::operation::Operation;
use rules::faults::StateFault;

impl<D: Discipline + Drop> Examination<D> {
    /// Turns the operation away where it is to be refused.
    fn judge(&self, operation: Operation) -> Result<(), StateFault>
        ensures { Judged (refusal (setting_of D.Discipline.admission D.Discipline.precedence self.now) (held self.now) (operation_row operation)) result }
    {
        let past = self.past();
        if past.rows.len() >= MOST {
            return Err(StateFault::Full);
        }
        past.tables.judge(operation)?;
        judge_turn(&past, operation)
    }

    /// What is before an operation that nothing turns away.
    fn column_of(&self, operation: Operation) -> Column
        requires { refusal (setting_of D.Discipline.admission D.Discipline.precedence self.now) (held self.now) (operation_row operation) ≡ None }
        ensures { (i : ℕ) → (has result i ≡ true) ↔ Before (D.Discipline.precedence self.now.discipline) (held self.now ++ operation_row operation ∷ []) i (length (held self.now)) }
    {
        let past = self.past();
        past.predecessors(operation, task_of(past.tables, operation))
    }

    /// The nearest posts of an operation that nothing turns away.
    fn nearest_of(&self, operation: Operation) -> NearestPosts
        requires { refusal (setting_of D.Discipline.admission D.Discipline.precedence self.now) (held self.now) (operation_row operation) ≡ None }
        ensures { NearestTo (held self.now ++ operation_row operation ∷ []) (length (held self.now)) result }
    {
        let tables = self.past().tables;
        let post = post_of(tables, task_of(tables, operation));
        self.races().nearest_of(operation.thread(), post)
    }

    /// Files an operation that nothing turns away.
    fn file(&mut self, operation: Operation) -> Added
        requires { refusal (setting_of D.Discipline.admission D.Discipline.precedence self.old) (held self.old) (operation_row operation) ≡ None }
        ensures position { result.position ≡ length (held self.old) }
        ensures holds { held self.new ≡ held self.old ++ operation_row operation ∷ [] }
        ensures setting { SameSetting self.old self.new }
        ensures fair { FairlyHeld self.new }
        ensures counts { Count (length (held self.old)) (λ i. Before (D.Discipline.precedence self.old.discipline) (held self.new) i (length (held self.old))) result.before }
    {
        let position = self.rows.len();
        let column = self.column_of(operation);
        let nearest = self.nearest_of(operation);
        self.state.accept(operation, position);
        self.rows.push_reserved(operation.row());
        self.columns.push_reserved(column);
        self.nearests.push_reserved(nearest);
        Added {
            position,
            before: column.count() as usize,
        }
    }

    /// Adds an operation at the next position, or turns it away.
    pub fn add(&mut self, operation: Operation) -> Result<Added, StateFault>
        ensures adds { Adds (setting_of D.Discipline.admission D.Discipline.precedence self.old) (held self.old) (operation_row operation) result (held self.new) }
        ensures setting { SameSetting self.old self.new }
        ensures fair { FairlyHeld self.old → FairlyHeld self.new }
        ensures counts { IfOk result (λ a. Count (length (held self.old)) (λ i. Before (D.Discipline.precedence self.old.discipline) (held self.new) i (length (held self.old))) a.before) }
    {
        self.judge(operation)?;
        Ok(self.file(operation))
    }
}
