//! The state after each accepted operation.
ghost use Rattle.std.specs.Prelude.{◌≡◌, ℕ, ◌<◌, ◌≤◌, Bool, false, List, [], ◌∷◌, ◌++◌, length};
ghost use Rattle.recording.specs.Rows.{operation_row};
ghost use Rattle.recording.specs.declared.row.Row.{Row};
ghost use Rattle.recording.specs.Masks.{bit};
ghost use Rattle.rules.specs.Fair.{FairTables, refused_by_tables};
ghost use Rattle.examination.specs.Follows.{Follows};

use crate::state::State;
use index::sets::Index;
use ordering::column::task_of;
use recording::operation::Operation;
use recording::row::Row;
use tables::tables::Tables;

impl State {
    /// The state where nothing is held.
    pub(crate) fn new(mask: u64) -> State
        ensures { Follows (bit mask) [] result }
    {
        State {
            tables: Tables::new(mask),
            index: Index::new(),
        }
    }

    /// Takes the step of an accepted operation at its position.
    pub(crate) fn accept(&mut self, operation: Operation, position: usize)
        ensures { (initial : ℕ → Bool) (held : List Row) → Follows initial held self.old → refused_by_tables initial held (operation_row operation) ≡ false → position ≡ length held → position < 512 → Follows initial (held ++ operation_row operation ∷ []) self.new }
    {
        let task = task_of(&self.tables, operation);
        let looping = self.tables.is_looping(operation.thread());
        self.index
            .note_operation(operation, position, looping, task);
        self.tables.accept(operation, position);
    }

    /// The state that follows from held rows; a row that is no operation is passed over.
    pub(crate) fn rebuild(mask: u64, rows: &[Row]) -> State
        ensures { FairTables (bit mask) rows.now → length rows.now ≤ 512 → Follows (bit mask) rows.now result }
    {
        let mut state = State::new(mask);
        for (position, row) in rows.iter().enumerate() {
            if let Ok(operation) = Operation::try_from(*row) {
                state.accept(operation, position);
            }
        }
        state
    }
}
