//! Cutting.
ghost use Rattle.examination.specs.Calls.{Cuts};
ghost use Rattle.examination.specs.Holding.{held, SameSetting, FairlyHeld};

use crate::examination::Examination;
use crate::state::State;
use dispatch::discipline::Discipline;
use rules::faults::NotHeld;

impl<D: Discipline + Drop> Examination<D> {
    /// Keeps the first `n` operations, as if only these had been added.
    pub fn cut(&mut self, n: usize) -> Result<(), NotHeld>
        ensures cuts { Cuts (held self.old) n result (held self.new) }
        ensures setting { SameSetting self.old self.new }
        ensures fair { FairlyHeld self.old → FairlyHeld self.new }
    {
        if n > self.rows.len() {
            return Err(NotHeld);
        }
        self.rows.truncate(n);
        self.columns.truncate(n);
        self.nearests.truncate(n);
        let state = State::rebuild(self.mask, &self.rows);
        self.state = state;
        Ok(())
    }
}
