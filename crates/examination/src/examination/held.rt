//! Which positions are held.
ghost use Rattle.examination.specs.Calls.{Told};
ghost use Rattle.examination.specs.Holding.{held, FairlyHeld};

use crate::examination::Examination;
use dispatch::discipline::Discipline;
use rules::faults::NotHeld;

impl<D: Discipline + Drop> Examination<D> {
    /// Refuses two positions that are not both held.
    pub(crate) fn check_held(&self, i: usize, j: usize) -> Result<(), NotHeld>
        ensures told { Told (held self.now) i j result }
        ensures fair { FairlyHeld self.now }
    {
        if i.max(j) < self.races().rows.len() {
            Ok(())
        } else {
            Err(NotHeld)
        }
    }
}
