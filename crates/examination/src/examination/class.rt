//! The race class of two positions.
ghost use Rattle.std.specs.Prelude.{IfOk};
ghost use Rattle.rules.specs.Answers.{Classed};
ghost use Rattle.rules.specs.Numbers.{class_number};
ghost use Rattle.examination.specs.Calls.{Told};
ghost use Rattle.examination.specs.Holding.{held, FairlyHeld};

use crate::examination::Examination;
use dispatch::discipline::Discipline;
use rules::faults::NotHeld;
use rules::race::RaceClass;

impl<D: Discipline + Drop> Examination<D> {
    /// The class of two positions in either order; none where they do not race.
    pub fn class(&self, i: usize, j: usize) -> Result<Option<RaceClass>, NotHeld>
        ensures told { Told (held self.now) i j result }
        ensures fair { FairlyHeld self.now }
        ensures classed { IfOk result (λ c. Classed (D.Discipline.precedence self.now.discipline) (held self.now) i j (class_number c)) }
    {
        self.check_held(i, j)?;
        Ok(self.races().class(i, j))
    }
}
