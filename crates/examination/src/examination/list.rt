//! The race list.
ghost use Rattle.std.specs.Prelude.{List};
ghost use Rattle.rules.specs.Answers.{RaceList};
ghost use Rattle.rules.specs.declared.race.RaceRow.{RaceRow};
ghost use Rattle.races.specs.Listing.{Kept, Listed};
ghost use Rattle.examination.specs.Holding.{held, FairlyHeld};

use crate::examination::Examination;
use dispatch::discipline::Discipline;
use rules::faults::TooShort;
use rules::race::RaceRow;

impl<D: Discipline + Drop> Examination<D> {
    /// Writes the race list into the first places and answers the number of races.
    pub fn list(&self, places: &mut [RaceRow]) -> Result<usize, TooShort>
        ensures kept { Kept places.old places.new result }
        ensures fair { FairlyHeld self.now }
        ensures listed { (races : List RaceRow) × RaceList (D.Discipline.precedence self.now.discipline) (held self.now) races × Listed races places.old places.new result }
    {
        self.races().list(places)
    }
}
