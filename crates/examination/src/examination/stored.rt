//! What is stored, lent to the crates below.
ghost use Rattle.examination.specs.Stored.{IsPast, IsHeld};

use crate::examination::Examination;
use dispatch::discipline::Discipline;
use ordering::past::Past;
use races::held::Held;

impl<D: Discipline + Drop> Examination<D> {
    /// By which an added operation is judged and placed.
    pub(crate) fn past(&self) -> Past<'_, D>
        ensures { IsPast D.Discipline.precedence self.now result }
    {
        Past {
            discipline: &self.discipline,
            rows: &self.rows,
            columns: &self.columns,
            tables: &self.state.tables,
            index: &self.state.index,
        }
    }

    /// By which races are told.
    pub(crate) fn races(&self) -> Held<'_>
        ensures { IsHeld D.Discipline.precedence self.now result }
    {
        Held {
            rows: &self.rows,
            columns: &self.columns,
            nearests: &self.nearests,
        }
    }
}
