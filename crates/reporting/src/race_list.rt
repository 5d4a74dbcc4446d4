//! The race list of an examination as a list of its own.
ghost use Rattle.std.specs.Prelude.{IfOk};
ghost use Rattle.rules.specs.Answers.{In, RaceList};
ghost use Rattle.rules.specs.Numbers.{Passes};
ghost use Rattle.rules.specs.declared.race.RaceRow.{RaceRow};
ghost use Rattle.examination.specs.Holding.{held};
ghost use Rattle.reporting.specs.Lists.{Lists};

use dispatch::discipline::Discipline;
use examination::examination::Examination;
use rules::faults::TooShort;
use rules::race::RaceRow;
use std::alloc::{AllocError, Global};

/// How many places are tried first, before the races are counted.
const FEW: usize = 8192;

/// What a place holds before it is written.
const UNWRITTEN: RaceRow = RaceRow {
    earlier: 0,
    later: 0,
    class: 0,
};

/// The race list, where so many places are enough for it: plain rows, as the places are that are lent.
// one `Result` in the other: want of memory ends the report, and too few places do not
fn list_in<D: Discipline + Drop>(
    heap: Global,
    examination: &Examination<D>,
    places: usize,
) -> Result<Result<Vec<RaceRow>, TooShort>, AllocError>
    ensures pass { IfOk result (λ list. IfOk list (λ races. ((r : RaceRow) → In r races.items → Passes r))) }
    ensures listed { IfOk result (Lists (D.Discipline.precedence examination.now.discipline) (held examination.now) places) }
{
    let mut races = vec![in heap; UNWRITTEN; places]?;
    match examination.list(&mut races) {
        Ok(written) => {
            races.truncate(written);
            Ok(Ok(races))
        }
        Err(short) => Ok(Err(short)),
    }
}

/// The race list.
pub(crate) fn races_of<D: Discipline + Drop>(
    heap: Global,
    examination: &Examination<D>,
) -> Result<Vec<RaceRow>, AllocError>
    ensures pass { IfOk result (λ races. ((r : RaceRow) → In r races.items → Passes r)) }
    ensures listed { IfOk result (λ races. RaceList (D.Discipline.precedence examination.now.discipline) (held examination.now) races.items) }
{
    match list_in(heap, examination, FEW)? {
        Ok(races) => Ok(races),
        // a second list of the same operations needs as many places as the first
        Err(short) => Ok(list_in(heap, examination, short.needed)?.unwrap()),
    }
}
