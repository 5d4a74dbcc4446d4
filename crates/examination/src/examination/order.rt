//! The order of two positions.
ghost use Rattle.std.specs.Prelude.{◌≡◌, ◌<◌, true, ◌↔◌, length, IfOk};
ghost use Rattle.happens_before.specs.Order.{Before};
ghost use Rattle.rules.specs.Answers.{Ordered};
ghost use Rattle.examination.specs.Calls.{Told};
ghost use Rattle.examination.specs.Holding.{held, FairlyHeld};

use crate::examination::Examination;
use dispatch::discipline::Discipline;
use rules::faults::NotHeld;
use rules::order::Order;

impl<D: Discipline + Drop> Examination<D> {
    /// Whether the operation at `earlier` is before the one at `later`.
    fn is_before(&self, earlier: usize, later: usize) -> bool
        requires { later < length (held self.now) }
        ensures { (result ≡ true) ↔ Before (D.Discipline.precedence self.now.discipline) (held self.now) earlier later }
    {
        self.races().is_before(earlier, later)
    }

    /// How the first position stands to the second.
    pub fn order(&self, i: usize, j: usize) -> Result<Order, NotHeld>
        ensures told { Told (held self.now) i j result }
        ensures fair { FairlyHeld self.now }
        ensures ordered { IfOk result (Ordered (D.Discipline.precedence self.now.discipline) (held self.now) i j) }
    {
        self.check_held(i, j)?;
        Ok(if i == j {
            Order::Same
        } else if self.is_before(i, j) {
            Order::Before
        } else if self.is_before(j, i) {
            Order::After
        } else {
            Order::Unordered
        })
    }
}
