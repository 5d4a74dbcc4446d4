//! First in, first out among the posts whose time has come.
ghost use Rattle.dispatch.specs.Disciplines.{every, in_time};

use crate::discipline::Discipline;
use recording::marks::Marks;

/// An undelayed post precedes every later one, a delayed one only those that are delayed as long or longer.
#[derive(Clone, Copy)]
pub struct Timed;

impl Discipline for Timed {
    ghost admission = { λ _. every };

    ghost precedence = { λ _. in_time };

    fn admits(&self, _post: Marks) -> bool {
        true
    }

    fn precedes(&self, earlier: Marks, later: Marks) -> bool {
        // an undelayed post comes before all: `None` is below each `Some`
        earlier.delay <= later.delay
    }
}
