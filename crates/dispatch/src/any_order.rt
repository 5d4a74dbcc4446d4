//! No order among posts.
ghost use Rattle.dispatch.specs.Disciplines.{every, never};

use crate::discipline::Discipline;
use recording::marks::Marks;

/// Tasks run in any order.
#[derive(Clone, Copy)]
pub struct AnyOrder;

impl Discipline for AnyOrder {
    ghost admission = { λ _. every };

    ghost precedence = { λ _. never };

    fn admits(&self, _post: Marks) -> bool {
        true
    }

    fn precedes(&self, _earlier: Marks, _later: Marks) -> bool {
        false
    }
}
