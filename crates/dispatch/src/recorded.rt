//! The discipline that a recording names, chosen as the program runs.
ghost use Rattle.dispatch.specs.Recorded.{admission_of, precedence_of};

use crate::any_order::AnyOrder;
use crate::discipline::Discipline;
use crate::first_in_first_out::FirstInFirstOut;
use crate::timed::Timed;
use recording::discipline::DisciplineKind;
use recording::marks::Marks;

// By two matches: one function that picks the discipline would have to hand out a `dyn`.
impl Discipline for DisciplineKind {
    ghost admission = { admission_of };

    ghost precedence = { precedence_of };

    fn admits(&self, post: Marks) -> bool {
        match self {
            DisciplineKind::FirstInFirstOut => FirstInFirstOut.admits(post),
            DisciplineKind::AnyOrder => AnyOrder.admits(post),
            DisciplineKind::Timed => Timed.admits(post),
        }
    }

    fn precedes(&self, earlier: Marks, later: Marks) -> bool {
        match self {
            DisciplineKind::FirstInFirstOut => FirstInFirstOut.precedes(earlier, later),
            DisciplineKind::AnyOrder => AnyOrder.precedes(earlier, later),
            DisciplineKind::Timed => Timed.precedes(earlier, later),
        }
    }
}
