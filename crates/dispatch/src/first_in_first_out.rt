//! First in, first out.
ghost use Rattle.dispatch.specs.Disciplines.{undelayed, always};

use crate::discipline::Discipline;
use recording::marks::Marks;

/// Tasks run in the order of their posts, and no post is delayed.
#[derive(Clone, Copy)]
pub struct FirstInFirstOut;

impl Discipline for FirstInFirstOut {
    ghost admission = { λ _. undelayed };

    ghost precedence = { λ _. always };

    fn admits(&self, post: Marks) -> bool {
        post.delay.is_none()
    }

    fn precedes(&self, _earlier: Marks, _later: Marks) -> bool {
        true
    }
}
