//! What an examination asks of a dispatch discipline.
ghost use Rattle.std.specs.Prelude.{◌≡◌};
ghost use Rattle.happens_before.specs.Order.{Precedence};
ghost use Rattle.dispatch.specs.Disciplines.{Admission};

use recording::marks::Marks;

/// Two relations on posts, which see only their marks and delays.
pub trait Discipline {
    ghost admission: { Self → Admission };

    ghost precedence: { Self → Precedence };

    /// Whether the post may be made.
    fn admits(&self, post: Marks) -> bool
        ensures { result ≡ admission self.now post };

    /// Of two posts to one thread, whether the task of the earlier must run before that of the later.
    fn precedes(&self, earlier: Marks, later: Marks) -> bool
        ensures { result ≡ precedence self.now earlier later };
}
