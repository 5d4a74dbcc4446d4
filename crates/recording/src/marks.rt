//! What a dispatch discipline sees of a post.
ghost use Rattle.std.specs.Prelude.{◌≡◌};
ghost use Rattle.recording.specs.Posts.{marks_in};

use crate::row::Row;

/// The marks and the delay of a post: all that a dispatch discipline sees of it.
#[derive(Clone, Copy)]
pub struct Marks {
    /// The post comes from a user or system event.
    pub environment: bool,
    /// The delay in milliseconds, where the post is delayed.
    pub delay: Option<u32>,
}

/// The marks of a post's row.
impl From<Row> for Marks {
    ghost from_gives = { λ row m. m ≡ marks_in row };

    fn from(row: Row) -> Marks {
        Marks {
            environment: row.marks % 2 == 1,
            delay: (row.marks >= 2).then_some(row.delay),
        }
    }
}
