//! The nearest posts of a position: the first of their kind in its chain.
ghost use Rattle.std.specs.Prelude.{◌≡◌, length, if◌then◌else◌, Some, None, nat_lt};
ghost use Rattle.happens_before.specs.Trace.{row};
ghost use Rattle.races.specs.Chains.{nearest_at, nearest_past, nearest_added, NearestOfAdded};

use crate::held::Held;
use recording::marks::Marks;
use recording::numbers::Thread;

/// The first environment post, the first delayed post, and the first post by another thread
/// in the chain of a position; by default none, as of a position in no task.
#[derive(Clone, Copy, Default)]
pub struct NearestPosts {
    pub environment: Option<u16>,
    pub delayed: Option<u16>,
    pub foreign: Option<u16>,
}

impl Held<'_> {
    /// The nearest posts of a position; none past the end.
    pub(crate) fn nearest_at(&self, position: usize) -> NearestPosts
        ensures { result ≡ nearest_at self.now.nearests.now position }
    {
        self.nearests.get(position).copied().unwrap_or_default()
    }

    /// The nearest posts of an operation of the thread in a task that was posted at `post`; none where nothing is held there.
    fn nearest_past(&self, thread: Thread, post: u16) -> Option<NearestPosts>
        ensures { result ≡ (if nat_lt post (length self.now.rows.now) then Some (nearest_past thread.number post (row self.now.rows.now post) (nearest_at self.now.nearests.now post)) else None) }
    {
        let row = self.rows.get(post as usize)?;
        let marks = Marks::from(*row);
        let beyond = self.nearest_at(post as usize);
        let foreign = u16::from(row.thread) != thread.number();
        Some(NearestPosts {
            environment: marks.environment.then_some(post).or(beyond.environment),
            delayed: marks.delay.is_some().then_some(post).or(beyond.delayed),
            foreign: foreign.then_some(post).or(beyond.foreign),
        })
    }

    /// The nearest posts of a new operation of the thread, whose task, if it has one, was posted at `post`.
    pub fn nearest_of(&self, thread: Thread, post: Option<u16>) -> NearestPosts
        ensures nearest { NearestOfAdded self.now.rows.now self.now.nearests.now thread.number post result }
        ensures found { result ≡ nearest_added self.now.rows.now self.now.nearests.now thread.number post }
    {
        match post {
            Some(post) => self.nearest_past(thread, post).unwrap_or_default(),
            None => NearestPosts::default(),
        }
    }
}
