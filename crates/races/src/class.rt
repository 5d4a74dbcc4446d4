//! Whether two operations race, and the class of a race.
ghost use Rattle.std.specs.Prelude.{◌≡◌, ◌<◌, ◌&&◌, ◌==◌, length, if◌then◌else◌, Some, None, nat_lt};
ghost use Rattle.recording.specs.Codes.{read, write};
ghost use Rattle.rules.specs.Answers.{Classed};
ghost use Rattle.rules.specs.Columns.{pairs_in};
ghost use Rattle.rules.specs.Numbers.{class_number};
ghost use Rattle.races.specs.Classes.{WhereRight, accesses, conflicting, unordered, class_on_thread, racing, class_at};

use crate::held::Held;
use crate::nearest::NearestPosts;
use recording::code::Code;
use recording::row::Row;
use rules::race::RaceClass;
use std::cmp::Ordering;

// by number, since rows are plain numbers
fn is_write(row: Row) -> bool
    ensures { result ≡ (row.code == write) }
{
    row.code == Code::Write as u8
}

fn is_read(row: Row) -> bool
    ensures { result ≡ (row.code == read) }
{
    row.code == Code::Read as u8
}

/// Whether the operation reads or writes a location.
pub(crate) fn is_access(row: Row) -> bool
    ensures { result ≡ accesses row }
{
    is_write(row) || is_read(row)
}

/// Whether both touch one location, and one writes.
pub(crate) fn conflict(earlier: Row, later: Row) -> bool
    ensures { result ≡ conflicting earlier later }
{
    earlier.item == later.item
        && ((is_write(earlier) && is_access(later)) || (is_read(earlier) && is_write(later)))
}

impl Held<'_> {
    /// Whether the column of `later` has `earlier`.
    pub fn is_before(&self, earlier: usize, later: usize) -> bool
        ensures { result ≡ pairs_in self.now.columns.now earlier later }
    {
        self.columns
            .get(later)
            .is_some_and(|column| column.contains(earlier))
    }

    /// Whether both posts are there, differ, and the first is not before the second.
    fn are_unordered(&self, a: Option<u16>, b: Option<u16>) -> bool
        ensures { result ≡ unordered self.now.columns.now a b }
    {
        match (a, b) {
            (Some(a), Some(b)) => a != b && !self.is_before(a as usize, b as usize),
            _ => false,
        }
    }

    /// The class of two racing operations of one thread, by their nearest posts.
    fn class_on_thread(&self, earlier: NearestPosts, later: NearestPosts) -> RaceClass
        ensures { result ≡ class_on_thread self.now.columns.now earlier later }
    {
        if self.are_unordered(earlier.environment, later.environment) {
            RaceClass::CoEnabled
        } else if earlier.delayed != later.delayed {
            RaceClass::Delayed
        } else if earlier.foreign != later.foreign {
            RaceClass::CrossPosted
        } else {
            RaceClass::Unknown
        }
    }

    /// The class of two racing operations.
    pub(crate) fn classify(&self, earlier: usize, later: usize) -> RaceClass
        requires { (earlier < length self.now.rows.now) × (later < length self.now.rows.now) }
        ensures { result ≡ class_at self.now.rows.now self.now.columns.now self.now.nearests.now earlier later }
    {
        if self.rows[earlier].thread != self.rows[later].thread {
            RaceClass::MultiThreaded
        } else {
            self.class_on_thread(self.nearest_at(earlier), self.nearest_at(later))
        }
    }

    /// The class of a rising pair; none where it is no race.
    fn class_of_pair(&self, earlier: usize, later: usize) -> Option<RaceClass>
        requires { earlier < later }
        ensures { result ≡ (if nat_lt later (length self.now.rows.now) && racing self.now.rows.now self.now.columns.now earlier later then Some (class_at self.now.rows.now self.now.columns.now self.now.nearests.now earlier later) else None) }
    {
        if later < self.rows.len()
            && conflict(self.rows[earlier], self.rows[later])
            && !self.is_before(earlier, later)
        {
            Some(self.classify(earlier, later))
        } else {
            None
        }
    }

    /// The class of two positions in either order; none where they do not race.
    pub fn class(&self, i: usize, j: usize) -> Option<RaceClass>
        ensures { WhereRight self.now.rows.now self.now.columns.now self.now.nearests.now (λ D. Classed D self.now.rows.now i j (class_number result)) }
    {
        match i.cmp(&j) {
            Ordering::Less => self.class_of_pair(i, j),
            Ordering::Greater => self.class_of_pair(j, i),
            Ordering::Equal => None,
        }
    }
}
