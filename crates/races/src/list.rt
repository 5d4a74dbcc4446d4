//! The race list, by rising later position, then by rising earlier.
ghost use Rattle.std.specs.Prelude.{◌≡◌, ◌+◌, ◌<◌, ◌≤◌, min, not, ◌&&◌, List, ◌++◌, length, take, drop};
ghost use Rattle.columns.specs.Positions.{has, Holds};
ghost use Rattle.columns.specs.Sweep.{column_at};
ghost use Rattle.rules.specs.Answers.{RaceList};
ghost use Rattle.rules.specs.declared.race.RaceRow.{RaceRow};
ghost use Rattle.races.specs.Classes.{WhereRight, conflicting};
ghost use Rattle.races.specs.Listing.{races_of, all_races, Kept, Listed};

use crate::class::{conflict, is_access};
use crate::held::Held;
use columns::column::{Column, POSITIONS};
use recording::row::Row;
use rules::faults::TooShort;
use rules::race::RaceRow;

/// Whether the operation at `position` races with a later one, of which `column` is the column.
fn races_with(row: Row, position: usize, later: Row, column: &Column) -> bool
    ensures { result ≡ (conflicting row later && not (has column.now position)) }
{
    conflict(row, later) && !column.contains(position)
}

impl Held<'_> {
    /// How many positions are held: at most 512.
    fn count_held(&self) -> usize
        ensures { result ≡ min (length self.now.rows.now) 512 }
    {
        self.rows.len().min(POSITIONS)
    }

    /// The column of a position; an empty one past the end.
    fn column_at(&self, position: usize) -> Column
        ensures { Holds result (has (column_at self.now.columns.now position)) }
    {
        self.columns
            .get(position)
            .copied()
            .unwrap_or(Column::empty())
    }

    /// How many earlier operations race with the one at `position`.
    fn count_of(&self, position: usize) -> usize
        requires { position < length self.now.rows.now }
        ensures { result ≡ length (races_of self.now.rows.now self.now.columns.now self.now.nearests.now position) }
    {
        let later = self.rows[position];
        if !is_access(later) {
            return 0;
        }
        let column = self.column_at(position);
        let mut n = 0;
        // no chain: the list of 512 writes would take 8.92 million instructions, and takes 7.74
        for (earlier, row) in self.rows[..position].iter().enumerate() {
            if races_with(*row, earlier, later, &column) {
                n += 1;
            }
        }
        n
    }

    /// How many races there are.
    fn count(&self) -> usize
        ensures { result ≡ length (all_races self.now.rows.now self.now.columns.now self.now.nearests.now) }
    {
        (0..self.count_held())
            .map(|position| self.count_of(position))
            .sum()
    }

    /// Writes the races of the operation at `later` from the place `from` on, and answers the place past them.
    fn write_of(&self, later: usize, from: usize, races: &mut [RaceRow]) -> usize
        requires { (later < length self.now.rows.now) × ((later < 512) × (from + length (races_of self.now.rows.now self.now.columns.now self.now.nearests.now later) ≤ length races.old)) }
        ensures place { result ≡ from + length (races_of self.now.rows.now self.now.columns.now self.now.nearests.now later) }
        ensures written { races.new ≡ (take from races.old ++ races_of self.now.rows.now self.now.columns.now self.now.nearests.now later) ++ drop result races.old }
    {
        let row = self.rows[later];
        if !is_access(row) {
            return from;
        }
        let column = self.column_at(later);
        // a counter: of what is written through an adapter of `iter_mut` a proof knows nothing;
        // and a walk of its own: one that serves the count too would be longer than both
        let mut n = from;
        for (earlier, other) in self.rows[..later].iter().enumerate() {
            if races_with(*other, earlier, row, &column) {
                let class = self.classify(earlier, later).number();
                races[n] = RaceRow {
                    earlier: earlier as u16,
                    later: later as u16,
                    class,
                };
                n += 1;
            }
        }
        n
    }

    /// Writes all races.
    fn write_all(&self, races: &mut [RaceRow])
        requires { length (all_races self.now.rows.now self.now.columns.now self.now.nearests.now) ≤ length races.old }
        ensures { races.new ≡ all_races self.now.rows.now self.now.columns.now self.now.nearests.now ++ drop (length (all_races self.now.rows.now self.now.columns.now self.now.nearests.now)) races.old }
    {
        let mut n = 0;
        // the next free place goes from turn to turn
        for later in 0..self.count_held() {
            n = self.write_of(later, n, races);
        }
    }

    /// Writes the race list into the first places and answers the number of races;
    /// where the places are too few, writes nothing and answers how many are needed.
    pub fn list(&self, races: &mut [RaceRow]) -> Result<usize, TooShort>
        ensures kept { Kept races.old races.new result }
        ensures found { Listed (all_races self.now.rows.now self.now.columns.now self.now.nearests.now) races.old races.new result }
        ensures listed { WhereRight self.now.rows.now self.now.columns.now self.now.nearests.now (λ D. length self.now.rows.now ≤ 512 → (listed : List RaceRow) × RaceList D self.now.rows.now listed × Listed listed races.old races.new result) }
    {
        let needed = self.count();
        if races.len() < needed {
            return Err(TooShort { needed });
        }
        if needed == 0 {
            return Ok(0);
        }
        self.write_all(races);
        Ok(needed)
    }
}
