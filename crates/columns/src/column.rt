//! A set of positions below 512.
ghost use Rattle.std.specs.Prelude.{◌≡◌, true, ◌↔◌, MatchOption};
ghost use Rattle.columns.specs.Positions.{has, Holds, none, with_position, union, except, Meet, tally, Lacks, LastBelow};

use std::simd::prelude::*;

/// How many positions there are.
pub const POSITIONS: usize = 512;

/// A set of positions below 512: position k is bit k % 64 of word k / 64.
#[derive(Clone, Copy)]
pub struct Column {
    words: [u64; 8],
}

impl Column {
    /// No position.
    pub fn empty() -> Column
        ensures { Holds result none }
    {
        Column { words: [0; 8] }
    }

    /// Whether position `i` is in it; none from 512 on is.
    pub fn contains(&self, i: usize) -> bool
        ensures { result ≡ has self.now i }
    {
        i < POSITIONS && (self.words[i / 64] >> (i % 64)) % 2 == 1
    }

    /// Adds position `i`; from 512 on nothing changes.
    pub fn insert(&mut self, i: usize)
        ensures { Holds self.new (with_position (has self.old) i) }
    {
        if i < POSITIONS {
            self.words[i / 64] |= 1 << (i % 64);
        }
    }

    /// Adds what `other` has.
    pub fn join(&mut self, other: &Column)
        ensures { Holds self.new (union (has self.old) (has other.now)) }
    {
        let both = u64x8::from_array(self.words) | u64x8::from_array(other.words);
        self.words = both.to_array();
    }

    /// Adds what `other` has and `hidden` lacks.
    pub fn join_except(&mut self, other: &Column, hidden: &Column)
        ensures { Holds self.new (union (has self.old) (except (has other.now) (has hidden.now))) }
    {
        let theirs = u64x8::from_array(other.words);
        let shown = theirs ^ (theirs & u64x8::from_array(hidden.words));
        let both = u64x8::from_array(self.words) | shown;
        self.words = both.to_array();
    }

    /// Whether some position is in both.
    pub fn meets(&self, other: &Column) -> bool
        ensures { (result ≡ true) ↔ Meet (has self.now) (has other.now) }
    {
        // no chain: that its items fit 64 bits is not known to a proof
        for (w, word) in self.words.iter().enumerate() {
            if word & other.words[w] != 0 {
                return true;
            }
        }
        false
    }

    /// How many positions are in it.
    pub fn count(&self) -> u32
        ensures { result ≡ tally (has self.now) 512 }
    {
        let mut n = 0;
        // no chain: that its items fit 64 bits is not known to a proof
        for word in self.words {
            n += word.count_ones();
        }
        n
    }

    /// The highest position in it below `end`.
    pub fn last_below(&self, end: usize) -> Option<usize>
        ensures { MatchOption result (Lacks (has self.now) 0 end) (λ k. LastBelow (has self.now) end k) }
    {
        let mut top = end.min(POSITIONS);
        // no chain: the first word counts in part, and apart from the others
        while top > 0 {
            let last = top - 1;
            // bit 63 is position `last`, bit 62 the one below it, and so on
            let word = self.words[last / 64] << (63 - last % 64);
            if word != 0 {
                return Some(last - word.leading_zeros() as usize);
            }
            top = last / 64 * 64;
        }
        None
    }
}
