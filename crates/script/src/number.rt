//! Numbers in decimal.
ghost use Rattle.std.specs.Prelude.{ℕ, ◌≤◌, decimal};
ghost use Rattle.script.specs.Texts.{Read};

/// The number that a word writes, if it is at most the largest: digits alone, and no zero before others.
pub fn number(word: &str, largest: u64) -> Option<u64>
    ensures { Read (λ n. n ≤ largest) decimal word.now result }
{
    if word.starts_with('+') {
        return None;
    }
    if word.starts_with('0') && word.len() > 1 {
        return None;
    }
    word.parse().ok().filter(|n| *n <= largest)
}
