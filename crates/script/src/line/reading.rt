//! Reading a line.
ghost use Rattle.std.specs.Prelude.{◌≡◌, ℕ, ◌^◌, ◌<◌, ◌≤◌, List, decimal, MatchOption, ◌≢◌};
ghost use Rattle.script.specs.Texts.{Read, before, two};
ghost use Rattle.script.specs.Lines.{row_text, RowFits, Named, words_of, LineFits, line_text};

use crate::line::Line;
use crate::number::number;
use recording::row::Row;

/// The most places that one call of list is lent.
const MOST_PLACES: u64 = 262144;

/// The number before the first space, and the words after it.
fn first(words: &str, largest: u64) -> Option<(u64, &str)>
    ensures { MatchOption result ((n : ℕ) (rest : List ℕ) → n ≤ largest → before (decimal n) rest ≢ words.now) (λ x. (x.0 ≤ largest) × (before (decimal x.0) x.1.now ≡ words.now) × ((n : ℕ) (rest : List ℕ) → before (decimal n) rest ≡ words.now → n < 2 ^ 64 → rest ≡ x.1.now)) }
{
    let (word, rest) = words.split_once(' ')?;
    let n = number(word, largest)?;
    Some((n, rest))
}

/// Two numbers, the first at most the largest.
fn two_numbers(words: &str, largest: u64) -> Option<(u64, u64)>
    ensures { MatchOption result ((n m : ℕ) → n ≤ largest → m < 2 ^ 64 → two n m ≢ words.now) (λ x. (x.0 ≤ largest) × (x.1 < 2 ^ 64) × (two x.0 x.1 ≡ words.now)) }
{
    let (n, rest) = first(words, largest)?;
    let m = number(rest, u64::MAX)?;
    Some((n, m))
}

/// Seven numbers: the fields of a row, each within its field's limit when it is cast.
fn row(words: &str) -> Option<Row>
    ensures { Read RowFits row_text words.now result }
{
    let (code, rest) = first(words, 255)?;
    let (thread, rest) = first(rest, 255)?;
    let (item, rest) = first(rest, 65535)?;
    let (target, rest) = first(rest, 255)?;
    let (marks, rest) = first(rest, 255)?;
    let (reserved, rest) = first(rest, 65535)?;
    let delay = number(rest, 4294967295)?;
    Some(Row {
        code: code as u8,
        thread: thread as u8,
        item: item as u16,
        target: target as u8,
        marks: marks as u8,
        reserved: reserved as u16,
        delay: delay as u32,
    })
}

/// The line with this name and these words after it.
fn named(name: &str, words: &str) -> Option<Line>
    ensures { Read (Named name.now) words_of words.now result }
{
    match name {
        "open" => two_numbers(words, 255).map(|(discipline, mask)| Line::Open(
            discipline as u8,
            mask,
        )),
        "add" => row(words).map(Line::Add),
        "cut" => number(words, u64::MAX).map(|n| Line::Cut(n as usize)),
        "order" => two_numbers(words, u64::MAX).map(|(i, j)| Line::Order(i as usize, j as usize)),
        "class" => two_numbers(words, u64::MAX).map(|(i, j)| Line::Class(i as usize, j as usize)),
        "list" => number(words, MOST_PLACES).map(|n| Line::List(n as usize)),
        _ => None,
    }
}

impl Line {
    /// The line that a text writes.
    pub fn read(text: &str) -> Option<Line>
        ensures { Read LineFits line_text text.now result }
    {
        let (name, words) = text.split_once(' ')?;
        named(name, words)
    }
}
