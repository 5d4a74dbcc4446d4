//! The lines of a report.
ghost use Rattle.std.specs.Prelude.{◌≡◌, ◌+◌, ◌%◌, ◌<◌, ◌++◌, IfOk, string_bytes, decimal, OnOk};
ghost use Rattle.rules.specs.Answers.{In};
ghost use Rattle.rules.specs.Numbers.{race_number, Passes};
ghost use Rattle.rules.specs.declared.race.RaceRow.{RaceRow};
ghost use Rattle.reporting.specs.Lines.{race_line, race_lines, report_text};

use rules::race::{Race, RaceRow};
use std::alloc::{AllocError, Global};

/// The most bytes that the line of a race has: `510 511 multi-threaded` and its end.
const LONGEST_LINE: usize = 23;

/// The last decimal digit of a number.
fn digit(n: u16) -> char
    ensures { result ≡ 48 + n % 10 }
{
    char::from((n % 10) as u8 + b'0')
}

/// Adds a position in decimal.
// not by `write!`, with which the report of 111,132 races takes 40 million instructions and not 31;
// and by no library but the standard one, so that none has to be trusted for it
fn push_position(text: &mut String, position: u16) -> Result<(), AllocError>
    requires { position < 512 }
    ensures { OnOk result (string_bytes text.new ≡ string_bytes text.old ++ decimal position) }
{
    if position >= 100 {
        text.push(digit(position / 100))?;
    }
    if position >= 10 {
        text.push(digit(position / 10))?;
    }
    text.push(digit(position))
}

/// Adds the line of a race.
// by parts, as `push_position` says
fn push_race(text: &mut String, race: Race) -> Result<(), AllocError>
    ensures { OnOk result (string_bytes text.new ≡ string_bytes text.old ++ race_line (record { earlier = race.earlier; later = race.later; class = race_number race.class })) }
{
    push_position(text, race.earlier)?;
    text.push_str(" ")?;
    push_position(text, race.later)?;
    text.push_str(" ")?;
    text.push_str(race.class.name())?;
    text.push_str("\n")
}

/// Adds a line for each race.
fn push_races(text: &mut String, races: &[RaceRow]) -> Result<(), AllocError>
    requires { (r : RaceRow) → In r races.now → Passes r }
    ensures { OnOk result (string_bytes text.new ≡ string_bytes text.old ++ race_lines races.now) }
{
    for row in races {
        let race = Race::try_from(*row).unwrap();
        push_race(text, race)?;
    }
    Ok(())
}

/// The report of so many operations with these races.
pub(crate) fn report_text(heap: Global, ops: usize, races: &[RaceRow]) -> Result<String, AllocError>
    requires { (r : RaceRow) → In r races.now → Passes r }
    ensures { IfOk result (λ text. string_bytes text ≡ report_text ops races.now) }
{
    let count = races.len();
    let mut text = format!(in heap; "ops {ops} races {count}\n")?;
    text.reserve(count.saturating_mul(LONGEST_LINE))?;
    push_races(&mut text, races)?;
    Ok(text)
}
