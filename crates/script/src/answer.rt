//! Answers as text.
ghost use Rattle.std.specs.Prelude.{◌≡◌, ◌++◌, string_bytes, OnOk};
ghost use Rattle.rules.specs.Numbers.{class_number};
ghost use Rattle.runs.specs.Calls.{answer_of};
ghost use Rattle.script.specs.Answers.{place_lines, answer_lines};

use rules::race::{RaceClass, RaceRow};
use runs::calls::Answer;
use std::alloc::AllocError;

/// The refusal of a position that is not held: `NotHeld` is one case, and has no number of its own.
const NOT_HELD: u8 = 18;

/// A class's number, or 0 for no race.
fn class_number(class: Option<RaceClass>) -> u8
    ensures { result ≡ class_number class }
{
    class.map_or(0, RaceClass::number)
}

/// Adds a line for each place.
fn push_places(text: &mut String, places: &[RaceRow]) -> Result<(), AllocError>
    ensures { OnOk result (string_bytes text.new ≡ string_bytes text.old ++ place_lines places.now) }
{
    for place in places {
        writeln!(text, "{} {} {}", place.earlier, place.later, place.class)?;
    }
    Ok(())
}

/// Adds the lines of an answer.
// no `Display`: `Answer` is another crate's type, and a wrapper for it would have this one use
pub fn push_answer(text: &mut String, answer: &Answer) -> Result<(), AllocError>
    ensures { OnOk result (string_bytes text.new ≡ string_bytes text.old ++ answer_lines (answer_of answer.now)) }
{
    match answer {
        Answer::Added(added) => writeln!(text, "added {} {}", added.position, added.before),
        Answer::Refused(fault) => writeln!(text, "refused {}", fault.number()),
        Answer::Cut(n) => writeln!(text, "cut {n}"),
        Answer::Ordered(order) => writeln!(text, "{order}"),
        Answer::Classed(class) => writeln!(text, "class {}", class_number(*class)),
        Answer::NotHeld => writeln!(text, "refused {NOT_HELD}"),
        Answer::Listed(n, places) => {
            writeln!(text, "listed {n}")?;
            push_places(text, places)
        }
        Answer::Needs(n, places) => {
            writeln!(text, "needs {n}")?;
            push_places(text, places)
        }
    }
}
