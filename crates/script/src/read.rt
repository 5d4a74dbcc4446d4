//! Scripts.
ghost use Rattle.std.specs.Prelude.{◌≡◌, ℕ, ◌≤◌, List, [], ◌∷◌, IfOk, OnOk, Ok, Some, None};
ghost use Rattle.runs.specs.Calls.{call_of};
ghost use Rattle.script.specs.Lines.{line_text, LineFits, Opens};
ghost use Rattle.script.specs.Texts.{Read, FirstLine};
ghost use Rattle.script.specs.declared.line.Line.TheVariants.{Add, List as Races};

use crate::fault::{AtLine, LineFault};
use crate::line::Line;
use crate::lines::Lines;
use recording::faults::record::RecordFault;
use recording::operation::Operation;
use recording::row::Row;
use rules::race::RaceRow;
use runs::calls::Call;
use std::alloc::{AllocError, Global};
use std::str::from_utf8;

/// The most places that the calls of a script are lent in all.
const MOST_LENT: usize = 1048576;

/// What a lent place holds before the call.
const PLACE: RaceRow = RaceRow {
    earlier: 7,
    later: 7,
    class: 7,
};

/// The lines after the opening, up to the first bad one.
#[derive(Drop)]
pub(crate) struct Script {
    /// Of each line, that it is a call, or the fault of its row, so that there is nothing to add.
    pub steps: Vec<Result<(), RecordFault>>,
    /// In a list of their own, since a run takes the calls alone.
    pub calls: Vec<Call>,
    /// How many more places may be lent.
    pub left: usize,
    /// The bad line, if there is one.
    pub stop: Option<AtLine>,
    ghost bounded: { left ≤ 1048576 },
}

/// The line that bytes write.
pub(crate) fn read_line(bytes: &[u8]) -> Option<Line>
    ensures { Read LineFits line_text bytes.now result }
{
    let text = from_utf8(bytes).ok()?;
    Line::read(text)
}

/// The line that comes next.
fn next_line(lines: &mut Lines) -> Option<Line>
    ensures { (line : List ℕ) × FirstLine lines.old.rest.now line lines.new.rest.now × Read LineFits line_text line result }
{
    lines.next().and_then(read_line)
}

/// The number of a discipline and the mask that the next line opens an examination with.
pub(crate) fn opening(lines: &mut Lines) -> Option<(u8, u64)>
    ensures { (line : List ℕ) × FirstLine lines.old.rest.now line lines.new.rest.now × Opens line result }
{
    match next_line(lines)? {
        Line::Open(number, mask) => Some((number, mask)),
        _ => None,
    }
}

impl Script {
    ghost use Rattle.script.specs.Readings.{steps_of, calls_of, Grown, Takes, TakesOr, ReadAs};
    ghost use Rattle.script.specs.Scripts.{most_lent};

    fn new(heap: Global) -> Script
        ensures { (steps_of result ≡ []) × (calls_of result ≡ []) × (result.left ≡ most_lent) × (result.stop ≡ None) }
    {
        Script {
            steps: Vec::new(heap),
            calls: Vec::new(heap),
            left: MOST_LENT,
            stop: None,
        }
    }

    /// Takes a call in.
    fn call(&mut self, call: Call) -> Result<(), AllocError>
        ensures { OnOk result (Grown self.old (Ok tt) (call_of call ∷ []) self.new × (self.new.left ≡ self.old.left)) }
    {
        self.steps.push(Ok(()))?;
        self.calls.push(call)?;
        Ok(())
    }

    /// Takes in the call that adds the operation of a row, or the row's fault.
    fn add(&mut self, row: Row) -> Result<(), AllocError>
        ensures { OnOk result (Takes self.old (Some (Add row)) self.new) }
    {
        match Operation::try_from(row) {
            Ok(operation) => self.call(Call::Add(operation)),
            Err(fault) => Ok(self.steps.push(Err(fault))?),
        }
    }

    /// Takes in a list of so many places, if so many may still be lent.
    // one `Result` in the other: want of memory ends the whole script, and a fault only its lines
    #[tactic(auto, using(crate::proofs::Taken::taken))]
    fn list(&mut self, heap: Global, n: usize) -> Result<Result<(), LineFault>, AllocError>
        ensures { IfOk result (λ taken. TakesOr self.old (Some (Races n)) taken self.new) }
    {
        if n > self.left {
            return Ok(Err(LineFault::TooManyPlaces));
        }
        self.left -= n;
        self.call(Call::List(vec![in heap; PLACE; n]?))?;
        Ok(Ok(()))
    }

    /// Takes in a line after the opening, or says why it is none.
    #[tactic(auto, using(crate::proofs::Taken::taken))]
    fn take(
        &mut self,
        heap: Global,
        line: Option<Line>,
    ) -> Result<Result<(), LineFault>, AllocError>
        ensures { IfOk result (λ taken. TakesOr self.old line taken self.new) }
    {
        match line {
            None => Ok(Err(LineFault::NotACall)),
            Some(Line::Open(_, _)) => Ok(Err(LineFault::OpenedTwice)),
            Some(Line::Add(row)) => Ok(Ok(self.add(row)?)),
            Some(Line::Cut(n)) => Ok(Ok(self.call(Call::Cut(n))?)),
            Some(Line::Order(i, j)) => Ok(Ok(self.call(Call::Order(i, j))?)),
            Some(Line::Class(i, j)) => Ok(Ok(self.call(Call::Class(i, j))?)),
            Some(Line::List(n)) => self.list(heap, n),
        }
    }

    /// The script whose lines after the opening are these.
    pub(crate) fn read(heap: Global, lines: Lines) -> Result<Script, AllocError>
        ensures { IfOk result (λ script. ReadAs lines.entry.rest.now (steps_of script) (calls_of script) script.stop) }
    {
        let mut script = Script::new(heap);
        for line in lines {
            if let Err(fault) = script.take(heap, read_line(line))? {
                let number = script.steps.len() + 2;
                script.stop = Some(AtLine { number, fault });
                return Ok(script);
            }
        }
        Ok(script)
    }
}
