//! What a script's run answers, as text.
ghost use Rattle.std.specs.Prelude.{◌≡◌, ◌++◌, map, IfOk, string_bytes, codes, OnOk};
ghost use Rattle.dispatch.specs.Recorded.{admission_of, precedence_of};
ghost use Rattle.runs.specs.Calls.{answer_of};
ghost use Rattle.rules.specs.Acceptance.{opened};
ghost use Rattle.script.specs.Readings.{step_lines, stop_lines, Answered, told_text, is_whole};
ghost use Rattle.script.specs.Scripts.{Tells};

use crate::answer::push_answer;
use crate::fault::{AtLine, LineFault};
use crate::lines::Lines;
use crate::read::{Script, opening};
use files::faults::file::FileFault;
use files::faults::read::ReadFault;
use recording::discipline::DisciplineKind;
use recording::faults::record::RecordFault;
use runs::calls::Answer;
use runs::run::run;
use std::alloc::{AllocError, Global};

/// The text that a script is answered with.
#[derive(Drop)]
pub enum Told {
    /// Every line was answered.
    Whole(String),
    /// The script was not run, or only up to its first bad line.
    Stopped(String),
}

impl Told {
    /// The text.
    pub fn text(&self) -> &str
        ensures { result.now ≡ told_text self.now }
    {
        match self {
            Told::Whole(text) | Told::Stopped(text) => text,
        }
    }
}

/// Adds the lines of each step, where each call has the next answer.
fn push_steps(
    text: &mut String,
    steps: &[Result<(), RecordFault>],
    answers: &[Answer],
) -> Result<(), AllocError>
    ensures { OnOk result (string_bytes text.new ≡ string_bytes text.old ++ step_lines steps.now (map answer_of answers.now)) }
{
    let mut answers = answers.iter();
    for step in steps {
        match step {
            Ok(()) => {
                if let Some(answer) = answers.next() {
                    push_answer(text, answer)?;
                }
            }
            Err(fault) => writeln!(text, "record {} at {}", fault.number(), fault.byte())?,
        }
    }
    Ok(())
}

/// Adds the lines of a script that opens an examination.
fn push_script(
    text: &mut String,
    steps: &[Result<(), RecordFault>],
    answers: &[Answer],
    stop: Option<AtLine>,
) -> Result<(), AllocError>
    ensures { OnOk result (string_bytes text.new ≡ string_bytes text.old ++ (codes "opened\n" ++ (step_lines steps.now (map answer_of answers.now) ++ stop_lines stop))) }
{
    writeln!(text, "opened")?;
    push_steps(text, steps, answers)?;
    if let Some(at) = stop {
        writeln!(text, "{at}")?;
    }
    Ok(())
}

/// Makes the calls of a script, and tells its lines.
fn answered(
    heap: Global,
    kind: DisciplineKind,
    mask: u64,
    script: Script,
) -> Result<Told, AllocError>
    ensures { IfOk result (λ told. Answered (opened (admission_of kind) (precedence_of kind) mask) script (told_text told) (is_whole told)) }
{
    let Script {
        steps,
        calls,
        stop,
        ..
    } = script;
    let answers = run(heap, kind, mask, calls)?;
    let mut text = String::new(heap);
    push_script(&mut text, &steps, &answers, stop)?;
    if stop.is_none() {
        Ok(Told::Whole(text))
    } else {
        Ok(Told::Stopped(text))
    }
}

/// Runs a script, and tells the answers of its lines up to the first bad one.
pub fn tell(heap: Global, script: &[u8]) -> Result<Told, AllocError>
    ensures { IfOk result (λ told. Tells script.now (told_text told) (is_whole told)) }
{
    let mut lines = Lines { rest: script };
    let Some((number, mask)) = opening(&mut lines) else {
        let fault = LineFault::NotOpened;
        let at = AtLine { number: 1, fault };
        return Ok(Told::Stopped(format!(in heap; "{at}\n")?));
    };
    match DisciplineKind::try_from(number) {
        Ok(kind) => answered(heap, kind, mask, Script::read(heap, lines)?),
        Err(_) => {
            let fault = ReadFault::File(FileFault::Discipline);
            Ok(Told::Stopped(format!(in heap; "{fault}\n")?))
        }
    }
}
