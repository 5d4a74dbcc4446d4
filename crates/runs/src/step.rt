//! One call of a run.
ghost use Rattle.rules.specs.Runs.{Step};
ghost use Rattle.examination.specs.Holding.{held, setting_of, SameSetting};
ghost use Rattle.runs.specs.Calls.{call_of, answer_of};

use crate::calls::{Answer, Call};
use dispatch::discipline::Discipline;
use examination::examination::Examination;

/// Makes one call.
#[tactic(auto, using(crate::proofs::Steps::step_adds, crate::proofs::Steps::step_refuses, crate::proofs::Steps::step_cuts, crate::proofs::Steps::step_cuts_not, crate::proofs::Steps::step_orders, crate::proofs::Steps::step_orders_not, crate::proofs::Steps::step_classes, crate::proofs::Steps::step_classes_not))]
pub(crate) fn make<D: Discipline + Drop>(examination: &mut Examination<D>, call: Call) -> Answer
    ensures step { Step (setting_of D.Discipline.admission D.Discipline.precedence examination.old) (held examination.old) (call_of call) (answer_of result) (held examination.new) }
    ensures setting { SameSetting examination.old examination.new }
{
    match call {
        Call::Add(operation) => examination
            .add(operation)
            .map_or_else(Answer::Refused, Answer::Added),
        Call::Cut(n) => examination
            .cut(n)
            .map_or(Answer::NotHeld, |()| Answer::Cut(n)),
        Call::Order(i, j) => examination
            .order(i, j)
            .map_or(Answer::NotHeld, Answer::Ordered),
        Call::Class(i, j) => examination
            .class(i, j)
            .map_or(Answer::NotHeld, Answer::Classed),
        Call::List(mut places) => match examination.list(&mut places) {
            Ok(n) => Answer::Listed(n, places),
            Err(short) => Answer::Needs(short.needed, places),
        },
    }
}
