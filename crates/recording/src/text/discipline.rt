//! The names of the disciplines.
ghost use Rattle.std.specs.Prelude.{Some};
ghost use Rattle.recording.specs.Disciplines.{discipline_number};
ghost use Rattle.recording.specs.Texts.{discipline_name};

use crate::discipline::DisciplineKind;
use std::fmt;

impl fmt::Display for DisciplineKind {
    ghost output = { λ d. Some (discipline_name (discipline_number d)) };

    fn fmt<W: fmt::Write>(&self, f: &mut fmt::Formatter<W>) -> fmt::Result {
        match self {
            DisciplineKind::FirstInFirstOut => write!(f, "first in first out"),
            DisciplineKind::AnyOrder => write!(f, "any order"),
            DisciplineKind::Timed => write!(f, "timed"),
        }
    }
}
