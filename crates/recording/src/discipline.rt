//! The dispatch disciplines that a recording can name.
ghost use Rattle.std.specs.Prelude.{◌≡◌, ◌<◌, MatchResult};
ghost use Rattle.recording.specs.Disciplines.{discipline_number};

/// The dispatch discipline that a recording names, by its number.
#[derive(Clone, Copy, PartialEq, Eq, Debug)]
pub enum DisciplineKind {
    FirstInFirstOut = 0,
    AnyOrder = 1,
    Timed = 2,
}

/// The number names no discipline.
#[derive(Clone, Copy, PartialEq, Eq, Debug)]
pub struct UnknownDiscipline;

impl TryFrom<u8> for DisciplineKind {
    type Error = UnknownDiscipline;

    ghost try_from_gives = { λ n r. MatchResult r (λ d. discipline_number d ≡ n) (λ _. 2 < n) };

    fn try_from(number: u8) -> Result<Self, UnknownDiscipline> {
        match number {
            0 => Ok(DisciplineKind::FirstInFirstOut),
            1 => Ok(DisciplineKind::AnyOrder),
            2 => Ok(DisciplineKind::Timed),
            _ => Err(UnknownDiscipline),
        }
    }
}

impl DisciplineKind {
    /// The number by which a recording names the discipline.
    pub fn number(self) -> u8
        ensures { (result ≡ discipline_number self) × (result < 3) }
    {
        self as u8
    }
}
