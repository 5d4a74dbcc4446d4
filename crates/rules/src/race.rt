//! Races and their classes.
ghost use Rattle.std.specs.Prelude.{◌≡◌, ◌<◌, MatchResult, ◌≢◌};
ghost use Rattle.rules.specs.Names.{class_name};
ghost use Rattle.rules.specs.Numbers.{race_number, Passes};
ghost use Rattle.rules.specs.declared.race.RaceClass.{RaceClass};

/// The class of a race.
#[derive(Clone, Copy, PartialEq, Eq, Debug)]
pub enum RaceClass {
    MultiThreaded = 1,
    CoEnabled = 2,
    Delayed = 3,
    CrossPosted = 4,
    Unknown = 5,
}

impl RaceClass {
    /// The class's number.
    pub fn number(self) -> u8
        ensures { result ≡ race_number self }
    {
        self as u8
    }

    /// The class's name.
    // no `Display`: the report of 111,132 races would take 3.7 million instructions more
    pub fn name(self) -> &'static str
        ensures { result.now ≡ class_name (race_number self) }
    {
        match self {
            RaceClass::MultiThreaded => "multi-threaded",
            RaceClass::CoEnabled => "co-enabled",
            RaceClass::Delayed => "delayed",
            RaceClass::CrossPosted => "cross-posted",
            RaceClass::Unknown => "unknown",
        }
    }
}

/// A number that no class has.
#[derive(Clone, Copy, PartialEq, Eq, Debug)]
pub struct NotAClass;

impl TryFrom<u8> for RaceClass {
    type Error = NotAClass;

    ghost try_from_gives = { λ number r. MatchResult r (λ c. race_number c ≡ number) (λ _. (c : RaceClass) → race_number c ≢ number) };

    fn try_from(number: u8) -> Result<Self, NotAClass> {
        match number {
            1 => Ok(RaceClass::MultiThreaded),
            2 => Ok(RaceClass::CoEnabled),
            3 => Ok(RaceClass::Delayed),
            4 => Ok(RaceClass::CrossPosted),
            5 => Ok(RaceClass::Unknown),
            _ => Err(NotAClass),
        }
    }
}

/// A place of a race list: plain numbers.
#[derive(Clone, Copy, PartialEq, Eq, Debug)]
pub struct RaceRow {
    pub earlier: u16,
    pub later: u16,
    pub class: u8,
}

/// A race record: the earlier position is below the later one, which is at most 511.
#[derive(Clone, Copy)]
pub struct Race {
    pub earlier: u16,
    pub later: u16,
    pub class: RaceClass,
    ghost rises: { earlier < later },
    ghost held: { later < 512 },
}

/// A row that makes no race record.
#[derive(Clone, Copy, PartialEq, Eq, Debug)]
pub struct NotARace;

impl From<NotAClass> for NotARace {
    fn from(_: NotAClass) -> Self {
        NotARace
    }
}

impl TryFrom<RaceRow> for Race {
    type Error = NotARace;

    ghost try_from_gives = { λ row r. MatchResult r (λ x. Passes row × (x.earlier ≡ row.earlier) × (x.later ≡ row.later) × (race_number x.class ≡ row.class)) (λ _. Passes row → ⊥) };

    fn try_from(row: RaceRow) -> Result<Self, NotARace> {
        let class = RaceClass::try_from(row.class)?;
        if row.earlier < row.later && row.later < 512 {
            Ok(Race {
                earlier: row.earlier,
                later: row.later,
                class,
            })
        } else {
            Err(NotARace)
        }
    }
}
