//! What a table can show of a day.

ghost use Rattle.std.specs.Prelude.{◌≡◌};

use crate::calendar::{Calendar, every_calendar};

macro_rules! targets {
    ($($calendar:ident),+; $($other:ident),+) => {
        [$(Target::Date(Calendar::$calendar),)+ Target::Haab, Target::Tzolkin, $(Target::Date(Calendar::$other)),+]
    };
}

macro_rules! default_targets {
    ($($calendar:ident),+; $($other:ident),+) => {
        [$(Target::Date(Calendar::$calendar),)+ Target::Haab, Target::Tzolkin]
    };
}

/// How many targets there are, and so the most that a list can name without naming one twice.
pub const MAX_TARGETS: usize = Calendar::ALL.len() + 2;

/// What a table shows of each day: the date in a calendar, the haab or the tzolkin.
#[derive(Clone, Copy, PartialEq, Eq, Debug)]
pub enum Target {
    Date(Calendar),
    Haab,
    Tzolkin,
}

impl Target {
    ghost use Rattle.date_texts.specs.Calendars.{target_name};

    /// Every target once: those that a table has by default, in their order, and then the French calendar as it was
    /// used.
    pub const ALL: [Target; MAX_TARGETS] = every_calendar!(targets);

    /// The targets that a table has by default, in their order: every calendar but the French one as it was used, the
    /// haab and the tzolkin.
    pub const DEFAULT: [Target; MAX_TARGETS - 1] = every_calendar!(default_targets);

    /// The name in small letters, which heads the target's column.
    pub fn name(&self) -> &'static str
        ensures { result.now ≡ target_name self.now }
    {
        match self {
            Target::Date(calendar) => calendar.name(),
            Target::Haab => "haab",
            Target::Tzolkin => "tzolkin",
        }
    }
}
