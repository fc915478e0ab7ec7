//! What names mean, and in which calendars.

ghost use Rattle.std.specs.Prelude.{◌≡◌, true, false, get_or, slice_set};

use crate::calendars::{CALENDARS, place_of};
use church_year::{Feast, Season};
use date_texts::Calendar;
use day_numbers::Weekday;

/// The day of a Roman month that a date counts back from.
#[derive(Clone, Copy, PartialEq, Eq)]
pub enum Mark {
    /// The first day.
    Kalends,
    /// The fifth or seventh day.
    Nones,
    /// The thirteenth or fifteenth day.
    Ides,
}

/// Which day is meant where a feast is named.
#[derive(Clone, Copy, PartialEq, Eq)]
pub enum Relation {
    /// The first day of a weekday after it, or the Sunday of a number after it.
    After,
    /// The last day of a weekday before it.
    Before,
    /// The day before it.
    Eve,
    /// The day after it.
    Morrow,
    /// The day seven days after it.
    Octave,
}

/// From what the years are counted that a word for year stands beside.
#[derive(Clone, Copy, PartialEq, Eq)]
pub enum Era {
    /// As those of the calendar.
    Calendar,
    /// From 38 BC, as in Spain and Portugal until the 14th and 15th century.
    Spanish,
    /// From the creation of the world, with years from 1 September, as in Russia until 1699.
    Creation,
}

/// A word of texts that say no single day.
#[derive(Clone, Copy, PartialEq, Eq)]
pub enum Word {
    /// About what follows.
    About,
    /// From what follows on.
    From,
    /// Up to what follows.
    To,
    /// Between what follows and something else.
    Between,
    /// And what follows.
    And,
    /// No date is known.
    Undated,
}

/// What a name means in a date.
#[derive(Clone, Copy, PartialEq, Eq)]
pub enum Meaning {
    /// Nothing.
    Nothing,
    /// A month.
    Month(u8),
    /// Adar: month 12 of a Hebrew year, and month 13 too where the year has one.
    Adar,
    /// A number.
    Number(u32),
    /// A word for year: the number behind it is the year; of another era than the calendar's one before it too.
    YearWord(Era),
    /// A word for day: the number beside it counts days.
    DayWord,
    /// A part of a year, from a month to a month.
    Months(u8, u8),
    /// A part of a year or a century, by its place among so many that are alike: the first of three.
    Part(u8, u8),
    /// The last day of a month.
    LastDay,
    /// A century, whose first year ends with 00 or 01, as this says.
    Century(u8),
    /// Ten years.
    Decade,
    /// A mark.
    Mark(Mark),
    /// A day of the week.
    Weekday(Weekday),
    /// A day of the decade in the calendar of the French Republic, 1 to 10.
    DecadeDay(u8),
    /// Which day is meant where a feast is named.
    Relation(Relation),
    /// A feast.
    Feast(Feast),
    /// Sundays that are numbered.
    Sundays(Season),
    /// A word of texts that say no single day.
    Word(Word),
}

/// The calendars in which a name means something.
#[derive(Clone, Copy, PartialEq, Eq)]
pub struct Calendars {
    /// Whether each calendar is one of them, by its place in `Calendar::ALL`.
    pub held: [bool; CALENDARS],
}

impl Calendars {
    ghost use Rattle.written_dates.specs.Calendars.{place};

    /// All of them.
    pub const ALL: Calendars = Calendars {
        held: [true; CALENDARS],
    };

    /// None of them.
    pub const NONE: Calendars = Calendars {
        held: [false; CALENDARS],
    };

    /// These, and one more.
    pub fn with(self, calendar: Calendar) -> Calendars
        ensures { result.held ≡ slice_set self.held (place calendar) true }
    {
        let mut held = self.held;
        held[place_of(calendar)] = true;
        Calendars { held }
    }

    /// Whether the calendar is one of them.
    pub fn has(self, calendar: Calendar) -> bool
        ensures { result ≡ get_or self.held (place calendar) false }
    {
        self.held[place_of(calendar)]
    }
}

/// A name and what it means in dates.
#[derive(Clone, Copy)]
pub struct Name<'a> {
    /// The name: numbers and words, with blanks and signs that only part these.
    pub text: &'a [u8],
    /// What it means.
    pub meaning: Meaning,
    /// The calendars in which it does.
    pub calendars: Calendars,
}
