//! The calendars.

ghost use Rattle.std.specs.Prelude.{◌≡◌};
ghost use Rattle.day_numbers.specs.Dates.{IsDayOf};
ghost use Rattle.day_numbers.specs.declared.ymd.Ymd.{Ymd};

use crate::grammar::Grammar;
use day_numbers::{ArithmeticCalendar, DateFault, Day, Ymd};

/// Matches a calendar. `$by` is the type that finds its dates; the long count and the Roman dates have none.
macro_rules! by_calendar {
    ($calendar:expr, $by:ident => $answer:expr, Longcount => $long:expr, Roman => $roman:expr) => {
        match $calendar {
            Calendar::Gregorian => { let $by = &solar_calendars::Gregorian; $answer }
            Calendar::Iso => { let $by = &solar_calendars::IsoWeek; $answer }
            Calendar::Julian => { let $by = &solar_calendars::Julian; $answer }
            Calendar::Coptic => { let $by = &solar_calendars::Coptic; $answer }
            Calendar::Ethiopic => { let $by = &solar_calendars::Ethiopic; $answer }
            Calendar::Egyptian => { let $by = &solar_calendars::Egyptian; $answer }
            Calendar::Armenian => { let $by = &solar_calendars::Armenian; $answer }
            Calendar::Islamic => { let $by = &lunar_calendars::Islamic; $answer }
            Calendar::Hebrew => { let $by = &lunar_calendars::Hebrew; $answer }
            Calendar::French => { let $by = &solar_calendars::French; $answer }
            Calendar::Republican => { let $by = &solar_calendars::Republican; $answer }
            Calendar::Longcount => $long,
            Calendar::Roman => $roman,
        }
    };
}

pub(crate) use by_calendar;

/// Hands every calendar to a macro: those of the default targets, in their order, and those that no default target has.
macro_rules! every_calendar {
    ($list:ident) => {
        $list![
            Gregorian, Iso, Julian, Coptic, Ethiopic, Egyptian, Armenian, Islamic, Hebrew, Longcount, French, Roman;
            Republican
        ]
    };
}

pub(crate) use every_calendar;

macro_rules! calendars {
    ($($calendar:ident),+; $($other:ident),+) => { [$(Calendar::$calendar,)+ $(Calendar::$other),+] };
}

/// A calendar whose dates are read and written.
#[derive(Clone, Copy, PartialEq, Eq, Debug)]
pub enum Calendar {
    Gregorian,
    Iso,
    Julian,
    Coptic,
    Ethiopic,
    Egyptian,
    Armenian,
    Islamic,
    Hebrew,
    Longcount,
    /// The French calendar by its arithmetic leap rule.
    French,
    /// The Roman names of the days of the Julian calendar.
    Roman,
    /// The French calendar as it was used.
    Republican,
}

impl Calendar {
    ghost use Rattle.date_texts.specs.Calendars.{calendar_name, IsDateBy, day_number_by, grammar as grammar_spec};
    ghost use Rattle.date_texts.specs.Calendars.{reckoning};

    /// Every calendar once: those of the default targets, in their order, and then `Republican`.
    pub const ALL: [Calendar; 13] = every_calendar!(calendars);

    /// The name in small letters, as registers and the headings of tables have it.
    pub fn name(&self) -> &'static str
        ensures { result.now ≡ calendar_name self.now }
    {
        match self {
            Calendar::Gregorian => "gregorian",
            Calendar::Iso => "iso",
            Calendar::Julian => "julian",
            Calendar::Coptic => "coptic",
            Calendar::Ethiopic => "ethiopic",
            Calendar::Egyptian => "egyptian",
            Calendar::Armenian => "armenian",
            Calendar::Islamic => "islamic",
            Calendar::Hebrew => "hebrew",
            Calendar::Longcount => "longcount",
            Calendar::French => "french",
            Calendar::Roman => "roman",
            Calendar::Republican => "republican",
        }
    }

    /// How the dates of the calendar are written.
    pub(crate) fn grammar(self) -> Grammar
        ensures { result ≡ grammar_spec self }
    {
        match self {
            Calendar::Iso => Grammar::Week,
            Calendar::Longcount => Grammar::LongCount,
            Calendar::Roman => Grammar::Roman,
            _ => Grammar::Civil,
        }
    }

    /// The day of a year, a month and a day, or a year, a week and a weekday, of the calendar.
    ///
    /// # Errors
    ///
    /// `NoSuchDate` exactly where the calendar has no such date; `OutOfRange` exactly where it has the
    /// date and the day number is not from -3652424 to 3652059.
    #[inline(always)]
    pub(crate) fn day_of(self, date: Ymd) -> Result<Day, DateFault>
        ensures { IsDayOf (IsDateBy (reckoning self) date) (day_number_by (reckoning self) date)
            DateFault.NoSuchDate DateFault.OutOfRange result }
    {
        by_calendar!(self,
            by => by.day_of(date),
            Longcount => Err(DateFault::NoSuchDate),
            Roman => Err(DateFault::NoSuchDate))
    }
}
