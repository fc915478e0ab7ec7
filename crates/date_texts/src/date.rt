//! Dates as texts say them.

ghost use Rattle.std.specs.Prelude.{◌≡◌, ◌↔◌, IsSome, IfSome};
ghost use Rattle.date_texts.specs.Calendars.{IsCivil};

use crate::calendar::Calendar;
use crate::grammar::Grammar;
use day_numbers::Ymd;
use maya_calendars::LongCount;
use solar_calendars::RomanDate;

/// A calendar with a year, a month and a day, which need not be a date that the calendar has. In the
/// calendar of weeks the month holds the week and the day the weekday. The calendar is never the long
/// count, nor that of Roman dates.
#[derive(Clone, Copy, PartialEq, Eq, Debug)]
pub struct CivilDate {
    pub(crate) calendar: Calendar,
    pub(crate) ymd: Ymd,
    pub ghost civil: { IsCivil calendar },
}

impl CivilDate {
    /// The year, month and day `ymd` in the calendar, or `None` exactly where the calendar is the long
    /// count or that of Roman dates.
    pub fn new(calendar: Calendar, ymd: Ymd) -> Option<Self>
        ensures made { IsSome result ↔ IsCivil calendar }
        ensures value { IfSome result (λ date. (date.calendar ≡ calendar) × (date.ymd ≡ ymd)) }
    {
        match calendar.grammar() {
            Grammar::Civil | Grammar::Week => Some(CivilDate { calendar, ymd }),
            Grammar::LongCount | Grammar::Roman => None,
        }
    }

    /// The calendar that the date is of.
    pub fn calendar(&self) -> Calendar
        ensures value { result ≡ self.now.calendar }
        ensures civil { IsCivil result }
    {
        self.calendar
    }

    /// The year, the month and the day; the year, the week and the weekday in the calendar of weeks.
    pub fn ymd(&self) -> Ymd
        ensures { result ≡ self.now.ymd }
    {
        self.ymd
    }
}

/// A date as a text says it, which need not be a date that its calendar has.
#[derive(Clone, Copy, PartialEq, Eq, Debug)]
pub enum Date {
    /// A year, a month and a day, or a year, a week and a weekday.
    Civil(CivilDate),
    /// A long count.
    Long(LongCount),
    /// A year, a month and the Roman name of a day.
    Roman(RomanDate),
}
