//! Why dates stay as they are written, and how many do.

ghost use Rattle.std.specs.Prelude.{◌≡◌};
ghost use Rattle.sheets.specs.DateStops.{reason_by as by_spec, reason_number};

use written_dates::Stop;

/// Why a date stays as it is written, where no name that is not known stops it.
#[derive(Clone, Copy, PartialEq, Eq, Debug)]
pub enum Reason {
    /// The field of its calendar is empty.
    NoCalendar,
    /// A character stands in it that no date has.
    Character,
    /// It has a dash that may be a minus.
    Minus,
    /// A weekday, or a day of the decade, stands in it that is not that of the date.
    OtherWeekday,
    /// It has a year, and no day.
    NoDay,
    /// It has a month and a day, and no year.
    NoYear,
    /// Its year is one that the French Republic did not have.
    NoSuchYear,
    /// It is no date otherwise.
    NoDate,
    /// It is none as the year is looked for first, and would be one with the day or the month first.
    YearLast,
}

impl Reason {
    /// The number of the reason, from 1 for `NoCalendar` to 9 for `YearLast`.
    pub fn number(self) -> usize
        ensures { result ≡ reason_number self }
    {
        match self {
            Reason::NoCalendar => 1,
            Reason::Character => 2,
            Reason::Minus => 3,
            Reason::OtherWeekday => 4,
            Reason::NoDay => 5,
            Reason::NoYear => 6,
            Reason::NoSuchYear => 7,
            Reason::NoDate => 8,
            Reason::YearLast => 9,
        }
    }
}

/// The reason for which a date in words is not read.
pub(crate) fn reason_by(stop: Option<Stop>) -> Reason
    ensures { result ≡ by_spec stop }
{
    match stop {
        Some(Stop::Character) => Reason::Character,
        Some(Stop::Minus) => Reason::Minus,
        Some(Stop::OtherWeekday) => Reason::OtherWeekday,
        Some(Stop::NoDay) => Reason::NoDay,
        Some(Stop::NoYear) => Reason::NoYear,
        Some(Stop::NoSuchYear) => Reason::NoSuchYear,
        _ => Reason::NoDate,
    }
}

/// How many dates stay as they are written for each reason.
#[repr(C)]
#[derive(Clone, Copy, PartialEq, Eq)]
pub struct ReasonCounts {
    pub no_calendar: usize,
    pub character: usize,
    pub minus: usize,
    pub other_weekday: usize,
    pub no_day: usize,
    pub no_year: usize,
    pub no_such_year: usize,
    pub no_date: usize,
    pub year_last: usize,
}

impl ReasonCounts {
    ghost use Rattle.std.specs.Prelude.{◌<◌, ◌+◌, ◌==◌, ◌^◌, cond};
    ghost use Rattle.sheets.specs.DateStops.{count_of};
    ghost use Rattle.sheets.specs.declared.reasons.Reason.{Reason as ReasonValue};

    /// None yet.
    pub fn none() -> ReasonCounts
        ensures { (reason : ReasonValue) → count_of result reason ≡ 0 }
    {
        ReasonCounts {
            no_calendar: 0,
            character: 0,
            minus: 0,
            other_weekday: 0,
            no_day: 0,
            no_year: 0,
            no_such_year: 0,
            no_date: 0,
            year_last: 0,
        }
    }

    /// How many stay for this reason.
    pub fn count(&self, reason: Reason) -> usize
        ensures { result ≡ count_of self.now reason }
    {
        match reason {
            Reason::NoCalendar => self.no_calendar,
            Reason::Character => self.character,
            Reason::Minus => self.minus,
            Reason::OtherWeekday => self.other_weekday,
            Reason::NoDay => self.no_day,
            Reason::NoYear => self.no_year,
            Reason::NoSuchYear => self.no_such_year,
            Reason::NoDate => self.no_date,
            Reason::YearLast => self.year_last,
        }
    }

    /// Counts one more that stays for this reason.
    pub(crate) fn add(&mut self, reason: Reason)
        requires { count_of self.old reason + 1 < 2 ^ 64 }
        ensures { (other : ReasonValue) → count_of self.new other
            ≡ count_of self.old other + cond (reason_number reason == reason_number other) 1 0 }
    {
        match reason {
            Reason::NoCalendar => self.no_calendar += 1,
            Reason::Character => self.character += 1,
            Reason::Minus => self.minus += 1,
            Reason::OtherWeekday => self.other_weekday += 1,
            Reason::NoDay => self.no_day += 1,
            Reason::NoYear => self.no_year += 1,
            Reason::NoSuchYear => self.no_such_year += 1,
            Reason::NoDate => self.no_date += 1,
            Reason::YearLast => self.year_last += 1,
        }
    }
}
