//! What a calendar is: its dates and its days, matched one to one.

ghost use Rattle.std.specs.Prelude.{◌≡◌, ◌↔◌, ℤ, Option, IsSome, IfSome, Some};
ghost use Rattle.day_numbers.specs.Dates.{IsDayOf};
ghost use Rattle.day_numbers.specs.Days.{IsSinceFirstDay};
ghost use Rattle.day_numbers.specs.declared.ymd.Ymd.{Ymd};

use crate::day::Day;
use crate::ymd::Ymd;

/// Why a date names no day.
#[derive(Clone, Copy, PartialEq, Eq, Debug)]
pub enum DateFault {
    /// The calendar has no such date.
    NoSuchDate,
    /// The calendar has the date, and its day number is not from -3652424 to 3652059.
    OutOfRange,
}

impl DateFault {
    ghost use Rattle.day_numbers.specs.Dates.{fault_number};

    /// The number of the refusal that a record with this fault gets: 6 for `NoSuchDate` and 7 for
    /// `OutOfRange`.
    pub fn number(&self) -> u8
        ensures { result ≡ fault_number self.now }
    {
        match self {
            DateFault::NoSuchDate => 6,
            DateFault::OutOfRange => 7,
        }
    }
}

/// A calendar whose dates and days are matched one to one by arithmetic.
///
/// [`day_of`](Self::day_of) and [`date_on`](Self::date_on) are inverse to each other: an accepted date
/// is given back on its day, and the date on a day is accepted and has that day.
pub trait ArithmeticCalendar {
    /// The dates of the calendar.
    ghost IsDate: { Ymd → Type 0 };

    /// The fixed day number of a date.
    ghost day_number: { Ymd → ℤ };

    /// The fixed day number of the first day of a calendar that has one.
    ghost first_day: { Option ℤ };

    /// The day of a date.
    ///
    /// # Errors
    ///
    /// `NoSuchDate` exactly where the calendar has no such date, whatever its day would be;
    /// `OutOfRange` exactly where it has the date and the day number is not from -3652424 to 3652059.
    ///
    /// # Examples
    ///
    /// ```
    /// let date = Ymd::new(1582, 10, 5).ok_or("out of bounds")?;
    /// let day = Julian.day_of(date)?;
    /// assert_eq!(rt; Gregorian.date_on(day), Ymd::new(1582, 10, 15));
    /// let year_zero = Ymd::new(0, 1, 1).ok_or("out of bounds")?;
    /// assert_eq!(rt; Julian.day_of(year_zero), Err(DateFault::NoSuchDate));
    /// ```
    fn day_of(&self, date: Ymd) -> Result<Day, DateFault>
        ensures { IsDayOf (IsDate date) (day_number date) DateFault.NoSuchDate DateFault.OutOfRange result };

    /// The one date whose day this is, or `None` exactly before the calendar's first day.
    fn date_on(&self, day: Day) -> Option<Ymd>
        ensures dated { IsSome result ↔ IsSinceFirstDay first_day day.number }
        ensures value { IfSome result (λ date. IsDate date × (day_number date ≡ day.number)) }
        ensures only { (date : Ymd) → IsDate date → day_number date ≡ day.number → result ≡ Some date };

    /// Two dates of one day are one date.
    ghost one_date: { (d e : Ymd) → IsDate d → IsDate e → day_number d ≡ day_number e → d ≡ e };

    /// No date lies before the first day.
    ghost dates_have_days: { (d : Ymd) → IsDate d → IsSinceFirstDay first_day (day_number d) };
}
