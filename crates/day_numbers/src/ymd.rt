//! A year, a month and a day, as calendars take and give them.

ghost use Rattle.std.specs.Prelude.{◌≡◌, ◌≤◌, ◌↔◌, IsSome, IfSome};
ghost use Rattle.day_numbers.specs.Dates.{IsYear, IsYmd};

/// A year, a month and a day of a month, as a date of some calendar is written.
///
/// The numbers need not be a date of any calendar: an [`ArithmeticCalendar`] says whether they are.
/// A calendar by weeks holds the week in the month and the weekday in the day.
///
/// [`ArithmeticCalendar`]: crate::ArithmeticCalendar
#[derive(Clone, Copy, PartialEq, Eq, Debug)]
pub struct Ymd {
    pub(crate) year: i32,
    pub(crate) month: u8,
    pub(crate) day: u8,
    pub ghost year_in: { IsYear year },
    pub ghost month_in: { month ≤ 99 },
    pub ghost day_in: { day ≤ 99 },
}

impl Ymd {
    /// The date with these numbers, or `None` exactly where the year is not from -99999 to 99999 or
    /// the month or the day is over 99.
    pub fn new(year: i32, month: u8, day: u8) -> Option<Self>
        ensures made { IsSome result ↔ IsYmd year month day }
        ensures value { IfSome result (λ d. (d.year ≡ year) × (d.month ≡ month) × (d.day ≡ day)) }
    {
        if year < -99_999 || year > 99_999 || month > 99 || day > 99 {
            return None;
        }
        Some(Ymd { year, month, day })
    }

    /// The year, from -99999 to 99999.
    pub fn year(&self) -> i32
        ensures { result ≡ self.now.year }
    {
        self.year
    }

    /// The month, from 0 to 99.
    pub fn month(&self) -> u8
        ensures { result ≡ self.now.month }
    {
        self.month
    }

    /// The day, from 0 to 99.
    pub fn day(&self) -> u8
        ensures { result ≡ self.now.day }
    {
        self.day
    }
}
