//! Roman dates: a year, a month and the Roman name of a day.

ghost use Rattle.std.specs.Prelude.{◌≡◌, ◌↔◌, ◌≤◌, IsSome, IfSome};
ghost use Rattle.day_numbers.specs.Dates.{IsYear};
ghost use Rattle.solar_calendars.specs.Roman.{count_of};

/// The Roman name of a day: a principal day of a month and the count of days back from it, the principal day itself
/// being 1 (Reingold and Dershowitz, *Calendrical Calculations*, "Roman Nomenclature").
#[derive(Clone, Copy, PartialEq, Eq, Debug)]
pub enum RomanName {
    /// A count back from the Kalends, day 1 of the month.
    Kalends(u8),
    /// A count back from the Nones, day 7 of March, May, July and October and day 5 of the other months.
    Nones(u8),
    /// A count back from the Ides, day 15 of March, May, July and October and day 13 of the other months.
    Ides(u8),
    /// The second of the two sixth days before the Kalends of March of a leap year: 25 February.
    SecondSixth,
}

/// The Roman name of a day, with the year and the month of the principal day that it counts back from. It need not be
/// a date of the Julian calendar.
#[derive(Clone, Copy, PartialEq, Eq, Debug)]
pub struct RomanDate {
    pub(crate) year: i32,
    pub(crate) month: u8,
    pub(crate) name: RomanName,
    pub ghost year_in: { IsYear year },
    pub ghost month_in: { month ≤ 99 },
    pub ghost count_in: { count_of name ≤ 99 },
}

impl RomanDate {
    /// The date with this year, month and name, or `None` exactly where the year is not from -99999 to 99999 or the
    /// month or the name's count is over 99.
    pub fn new(year: i32, month: u8, name: RomanName) -> Option<Self>
        ensures made { IsSome result ↔ (IsYear year × (month ≤ 99) × (count_of name ≤ 99)) }
        ensures value { IfSome result (λ d. (d.year ≡ year) × (d.month ≡ month) × (d.name ≡ name)) }
    {
        let count = match name {
            RomanName::Kalends(count) | RomanName::Nones(count) | RomanName::Ides(count) => count,
            RomanName::SecondSixth => 6,
        };
        if year < -99_999 || year > 99_999 || month > 99 || count > 99 {
            return None;
        }
        Some(RomanDate { year, month, name })
    }

    /// The year of the principal day, from -99999 to 99999.
    pub fn year(&self) -> i32
        ensures { result ≡ self.now.year }
    {
        self.year
    }

    /// The month of the principal day, from 0 to 99.
    pub fn month(&self) -> u8
        ensures { result ≡ self.now.month }
    {
        self.month
    }

    /// The name of the day, with a count from 0 to 99.
    pub fn name(&self) -> RomanName
        ensures { result ≡ self.now.name }
    {
        self.name
    }
}
