//! Days by their numbers, and the days of the week.

ghost use Rattle.std.specs.Prelude.{◌≡◌, ◌↔◌, ℕ, [], IsSome, IfSome, Some, get_or, slice_get};
ghost use Rattle.day_numbers.specs.Days.{IsDayNumber, weekday_number, all_weekdays, weekday_names};

/// A day by its fixed day number (R.D.), which counts days: R.D. 1 is Monday, 1 January of year 1 of
/// the proleptic Gregorian calendar (Reingold and Dershowitz, *Calendrical Calculations*).
///
/// The number is always from -3652424, 1 January -9999 Gregorian, to 3652059, 31 December 9999.
#[derive(Clone, Copy, PartialEq, Eq, Debug)]
pub struct Day {
    number: i64,
    pub ghost in_range: { IsDayNumber number },
}

impl Day {
    /// The number of the first day, 1 January -9999 Gregorian.
    pub const MIN_NUMBER: i64 = -3_652_424;

    /// The number of the last day, 31 December 9999 Gregorian.
    pub const MAX_NUMBER: i64 = 3_652_059;

    /// The day with the fixed day number `number`, or `None` exactly where the number is not from
    /// -3652424 to 3652059.
    ///
    /// # Examples
    ///
    /// ```
    /// // 1 January 1970 was a Thursday.
    /// let day = Day::new(719_163).ok_or("out of range")?;
    /// assert_eq!(rt; day.weekday(), Weekday::Thursday);
    /// assert!(rt; Day::new(3_652_060).is_none());
    /// ```
    pub fn new(number: i64) -> Option<Self>
        ensures made { IsSome result ↔ IsDayNumber number }
        ensures value { IfSome result (λ day. day.number ≡ number) }
    {
        if number < Day::MIN_NUMBER || number > Day::MAX_NUMBER {
            return None;
        }
        Some(Day { number })
    }

    /// The fixed day number, from -3652424 to 3652059.
    pub fn number(&self) -> i64
        ensures value { result ≡ self.now.number }
        ensures in_range { IsDayNumber result }
    {
        self.number
    }

    /// The day of the week: the day number modulo 7, rounded down, where 0 is Sunday.
    pub fn weekday(&self) -> Weekday
        ensures { slice_get all_weekdays (weekday_number self.now.number) ≡ Some result }
    {
        match self.number.rem_euclid(7) {
            0 => Weekday::Sunday,
            1 => Weekday::Monday,
            2 => Weekday::Tuesday,
            3 => Weekday::Wednesday,
            4 => Weekday::Thursday,
            5 => Weekday::Friday,
            _ => Weekday::Saturday,
        }
    }
}

/// A day of the week.
#[derive(Clone, Copy, PartialEq, Eq, Debug)]
pub enum Weekday {
    Sunday,
    Monday,
    Tuesday,
    Wednesday,
    Thursday,
    Friday,
    Saturday,
}

impl Weekday {
    /// The English name, from `Sunday` to `Saturday`.
    #[tactic(auto, using(crate::proofs::NameLemmas::weekday_named))]
    pub fn name(&self) -> &str
        ensures { (number : ℕ) → slice_get all_weekdays number ≡ Some self.now
            → result.now ≡ get_or weekday_names number [] }
    {
        match self {
            Weekday::Sunday => "Sunday",
            Weekday::Monday => "Monday",
            Weekday::Tuesday => "Tuesday",
            Weekday::Wednesday => "Wednesday",
            Weekday::Thursday => "Thursday",
            Weekday::Friday => "Friday",
            Weekday::Saturday => "Saturday",
        }
    }
}
