//! What a day is called in the church year.

ghost use Rattle.std.specs.Prelude.{◌≡◌, ◌≤◌, ◌↔◌, ◌+ℤ◌, false, pos, map, option_map, IfSome};
ghost use Rattle.std.proofs.Props.{props};
ghost use Rattle.std.specs.Bool.{Decides};
ghost use Rattle.day_numbers.specs.Days.{weekday_number};
ghost use Rattle.day_numbers.specs.Rules.{IsDateOf, day_number_of};
ghost use Rattle.church_year.specs.Easter.{easter, rules_of};
ghost use Rattle.church_year.specs.Feasts.{IsFeastDate};
ghost use Rattle.church_year.specs.Weekdays.{number_of};
ghost use Rattle.church_days.specs.Computed.{church_name, first_name, means};
ghost use Rattle.church_days.specs.Names.{IsFirst, IsNameOn};
ghost use Rattle.church_days.specs.private.NameViews.{seen};

use crate::day_names::DAY_NAMES;
use church_year::{Anchor, Church, Feast, Place, feast_date, number_of_weekday};
use day_numbers::{ArithmeticCalendar, Day, Weekday, Ymd};
use solar_calendars::{Gregorian, Julian};

/// The one date of a day in the calendar of a church.
fn date_on(church: Church, day: Day) -> Ymd
    ensures valid { IsDateOf (rules_of church) result.year result.month result.day }
    ensures value { day_number_of (rules_of church) result.year result.month result.day ≡ day.number }
{
    match church {
        Church::Julian => Julian.date_on(day).unwrap(),
        Church::Gregorian => Gregorian.date_on(day).unwrap(),
    }
}

/// The day of a date in the calendar of a church.
fn day_of(church: Church, date: Ymd) -> Option<Day>
    ensures { IfSome result (λ day. day.number ≡ day_number_of (rules_of church) date.year date.month date.day) }
{
    let day = match church {
        Church::Julian => Julian.day_of(date),
        Church::Gregorian => Gregorian.day_of(date),
    };
    day.ok()
}

/// By how many days a day is after Easter of a year, where this Easter is reckoned.
fn days_from_easter(church: Church, year: u16, day: Day) -> Option<i64>
    ensures { IfSome result (λ days. day.number ≡ easter church year +ℤ days) }
{
    let date = feast_date(church, year, Feast::Day(Anchor::Easter, 0), Place::Days(0))?;
    let easter = day_of(church, date)?;
    Some(day.number() - easter.number())
}

/// A date of a church's calendar in a year from 1 to 9999, and what shows at once that most feasts are not on it.
#[derive(Clone, Copy)]
struct ChurchDate {
    church: Church,
    year: u16,
    date: Ymd,
    weekday: Weekday,
    from_easter: Option<i64>,
    ghost some: { 1 ≤ year },
    ghost few: { year ≤ 9_999 },
    ghost own: { date.year ≡ pos year },
    ghost on_weekday: { weekday_number (day_number_of (rules_of church) date.year date.month date.day)
        ≡ number_of weekday },
    ghost after_easter: { IfSome from_easter (λ days. day_number_of (rules_of church) date.year date.month date.day
        ≡ easter church year +ℤ days) } by { Prim.hlevel props },
}

impl ChurchDate {
    /// Whether the day so many days from an anchor may be this date.
    fn may_be_from(&self, anchor: Anchor, days: i16) -> bool
        ensures { result ≡ false → ¬ IsFeastDate self.now.church self.now.year (Feast.Day anchor days)
            (Place.Days (pos 0)) self.now.date }
    {
        match anchor {
            Anchor::Fixed(month, day) => {
                days != 0 || (self.date.month() == month && self.date.day() == day)
            }
            Anchor::Easter => match self.from_easter {
                Some(from_easter) => from_easter == days as i64,
                None => true,
            },
        }
    }

    /// Whether the day of a feast itself may be this date.
    fn may_have(&self, feast: Feast) -> bool
        ensures { result ≡ false
            → ¬ IsFeastDate self.now.church self.now.year feast (Place.Days (pos 0)) self.now.date }
    {
        match feast {
            Feast::Sunday(_, _) => self.weekday == Weekday::Sunday,
            Feast::Day(anchor, days) => self.may_be_from(anchor, days),
        }
    }

    /// Whether the day with a place to a feast may be this date.
    fn may_be(&self, feast: Feast, place: Place) -> bool
        ensures { result ≡ false → ¬ IsFeastDate self.now.church self.now.year feast place self.now.date }
    {
        match place {
            Place::Days(days) => days != 0 || self.may_have(feast),
            Place::After(weekday) | Place::Before(weekday) => {
                number_of_weekday(self.weekday) == number_of_weekday(weekday)
            }
        }
    }

    /// Whether a row of the list means this date, by its feast's date in the year.
    fn is_meant(&self, row: &(&str, Feast, Place)) -> bool
        ensures decided { Decides result
            (IsFeastDate self.now.church self.now.year row.now.1 row.now.2 self.now.date) }
        ensures computed { result
            ≡ means self.now.church self.now.year (self.now.date.month, self.now.date.day) (seen row.now) }
    {
        if !self.may_be(row.1, row.2) {
            return false;
        }
        match feast_date(self.church, self.year, row.1, row.2) {
            Some(found) => found == self.date,
            None => false,
        }
    }

    /// The first of these names that means this date.
    fn name_among(&self, names: &[(&'static str, Feast, Place)]) -> Option<&'static str>
        ensures first { IsFirst self.now.church self.now.date (map seen names.now)
            (option_map (λ name. name.now) result) }
        ensures computed { option_map (λ name. name.now) result
            ≡ first_name self.now.church self.now.year (self.now.date.month, self.now.date.day)
            (map seen names.now) }
    {
        'names: for name in names {
            if self.is_meant(name) {
                return Some(name.0);
            }
        }
        None
    }
}

/// What a day is called in the year of a church, in Latin: a feast or a Sunday; nothing where it is neither.
///
/// A Sunday has its own name where a feast of a month falls on it, but for Christmas, New Year's Day and Epiphany. No day
/// of a year below 1 or over 9999 has a name, and no day that moves with Easter in a Gregorian year before 1583.
pub fn name_on(church: Church, day: Day) -> Option<&'static str>
    ensures named { IsNameOn church day.number (option_map (λ name. name.now) result) }
    ensures computed { option_map (λ name. name.now) result ≡ church_name church day.number }
{
    let date = date_on(church, day);
    if date.year() < 1 || date.year() > 9_999 {
        return None;
    }
    let year = date.year() as u16;
    let sought = ChurchDate {
        church,
        year,
        date,
        weekday: day.weekday(),
        from_easter: days_from_easter(church, year, day),
    };
    sought.name_among(&DAY_NAMES)
}
