//! The Islamic calendar: twelve months a year, and its leap years in rounds of 30.

ghost use Rattle.std.specs.Prelude.{◌≡◌, ◌≤◌, unsigned_abs};
ghost use Rattle.day_numbers.specs.Rules.{days_of_years as days_of, total_days};
ghost use Rattle.day_numbers.proofs.DateLemmas.{rules_one_to_one};
ghost use Rattle.lunar_calendars.specs.Islamic.{is_leap_year, months_of_year, islamic_rules};

use day_numbers::by_rules::CalendarByRules;
use day_numbers::from_year_one::{FromYearOne, YearRule};
use day_numbers::months;
use day_numbers::rules::Month;

/// The arithmetic Islamic calendar, in which month 1 is Muharram and month 12 is Dhu al-Hijja.
///
/// Odd months have 30 days and even months 29. A year is leap where `(11 * year + 14) mod 30 < 11`, which
/// makes the years 2, 5, 7, 10, 13, 16, 18, 21, 24, 26 and 29 of each 30 leap, and then month 12 has 30
/// days. Years count from 1, which begins on R.D. 227015, Friday, 16 July 622 of the Julian calendar
/// (Reingold and Dershowitz, *Calendrical Calculations*). A register that went by observed new moons may
/// differ by a day or two.
#[derive(Clone, Copy, PartialEq, Eq, Debug)]
pub struct Islamic;

static COMMON_YEAR: [Month; 12] =
    months![1: 30, 2: 29, 3: 30, 4: 29, 5: 30, 6: 29, 7: 30, 8: 29, 9: 30, 10: 29, 11: 30, 12: 29];

static LEAP_YEAR: [Month; 12] =
    months![1: 30, 2: 29, 3: 30, 4: 29, 5: 30, 6: 29, 7: 30, 8: 29, 9: 30, 10: 29, 11: 30, 12: 30];

fn is_leap(year: u32) -> bool
    requires { year ≤ 99_999 }
    ensures { result ≡ is_leap_year year }
{
    (11 * year + 14) % 30 < 11
}

/// The days of the years 1 to `years`.
#[tactic(auto, using(crate::proofs::IslamicYearLemmas::islamic_days))]
fn days_of_years(years: u32) -> u32
    requires { years ≤ 99_999 }
    ensures value { result ≡ days_of (λ year. total_days (months_of_year (unsigned_abs year))) years }
    ensures near { result ≤ 50_000_000 }
{
    354 * years + (11 * years + 14) / 30
}

impl YearRule for Islamic {
    ghost months_of = { islamic_rules.months };

    fn days_of_years(years: u32) -> u32 {
        days_of_years(years)
    }

    #[tactic(auto, using(crate::proofs::IslamicYearLemmas::islamic_days))]
    fn years_in(days: u32) -> (u32, u16) {
        // The years 1 to n have (10631 * n + 14) / 30 days, and each day takes 30 of what 10631 leaves.
        let scaled = 30 * days + 15;
        (scaled / 10_631, (scaled % 10_631 / 30) as u16)
    }

    fn months(year: u32) -> &'static [Month] {
        if is_leap(year) {
            &LEAP_YEAR
        } else {
            &COMMON_YEAR
        }
    }

    fn month_at(_year: u32, place: u16) -> (u8, u8) {
        // By turns of 30 and 29 days, the months before the month of index i have (325 * i + 5) / 11, and each day
        // takes 11 of what 325 leaves.
        let scaled = 11 * place as u32 + 5;
        ((scaled / 325) as u8 + 1, (scaled % 325 / 11) as u8 + 1)
    }
}

impl FromYearOne for Islamic {
    type Years = Islamic;

    ghost epoch_day = { islamic_rules.epoch };

    fn epoch(&self) -> i64 {
        227_015
    }
}

impl CalendarByRules for Islamic {
    ghost one_to_one = { rules_one_to_one islamic_rules };
}
