//! Calendars of twelve months of 30 days and a short thirteenth month, whose years begin with year 1.
//!
//! Such a calendar is its epoch and its leap rule: its years are [`ThirteenMonths`].

ghost use Rattle.std.specs.Prelude.{◌≡◌, ◌≤◌, ◌<◌, ◌+◌, Bool, false, ℤ, pos, IsTrue, length};
ghost use Rattle.day_numbers.specs.Rules.{days_of_years as days_of, total_days, are_months};
ghost use Rattle.day_numbers.proofs.DateLemmas.{rules_one_to_one};
ghost use Rattle.solar_calendars.specs.French.{french_rules, republican_rules};
ghost use Rattle.solar_calendars.specs.ThirteenMonths.{thirteen_months as thirteen_months_of, is_third_of_four};
ghost use Rattle.solar_calendars.specs.ThirteenMonths.{coptic_rules, ethiopic_rules, egyptian_rules, armenian_rules};

use crate::french::FrenchLeapYears;
use day_numbers::by_rules::CalendarByRules;
use day_numbers::from_year_one::{FromYearOne, YearRule};
use day_numbers::months;
use day_numbers::rules::Month;
use std::marker::PhantomData;

static COMMON: [Month; 13] =
    months![1: 30, 2: 30, 3: 30, 4: 30, 5: 30, 6: 30, 7: 30, 8: 30, 9: 30, 10: 30, 11: 30, 12: 30, 13: 5];

static LEAP: [Month; 13] =
    months![1: 30, 2: 30, 3: 30, 4: 30, 5: 30, 6: 30, 7: 30, 8: 30, 9: 30, 10: 30, 11: 30, 12: 30, 13: 6];

/// Twelve months of 30 days, and a thirteenth of 5 days, or of 6 in a leap year.
fn thirteen_months(is_leap: bool) -> &'static [Month]
    ensures value { result.now ≡ thirteen_months_of is_leap }
    ensures few { length result.now ≤ 13 }
    ensures numbered { IsTrue (are_months result.now) }
{
    if is_leap { &LEAP } else { &COMMON }
}

/// Which years have a thirteenth month of 6 days.
pub trait LeapRule {
    /// The leap years.
    ghost is_leap_year: { ℤ → Bool };

    /// Whether the year, which is at least 1, is a leap year.
    fn is_leap(year: u32) -> bool
        ensures { result ≡ is_leap_year (pos year) };

    /// The days of the years 1 to `years`, which is at most 99999.
    fn days_of_years(years: u32) -> u32
        requires { years ≤ 99_999 }
        ensures value { result ≡ days_of (λ y. total_days (thirteen_months_of (is_leap_year y))) years }
        ensures near { result ≤ 50_000_000 };

    /// How many whole years the first `days` days from the epoch on fill, and how many days are left; `days` is at most
    /// 6000000.
    fn years_in(days: u32) -> (u32, u16)
        requires { days ≤ 6_000_000 }
        ensures near { result.0 ≤ 99_998 }
        ensures sum { days_of (λ y. total_days (thirteen_months_of (is_leap_year y))) result.0 + result.1 ≡ days }
        ensures inside { result.1 < total_days (thirteen_months_of (is_leap_year (pos (result.0 + 1)))) };
}

/// The third of every four years is a leap year: 3, 7, 11, ..
pub struct ThirdOfFour;

impl LeapRule for ThirdOfFour {
    ghost is_leap_year = { is_third_of_four };

    fn is_leap(year: u32) -> bool {
        year % 4 == 3
    }

    fn days_of_years(years: u32) -> u32 {
        365 * years + (years + 1) / 4
    }

    fn years_in(days: u32) -> (u32, u16) {
        // The years 1 to n have (1461 * n + 1) / 4 days, and each day takes 4 of what 1461 leaves.
        let scaled = 4 * days + 2;
        (scaled / 1461, (scaled % 1461 / 4) as u16)
    }
}

/// No year is a leap year.
pub struct NoLeapYear;

impl LeapRule for NoLeapYear {
    ghost is_leap_year = { λ y. false };

    fn is_leap(_year: u32) -> bool {
        false
    }

    fn days_of_years(years: u32) -> u32 {
        365 * years
    }

    fn years_in(days: u32) -> (u32, u16) {
        (days / 365, (days % 365) as u16)
    }
}

/// The years of such a calendar, by its leap rule.
pub struct ThirteenMonths<L>(PhantomData<L>);

impl<L: LeapRule> YearRule for ThirteenMonths<L> {
    ghost months_of = { λ y. thirteen_months_of (L.is_leap_year y) };

    fn days_of_years(years: u32) -> u32 {
        L::days_of_years(years)
    }

    fn years_in(days: u32) -> (u32, u16) {
        L::years_in(days)
    }

    fn months(year: u32) -> &'static [Month] {
        thirteen_months(L::is_leap(year))
    }

    fn month_at(_year: u32, place: u16) -> (u8, u8) {
        ((place / 30) as u8 + 1, (place % 30) as u8 + 1)
    }
}

/// The Coptic calendar (Reingold and Dershowitz, *Calendrical Calculations*, "The Coptic and Ethiopic
/// Calendars").
///
/// Its epoch, 1 Thoout of year 1, is R.D. 103605, 29 August 284 of the Julian calendar. Years count
/// from 1; there is none before. A year has twelve months of 30 days and a thirteenth of 5 days, or of
/// 6 in a leap year, where the year's remainder by 4 is 3.
#[derive(Clone, Copy, Debug)]
pub struct Coptic;

impl FromYearOne for Coptic {
    type Years = ThirteenMonths<ThirdOfFour>;

    ghost epoch_day = { coptic_rules.epoch };

    fn epoch(&self) -> i64 {
        103_605
    }
}

impl CalendarByRules for Coptic {
    ghost one_to_one = { rules_one_to_one coptic_rules };
}

/// The Ethiopic calendar (Reingold and Dershowitz, *Calendrical Calculations*, "The Coptic and Ethiopic
/// Calendars").
///
/// Its epoch, 1 Maskaram of year 1, is R.D. 2796, 29 August 8 of the Julian calendar. Its months and
/// leap years are those of [`Coptic`]: a year, from 1 on, is a leap year where its remainder by 4 is 3.
#[derive(Clone, Copy, Debug)]
pub struct Ethiopic;

impl FromYearOne for Ethiopic {
    type Years = ThirteenMonths<ThirdOfFour>;

    ghost epoch_day = { ethiopic_rules.epoch };

    fn epoch(&self) -> i64 {
        2_796
    }
}

impl CalendarByRules for Ethiopic {
    ghost one_to_one = { rules_one_to_one ethiopic_rules };
}

/// The Egyptian calendar (Reingold and Dershowitz, *Calendrical Calculations*, "Calendar Basics").
///
/// Its epoch, 1 Thoth of year 1 of Nabonassar, is R.D. -272787, 26 February 747 before our era in the
/// Julian calendar. Years count from 1; there is none before. Every year has twelve months of 30 days
/// and a thirteenth of 5 days.
#[derive(Clone, Copy, Debug)]
pub struct Egyptian;

impl FromYearOne for Egyptian {
    type Years = ThirteenMonths<NoLeapYear>;

    ghost epoch_day = { egyptian_rules.epoch };

    fn epoch(&self) -> i64 {
        -272_787
    }
}

impl CalendarByRules for Egyptian {
    ghost one_to_one = { rules_one_to_one egyptian_rules };
}

/// The Armenian calendar (Reingold and Dershowitz, *Calendrical Calculations*, "Calendar Basics").
///
/// Its epoch, the first day of year 1, is R.D. 201443, 11 July 552 of the Julian calendar. Its years and
/// months are those of [`Egyptian`]: from 1 on, with 365 days each.
#[derive(Clone, Copy, Debug)]
pub struct Armenian;

impl FromYearOne for Armenian {
    type Years = ThirteenMonths<NoLeapYear>;

    ghost epoch_day = { armenian_rules.epoch };

    fn epoch(&self) -> i64 {
        201_443
    }
}

impl CalendarByRules for Armenian {
    ghost one_to_one = { rules_one_to_one armenian_rules };
}

/// The French Revolutionary calendar by its arithmetic leap rule (Reingold and Dershowitz,
/// *Calendrical Calculations*, "The French Revolutionary Calendar").
///
/// Its epoch, 1 Vendémiaire of year 1, is R.D. 654415, 22 September 1792 of the Gregorian calendar. Years
/// count from 1; there is none before. A year has twelve months of 30 days and a thirteenth of 5 days,
/// or of 6 in a leap year, where the year is divisible by 4 and not by 4000, and its remainder by 400
/// is none of 100, 200 and 300.
#[derive(Clone, Copy, Debug)]
pub struct French;

impl FromYearOne for French {
    type Years = ThirteenMonths<FrenchLeapYears>;

    ghost epoch_day = { french_rules.epoch };

    fn epoch(&self) -> i64 {
        654_415
    }
}

impl CalendarByRules for French {
    ghost one_to_one = { rules_one_to_one french_rules };
}

/// The French Republican calendar as it was used, from 22 September 1792 to 31 December 1805 of the Gregorian calendar
/// (the decree of 4 Frimaire of year 2, and the tables of concordance).
///
/// Its epoch, 1 Vendémiaire of year 1, is R.D. 654415, as that of [`French`]; its months and leap years are those of
/// [`Coptic`]: a year, from 1 on, is a leap year where its remainder by 4 is 3. So the years in use, 1 to 14, have leap
/// days in 3, 7 and 11, where [`French`] has them in 4, 8 and 12. Later years count on by the same rule.
#[derive(Clone, Copy, Debug)]
pub struct Republican;

impl FromYearOne for Republican {
    type Years = ThirteenMonths<ThirdOfFour>;

    ghost epoch_day = { republican_rules.epoch };

    fn epoch(&self) -> i64 {
        654_415
    }
}

impl CalendarByRules for Republican {
    ghost one_to_one = { rules_one_to_one republican_rules };
}
