//! Calendars whose dates and days are found by their rules alone.

ghost use Rattle.day_numbers.specs.Rules.{IsDateOf, day_number_of, first_day_of};
ghost use Rattle.day_numbers.specs.RulesLaws.{HasOneDateOnEachDay};

use crate::calendar::{ArithmeticCalendar, DateFault};
use crate::day::Day;
use crate::rules::{RuledCalendar, date_by_rules, day_by_rules};
use crate::ymd::Ymd;

/// A calendar whose dates and days are found by its rules, and in no other way.
pub trait CalendarByRules: RuledCalendar {
    /// Dates and days are matched one to one.
    ghost one_to_one: { HasOneDateOnEachDay Self.rules };
}

impl<C: CalendarByRules> ArithmeticCalendar for C {
    ghost IsDate = { λ d. IsDateOf C.rules d.year d.month d.day };

    ghost day_number = { λ d. day_number_of C.rules d.year d.month d.day };

    ghost first_day = { first_day_of C.rules };

    ghost one_date = { C.one_to_one.0 };

    ghost dates_have_days = { C.one_to_one.1 };

    #[inline(always)]
    fn day_of(&self, date: Ymd) -> Result<Day, DateFault> {
        day_by_rules(self, date)
    }

    #[inline(always)]
    fn date_on(&self, day: Day) -> Option<Ymd> {
        date_by_rules(self, day)
    }
}
