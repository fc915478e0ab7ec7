//! Laws of first and last days. The functions do nothing that matters: their contracts are the laws.

ghost use Rattle.std.specs.Prelude.{◌≡◌, ◌≤◌};
ghost use Rattle.day_numbers.specs.Rules.{Rules};
ghost use Rattle.date_texts.specs.Calendars.{by_rules, reckoning};
ghost use Rattle.date_spans.specs.Laws.{LastDayIsGreatest, MonthIsExact, MonthIsForwards, YearIsExact, YearIsForwards};
ghost use Rattle.date_spans.specs.Laws.{BracketsKeepSpans, DatesAreTheirOwnSpans, RegisterDatesAreTheirOwnSpans, TimesChangeNoSpan};
ghost use Rattle.date_spans.specs.Laws.{SaidIsForwards, SaidMonthIsExact, SaidYearIsExact, SaidYearsAreExact, SpansAreOne};

use crate::ends::year_of;
use crate::extents::Extent;
use crate::months::months_of;
use date_texts::Calendar;
use date_texts::laws::one_cell;
use written_dates::{Choice, Number};

/// The first and the last day of a month have all of its days between them, and no others; the last one is the greatest
/// day for which the calendar has the date, and not before the first.
pub fn months_are_exact()
    ensures greatest { (rules : Rules) → LastDayIsGreatest rules }
    ensures exact { (rules : Rules) → MonthIsExact rules }
    ensures forwards { (rules : Rules) → MonthIsForwards rules }
{}

/// The first and the last day of a year up to 99,999 have all of its days between them, and no others, and the last one is
/// not before the first.
pub fn years_are_exact(calendar: Calendar, year: u32)
    ensures exact { year ≤ 99_999 → (rules : Rules) → reckoning calendar ≡ by_rules rules → YearIsExact rules year }
    ensures forwards { year ≤ 99_999 → (rules : Rules) → reckoning calendar ≡ by_rules rules
        → YearIsForwards rules year }
{
    if year > 99_999 {
        return;
    }
    let _ = months_of(calendar, year);
}

/// The ends of a month that is said, and of a year, have exactly its dates between them, and the last one is not before
/// the first.
pub fn said_spans_are_exact(choice: &Choice, calendar: Calendar, said: Number, month: u32)
    ensures month { SaidMonthIsExact choice.now calendar said month }
    ensures year { SaidYearIsExact choice.now calendar said }
    ensures month_forwards { SaidIsForwards choice.now calendar (Extent.Month said month) }
    ensures year_forwards { SaidIsForwards choice.now calendar (Extent.Year said) }
{
    let Some(year) = year_of(choice, calendar, said) else {
        return;
    };
    let _ = months_of(calendar, year);
}

/// The ends of years that are said, as of a century, have exactly the dates of these years between them.
pub fn said_years_are_exact(choice: &Choice, calendar: Calendar, from: Number, to: Number)
    ensures { SaidYearsAreExact choice.now calendar from to }
{
    let Some(year) = year_of(choice, calendar, to) else {
        return;
    };
    let _ = months_of(calendar, year);
}

/// What is read as a date today, or stands as registers have it, is its own first and last day, as it is written today,
/// where it has no dual year; and a time of day behind it changes nothing, nor do brackets but for the mark.
pub fn dates_are_their_own_spans()
    ensures read { DatesAreTheirOwnSpans }
    ensures stands { RegisterDatesAreTheirOwnSpans }
    ensures times { TimesChangeNoSpan }
    ensures brackets { BracketsKeepSpans }
{}

/// A text has one first day and one last, and says one thing of them.
#[tactic(auto, using(crate::proofs::OneSpanLemmas::spans_are_one))]
pub fn texts_have_one_span()
    ensures one { SpansAreOne }
{
    one_cell();
}
