//! Laws of names, date texts, cells and lists of targets, for the proofs of what stands on them.

ghost use Rattle.std.specs.Prelude.{◌≡◌};
ghost use Rattle.day_numbers.specs.Days.{IsSinceFirstDay};
ghost use Rattle.date_texts.specs.declared.date.Date.{Date};
ghost use Rattle.date_texts.specs.declared.target.TheConstants.Target.{ALL, DEFAULT};
ghost use Rattle.date_texts.specs.declared.calendar.TheConstants.Calendar.{ALL as EVERY_CALENDAR};
ghost use Rattle.date_texts.specs.Calendars.{all_calendars, all_targets, default_targets, first_day_by};
ghost use Rattle.date_texts.specs.Calendars.{reckoning};
ghost use Rattle.date_texts.specs.Dates.{IsDateOfCalendar, calendar_of_date, day_number_of_date};
ghost use Rattle.date_texts.specs.Laws.{CanonicalTextsReadBack, CellsArePlain, CellsAreShort, FewTargets, OneCalendar};
ghost use Rattle.date_texts.specs.Laws.{OneCell, OneDateText, OneTarget};

use crate::calendar::Calendar;
use crate::days::date_on_day;
use day_numbers::Day;
use maya_calendars::laws::{haab_days_in_range, tzolkin_numbers_in_range};
use solar_calendars::laws::one_roman_date;

/// A text names one calendar at most.
pub fn one_calendar()
    ensures { OneCalendar }
{}

/// A text names one target at most.
pub fn one_target()
    ensures { OneTarget }
{}

/// A text says one date of a calendar at most.
#[tactic(auto, using(crate::proofs::DateTextLemmas::one_date_text))]
pub fn one_date_text()
    ensures { OneDateText }
{}

/// The canonical text of a date says that date in its calendar.
#[tactic(auto, using(crate::proofs::DateTextLemmas::canonical_text_is))]
pub fn canonical_texts_read_back()
    ensures { CanonicalTextsReadBack }
{}

/// A calendar has a date on each day from its first day on, and none before: there its cells are empty.
pub fn first_days(calendar: Calendar, day: Day)
    ensures since { IsSinceFirstDay (first_day_by (reckoning calendar)) day.number
        → ∥ ((date : Date) × (calendar_of_date date ≡ calendar) × IsDateOfCalendar date
        × (day_number_of_date date ≡ day.number)) ∥₁ }
    ensures before { ¬ (IsSinceFirstDay (first_day_by (reckoning calendar)) day.number)
        → (date : Date) → calendar_of_date date ≡ calendar → IsDateOfCalendar date
        → ¬ (day_number_of_date date ≡ day.number) }
{
    let _ = date_on_day(calendar, day);
}

/// A target and a day have one cell at most.
#[tactic(auto, using(crate::proofs::CellLemmas::one_cell))]
pub fn one_cell()
    ensures { OneCell }
{
    one_roman_date();
}

/// The bytes of a cell are digits and letters of ASCII, spaces, dashes and dots.
#[tactic(auto, using(crate::proofs::CellLemmas::cell_text))]
pub fn cells_are_plain()
    ensures { CellsArePlain }
{
    haab_days_in_range();
    tzolkin_numbers_in_range();
}

/// A cell has [`MAX_CELL`](crate::MAX_CELL) bytes at most, whatever the day.
#[tactic(auto, using(crate::proofs::CellLemmas::cell_text))]
pub fn cells_are_short()
    ensures { CellsAreShort }
{
    haab_days_in_range();
    tzolkin_numbers_in_range();
}

/// A list that names no target twice has [`MAX_TARGETS`](crate::MAX_TARGETS) targets at most.
#[tactic(auto, using(crate::proofs::TargetNameLemmas::few))]
pub fn few_targets()
    ensures { FewTargets }
{}

/// `Target::ALL` has every target: the default ones in their order, and then the French calendar as it was used.
pub fn all_targets()
    ensures { ALL ≡ all_targets }
{}

/// `Target::DEFAULT` has the default targets in their order.
pub fn default_targets()
    ensures { DEFAULT ≡ default_targets }
{}

/// `Calendar::ALL` has every calendar: those of the default targets, in their order, and then the French one as it was
/// used.
pub fn all_calendars()
    ensures { EVERY_CALENDAR ≡ all_calendars }
{}
