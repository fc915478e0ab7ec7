//! What a column for names of days has.

ghost use Rattle.std.specs.Prelude.{◌≡◌};
ghost use Rattle.written_dates.specs.Written.{church_of as church_spec};
ghost use Rattle.church_days.specs.Cells.{IsChurchCell, church_text};

use crate::names::name_on;
use church_year::Church;
use date_texts::Calendar;
use day_numbers::Day;

/// The church that reckons in a calendar.
fn church_of(calendar: Calendar) -> Option<Church>
    ensures { result ≡ church_spec calendar }
{
    match calendar {
        Calendar::Gregorian => Some(Church::Gregorian),
        Calendar::Julian => Some(Church::Julian),
        _ => None,
    }
}

/// What a day is called in the church year of a record's calendar, in Latin; nothing where the day has no name, or the
/// calendar is neither the Gregorian nor the Julian one.
pub fn church_cell(calendar: Calendar, day: Day) -> &'static str
    ensures named { IsChurchCell calendar day.number result.now }
    ensures computed { result.now ≡ church_text calendar day.number }
{
    let Some(church) = church_of(calendar) else {
        return "";
    };
    match name_on(church, day) {
        Some(name) => name,
        None => "",
    }
}
