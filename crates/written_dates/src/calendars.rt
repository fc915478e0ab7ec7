//! How the dates of a register's calendars are written.

ghost use Rattle.std.specs.Prelude.{◌≡◌, ◌<◌};
ghost use Rattle.written_dates.specs.declared.calendars.TheConstants.{CALENDARS};
ghost use Rattle.written_dates.specs.Calendars.{form as form_spec, place as place_spec};

use date_texts::Calendar;

/// How many calendars there are.
pub(crate) const CALENDARS: usize = Calendar::ALL.len();

/// How the dates of a calendar are written.
#[derive(Clone, Copy)]
pub enum Form {
    /// A year, a month and a day.
    Civil,
    /// A year, a month and a mark with a count.
    Roman,
    /// Otherwise.
    Other,
}

/// How the dates of a calendar are written.
pub fn form_of(calendar: Calendar) -> Form
    ensures { result ≡ form_spec calendar }
{
    match calendar {
        Calendar::Iso | Calendar::Longcount => Form::Other,
        Calendar::Roman => Form::Roman,
        _ => Form::Civil,
    }
}

/// The calendar's place in `Calendar::ALL`, from 0.
pub(crate) fn place_of(calendar: Calendar) -> usize
    ensures value { result ≡ place_spec calendar }
    ensures within { result < CALENDARS }
{
    calendar as usize
}
