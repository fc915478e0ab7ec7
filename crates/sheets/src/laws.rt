//! Laws of dates that name their calendars, and of those that are not known. The functions do nothing: their contracts
//! are the laws.

ghost use Rattle.sheets.specs.Laws.{DigitsNameNone, NamesAreColumns};
ghost use Rattle.sheets.specs.UndatedLaws.{UndatedIsNotUnread};

/// What ends with a digit is a date in the calendar of its record; and a date that names its calendar comes out as the one
/// before the name does in a column of that calendar.
pub fn dates_name_calendars()
    ensures digits { DigitsNameNone }
    ensures named { NamesAreColumns }
{}

/// A text that says that no date is known is counted as none that was not read.
pub fn undated_is_not_unread()
    ensures { UndatedIsNotUnread }
{}
