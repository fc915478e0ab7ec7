//! Laws of Roman dates, for the proofs of what stands on them.

ghost use Rattle.solar_calendars.specs.Laws.{OneRomanDate};

/// Two valid Roman dates of one day are one date, also where the day's number is not from -3652424 to 3652059.
pub fn one_roman_date()
    ensures { OneRomanDate }
{}
