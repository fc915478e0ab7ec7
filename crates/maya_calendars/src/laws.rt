//! Laws of the haab and the tzolkin, for the proofs of what stands on them.

ghost use Rattle.maya_calendars.specs.Laws.{HaabDaysInRange, TzolkinNumbersInRange};

/// The day of a haab is 19 at most.
#[tactic(auto, using(crate::proofs::HaabLemmas::haab_days))]
pub fn haab_days_in_range()
    ensures { HaabDaysInRange }
{}

/// The number of a tzolkin is 13 at most.
#[tactic(auto, using(crate::proofs::TzolkinLemmas::tzolkin_numbers))]
pub fn tzolkin_numbers_in_range()
    ensures { TzolkinNumbersInRange }
{}
