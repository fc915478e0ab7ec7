//! The law of striped lanes over every schedule.

ghost use Rattle.std.specs.Prelude.{◌+◌, ◌*◌, ◌≤◌, length};
ghost use Rattle.lane_rings.specs.Places.{ArePoppedInOrder};
ghost use Rattle.lane_rings.specs.Schedules.{AtMostChange, standing};
ghost use Rattle.register_run.specs.EveryScheduleLaw.{AfterEverySchedule, EachStandsOnce, Ends, GoesOn};

/// Whatever the schedule of the reader, the converters and the writer of a text is, in the machine of striped lanes:
/// the rows that the writer has popped are the first rows of the table, in order; each entry that the reader has
/// pushed stands in exactly one place; with n entries, at most 4 n acts have changed anything; with c converters and
/// lanes of r items, at most c (2 r + 1) entries stand in the lanes and converters together; and unless all rows are
/// popped, the act of the actor that has to move the entry of the next row changes something, so the machine is never
/// stuck. Where a schedule has 4 n rounds, in each of which every actor acts, all rows are popped.
///
/// It is a law of the machine alone, for any number of converters of at least 1 and any ring size of at least 1. It
/// says nothing of the progress of running threads.
pub fn every_schedule()
    ensures in_order { AfterEverySchedule (λ w _ s. ArePoppedInOrder w s) }
    ensures one_place { AfterEverySchedule (λ w _ s. EachStandsOnce w s) }
    ensures few_changes { AfterEverySchedule (λ w schedule _. AtMostChange w schedule (4 * length w.entries)) }
    ensures few_standing { AfterEverySchedule (λ w _ s. standing w s ≤ w.converters * (2 * w.ring + 1)) }
    ensures goes_on { AfterEverySchedule (λ w _ s. GoesOn w s) }
    ensures ends { AfterEverySchedule (λ w schedule s. Ends w schedule s) }
{}
