//! How many records were refused, and for what.

ghost use Rattle.std.specs.Prelude.{◌≡◌, ◌<◌, ◌==◌, ◌+◌, ◌^◌, [], cond};

use crate::ends::{Note, SourceEnd};
use date_texts::Refusal;

/// How many records were refused with each refusal.
#[repr(C)]
#[derive(Clone, Copy, PartialEq, Eq)]
pub struct RefusalCounts {
    pub field_count: usize,
    pub field_too_long: usize,
    pub not_utf8: usize,
    pub unknown_calendar: usize,
    pub date_text: usize,
    pub no_such_date: usize,
    pub out_of_range: usize,
}

impl RefusalCounts {
    ghost use Rattle.date_texts.specs.Refusals.{refusal_number};
    ghost use Rattle.date_texts.specs.declared.refusal.Refusal.{Refusal};
    ghost use Rattle.register_records.specs.RefusalCounts.{AreCounts, count_of};

    /// None yet.
    pub fn none() -> RefusalCounts
        ensures { AreCounts result [] }
    {
        RefusalCounts {
            field_count: 0,
            field_too_long: 0,
            not_utf8: 0,
            unknown_calendar: 0,
            date_text: 0,
            no_such_date: 0,
            out_of_range: 0,
        }
    }

    /// Those of refused rows.
    pub fn of(journal: &[Note]) -> RefusalCounts
        ensures { AreCounts result journal.now }
    {
        let mut counts = RefusalCounts::none();
        'notes: for note in journal {
            counts.add(note.refusal);
        }
        counts
    }

    /// How many were refused with this.
    pub fn count(&self, refusal: Refusal) -> usize
        ensures { result ≡ count_of self.now refusal }
    {
        match refusal {
            Refusal::FieldCount => self.field_count,
            Refusal::FieldTooLong => self.field_too_long,
            Refusal::NotUtf8 => self.not_utf8,
            Refusal::UnknownCalendar => self.unknown_calendar,
            Refusal::DateText => self.date_text,
            Refusal::NoSuchDate => self.no_such_date,
            Refusal::OutOfRange => self.out_of_range,
        }
    }

    /// Counts one more that was refused with this.
    pub fn add(&mut self, refusal: Refusal)
        requires { count_of self.old refusal < 2 ^ 63 }
        ensures { (other : Refusal) → count_of self.new other
            ≡ count_of self.old other + cond (refusal_number refusal == refusal_number other) 1 0 }
    {
        match refusal {
            Refusal::FieldCount => self.field_count += 1,
            Refusal::FieldTooLong => self.field_too_long += 1,
            Refusal::NotUtf8 => self.not_utf8 += 1,
            Refusal::UnknownCalendar => self.unknown_calendar += 1,
            Refusal::DateText => self.date_text += 1,
            Refusal::NoSuchDate => self.no_such_date += 1,
            Refusal::OutOfRange => self.out_of_range += 1,
        }
    }
}

impl SourceEnd {
    ghost use Rattle.register_records.specs.RefusalCounts.{AreCounts};
    ghost use Rattle.register_records.specs.Sources.{journal_in};

    /// How many rows of the whole table are refused, and for what; none where there is no such table.
    pub fn refusal_counts(&self) -> RefusalCounts
        ensures { AreCounts result (journal_in self.now) }
    {
        match self {
            SourceEnd::Whole { journal, .. } => RefusalCounts::of(journal.as_slice()),
            SourceEnd::Broken { .. } => RefusalCounts::none(),
        }
    }
}
