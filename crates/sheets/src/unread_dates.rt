//! The dates of a sheet that were not read.

ghost use Rattle.std.specs.Prelude.{◌≡◌};
ghost use Rattle.sheets.specs.UnknownNames.{is_emptied, is_short_by, says_open as open_spec};

use crate::reasons::ReasonCounts;
use crate::stops::DateStop;
use date_spans::{Kind, Marks};

/// How many dates of a sheet were not read.
#[repr(C)]
#[derive(Clone, Copy, PartialEq, Eq)]
pub struct UnreadDates {
    /// How many were stopped by a name that is not known: that of a calendar, or a word of the date.
    pub stopped: usize,
    /// How many are left empty, as their year is short.
    pub short: usize,
    /// How many stay as they are written for each other reason.
    pub reasons: ReasonCounts,
}

/// Whether nothing is written for a field that is not empty.
fn is_emptied(field: &[u8], date: &[u8]) -> bool
    ensures { result ≡ is_emptied field.now date.now }
{
    !field.is_empty() && date.is_empty()
}

/// Whether the words say that the day lies before a date, or after it, or that no date is known.
fn says_open(kind: Kind) -> bool
    ensures { result ≡ open_spec kind }
{
    matches!(kind, Kind::Before | Kind::After | Kind::Undated)
}

/// Whether both ends of a field are left empty, as its year is short.
pub(crate) fn is_short(field: &[u8], first: &[u8], last: &[u8], marks: Marks) -> bool
    ensures { result ≡ is_short_by field.now first.now last.now marks }
{
    is_emptied(field, first) && is_emptied(field, last) && !says_open(marks.kind)
}

impl UnreadDates {
    ghost use Rattle.sheets.specs.UnknownViews.{NoneUnread, if_stop};
    ghost use Rattle.sheets.specs.private.UnknownViews.{CountsDate, CountsStop, HasPlace};

    /// None yet.
    pub fn none() -> UnreadDates
        ensures { NoneUnread result }
    {
        UnreadDates {
            stopped: 0,
            short: 0,
            reasons: ReasonCounts::none(),
        }
    }

    /// Counts what stopped a date.
    fn add_stop(&mut self, stop: Option<DateStop<'_>>)
        requires { HasPlace 1 self.old }
        ensures { CountsStop (if_stop stop.entry) self.old self.new }
    {
        match stop {
            Some(DateStop::Name(_)) => self.stopped += 1,
            Some(DateStop::Reason(reason)) => self.reasons.add(reason),
            None => {}
        }
    }

    /// Counts one more date: this stopped it, or nothing, and it may be left empty.
    pub(crate) fn add(&mut self, stop: Option<DateStop<'_>>, is_short: bool)
        requires { HasPlace 1 self.old }
        ensures { CountsDate (if_stop stop.entry) is_short self.old self.new }
    {
        self.add_stop(stop);
        if is_short {
            self.short += 1;
        }
    }
}
