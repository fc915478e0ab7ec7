//! The days of entries in memory that a caller lends.

ghost use Rattle.std.specs.Prelude.{◌≡◌, length};
ghost use Rattle.page_rules.specs.EntryDays.{PutsDays};

use crate::entry_days::EntryDay;

/// Copies the days and the calendars of entries to the fronts of two rooms, and says how many entries they are; where one
/// of the rooms is too small for them, both stay as they were.
pub fn put_days(entries: &[EntryDay], days: &mut [u32], calendars: &mut [u8]) -> usize
    ensures rooms { PutsDays entries.now days.old days.new calendars.old calendars.new }
    ensures count { result ≡ length entries.now }
{
    let count = entries.len();
    if count <= days.len() && count <= calendars.len() {
        'entries: for i in 0..count {
            days[i] = entries[i].day;
            calendars[i] = entries[i].calendar;
        }
    }
    count
}
