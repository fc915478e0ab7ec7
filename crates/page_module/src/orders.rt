//! The order of entries by their days, for a page. The day of an entry that has none is 4294967295.

ghost use Rattle.std.specs.Prelude.{◌≡◌, ◌≢◌, ℕ, List};
ghost use Rattle.page_rules.specs.DayOrders.{AreSortingDays, IsDayOrder};
ghost use Rattle.page_module.specs.SheetReports.{PutsText};

use crate::sheet_texts::{PutReport, put};
use page_rules::{day_order as order_of, sorting_days};
use std::alloc::Global;

/// Puts the indices of entries, in the order of their days, to the front of `room`.
#[unsafe(no_mangle)]
pub extern "C" fn day_order(alloc: Global, days: &[u32], room: &mut [u32], report: &mut PutReport)
    ensures order { report.new.ending ≡ 0 → (order : List ℕ) × IsDayOrder days.now order
        × PutsText order room.old room.new report.new.length }
    ensures none { report.new.ending ≢ 0
        → (report.new.ending ≡ 1) × (report.new.length ≡ 0) × (room.new ≡ room.old) }
{
    *report = match order_of(alloc, days) {
        Ok(order) => put(order.as_slice(), room),
        Err(_) => PutReport::none(1),
    };
}

/// Puts the days by which entries of two days are sorted to the front of `room`: of each its first day, or, where it
/// has none, its last. An end that is open has none, and so has an entry beyond the last days.
#[unsafe(no_mangle)]
pub extern "C" fn span_days(
    alloc: Global,
    first: &[u32],
    last: &[u32],
    room: &mut [u32],
    report: &mut PutReport,
)
    ensures days { report.new.ending ≡ 0 → (days : List ℕ) × AreSortingDays first.now last.now days
        × PutsText days room.old room.new report.new.length }
    ensures none { report.new.ending ≢ 0
        → (report.new.ending ≡ 1) × (report.new.length ≡ 0) × (room.new ≡ room.old) }
{
    *report = match sorting_days(alloc, first, last) {
        Ok(days) => put(days.as_slice(), room),
        Err(_) => PutReport::none(1),
    };
}
