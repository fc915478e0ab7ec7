//! The order of entries by their days.

ghost use Rattle.std.specs.Prelude.{◌≡◌, IfOk, get_or};
ghost use Rattle.page_rules.specs.DayOrders.{AreSortingDays, IsDayOrder, sorting_day};

use std::alloc::{AllocError, Global};

/// The day of an entry that has none. It comes behind all others.
pub const NO_DAY: u32 = 4_294_967_295;

/// The day of the entry at an index, or `NO_DAY` where there is no entry.
fn day_at(days: &[u32], index: u32) -> u32
    ensures { result ≡ get_or days.now index NO_DAY }
{
    match days.get(index as usize) {
        Some(day) => *day,
        None => NO_DAY,
    }
}

/// The day by which an entry of two days is sorted.
fn sorting_day(first: u32, last: u32) -> u32
    ensures { result ≡ sorting_day first last }
{
    if first == NO_DAY { last } else { first }
}

/// The days by which entries of two days are sorted, one for each first day: that itself, or, where it is `NO_DAY`, the
/// last day at the same place. Beyond the last days, that is `NO_DAY`.
///
/// # Errors
///
/// Memory ran out.
pub fn sorting_days(alloc: Global, first: &[u32], last: &[u32]) -> Result<Vec<u32>, AllocError>
    ensures { IfOk result (λ days. AreSortingDays first.now last.now days.items) }
{
    let mut days = Vec::new(alloc);
    'days: for i in 0..first.len() {
        let end = match last.get(i) {
            Some(day) => *day,
            None => NO_DAY,
        };
        days.push(sorting_day(first[i], end))?;
    }
    Ok(days)
}

/// The indices of entries in the order of their days. Each day is counted from a first one, and an entry that has none has
/// `NO_DAY`. Entries of the same day, and those without one at the end, are in the order in which they stand.
///
/// # Errors
///
/// Memory ran out; there is none for 2^32 entries.
pub fn day_order(alloc: Global, days: &[u32]) -> Result<Vec<u32>, AllocError>
    ensures { IfOk result (λ order. IsDayOrder days.now order.items) }
{
    let Ok(count) = u32::try_from(days.len()) else {
        return Err(AllocError);
    };
    let mut order = Vec::new(alloc);
    'days: for index in 0..count {
        order.push(index)?;
    }
    order.sort_by_key(|index| day_at(days, *index))?;
    Ok(order)
}
