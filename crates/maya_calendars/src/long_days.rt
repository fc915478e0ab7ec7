//! The days of long counts, and the long counts of days.

ghost use Rattle.std.specs.Prelude.{◌≡◌, ◌↔◌, ℤ, ◌≤ℤ◌, IsSome, IfSome, Some};
ghost use Rattle.day_numbers.specs.Dates.{IsDayOf};
ghost use Rattle.day_numbers.specs.declared.calendar.DateFault.{DateFault};
ghost use Rattle.maya_calendars.specs.declared.long_count.LongCount.{LongCount};
ghost use Rattle.maya_calendars.specs.LongCounts.{IsLongCount, long_day};
ghost use Rattle.maya_calendars.specs.Rounds.{epoch};

use crate::epoch::{EPOCH, days_since_epoch};
use crate::long_count::LongCount;
use day_numbers::{DateFault, Day};

/// The day of a long count: R.D. -1137142 and the sum of its places, which weigh 144000, 7200, 360, 20
/// and 1 days (Reingold and Dershowitz, *Calendrical Calculations*).
///
/// # Errors
///
/// `NoSuchDate` exactly where the katun, the tun or the kin is above 19 or the uinal above 17, whatever
/// the day would be; `OutOfRange` exactly where none is and the day number is not from -3652424 to
/// 3652059.
pub fn long_day_of(c: LongCount) -> Result<Day, DateFault>
    ensures { IsDayOf (IsLongCount c) (long_day c) DateFault.NoSuchDate DateFault.OutOfRange result }
{
    let katun = c.katun();
    let tun = c.tun();
    let uinal = c.uinal();
    let kin = c.kin();
    if katun > 19 || tun > 19 || uinal > 17 || kin > 19 {
        return Err(DateFault::NoSuchDate);
    }
    let days = 144_000 * c.baktun() as u32
        + 7_200 * katun as u32
        + 360 * tun as u32
        + 20 * uinal as u32
        + kin as u32;
    Day::new(EPOCH + days as i64).ok_or(DateFault::OutOfRange)
}

/// The one long count whose day this is, or `None` exactly before R.D. -1137142.
///
/// It is the inverse of [`long_day_of`]: its result is a long count that has this day, and a long count
/// that has this day is its result.
pub fn long_on(day: Day) -> Option<LongCount>
    ensures dated { IsSome result ↔ (epoch ≤ℤ day.number) }
    ensures value { IfSome result (λ c. IsLongCount c × (long_day c ≡ day.number)) }
    ensures only { (c : LongCount) → IsLongCount c → long_day c ≡ day.number → result ≡ Some c }
{
    let days = days_since_epoch(day);
    if days < 0 {
        return None;
    }
    let days = days as u32;
    let uinals = days / 20;
    let tuns = uinals / 18;
    let katuns = tuns / 20;
    Some(LongCount {
        baktun: (katuns / 20) as u16,
        katun: (katuns % 20) as u16,
        tun: (tuns % 20) as u16,
        uinal: (uinals % 18) as u16,
        kin: (days % 20) as u16,
    })
}
