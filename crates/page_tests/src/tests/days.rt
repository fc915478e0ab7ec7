//! The days of a register's records. They are counted from 1 January -9999, R.D. -3652424.

use page_rules::{EntryDay, NO_CALENDAR, NO_DAY, put_days, register_days};
use register_records::{Cause, Form, Setup};
use std::alloc::Global;

/// A register, the days and the numbers of the calendars of its records, and the cause for which it broke off, if it
/// did.
type Case = (&'static [u8], Form, &'static [(u32, u8)], Option<Cause>);

static CASES: [Case; 10] = [
    (
        super::REGISTER,
        Form::Plain,
        &[(4230159, 2), (4230160, 0), (4273041, 2), (NO_DAY, 0)],
        None,
    ),
    (
        b"id,calendar,date
a,gregorian,-9999-01-01
\"b
\"\"c\"\"\",\" ISO\t\",1970-W01-4
d,gregorian,9999-12-31
",
        Form::Plain,
        &[(0, 0), (4371587, 1), (7304483, 0)],
        None,
    ),
    // A refused record has no day.
    (
        b"id,calendar,date
a,gregorian
b,a calendar of 17 b,1970-01-01
\xff,gregorian,1970-01-01
d,tzolkin,1970-01-01
e,Hebrew,yesterday
f,coptic,1700-13-07
g,gregorian,10000-01-01
",
        Form::Plain,
        &[
            (NO_DAY, NO_CALENDAR),
            (NO_DAY, NO_CALENDAR),
            (NO_DAY, NO_CALENDAR),
            (NO_DAY, NO_CALENDAR),
            (NO_DAY, 8),
            (NO_DAY, 3),
            (NO_DAY, 0),
        ],
        None,
    ),
    // Each calendar has its number.
    (
        b"id,calendar,date
a,gregorian,
a,iso,
a,julian,
a,coptic,
a,ethiopic,
a,egyptian,
a,armenian,
a,islamic,
a,hebrew,
a,longcount,
a,french,
a,roman,
a,republican,
",
        Form::Plain,
        &[
            (NO_DAY, 0),
            (NO_DAY, 1),
            (NO_DAY, 2),
            (NO_DAY, 3),
            (NO_DAY, 4),
            (NO_DAY, 5),
            (NO_DAY, 6),
            (NO_DAY, 7),
            (NO_DAY, 8),
            (NO_DAY, 9),
            (NO_DAY, 10),
            (NO_DAY, 11),
            (NO_DAY, 12),
        ],
        None,
    ),
    // A register that breaks off has the days above.
    (b"", Form::Plain, &[], Some(Cause::BadHeader)),
    (
        b"a,gregorian,1970-01-01\n",
        Form::Plain,
        &[],
        Some(Cause::BadHeader),
    ),
    (b"id,calendar,date\n", Form::Plain, &[], None),
    (
        b"id,calendar,date,note\na,gregorian,1970-01-01,\nEND,1\n",
        Form::Sealed,
        &[(4371587, 0)],
        None,
    ),
    (
        b"id,calendar,date,note\na,gregorian,1970-01-01,\nEND,2\n",
        Form::Sealed,
        &[(4371587, 0)],
        Some(Cause::NotSealed),
    ),
    (
        b"id,calendar,date,note\na,gregorian,1970-01-01,\n",
        Form::Sealed,
        &[(4371587, 0)],
        Some(Cause::NotSealed),
    ),
];

/// Whether these are the days and the calendars' numbers.
fn are_days(days: &[EntryDay], wanted: &[(u32, u8)]) -> bool {
    for (entry, (day, calendar)) in days.iter().zip(wanted) {
        if entry.day != *day || entry.calendar != *calendar {
            return false;
        }
    }
    days.len() == wanted.len()
}

/// Whether a register's days come in place of the one that was there, and it breaks off for this cause.
fn has_days(alloc: Global, case: &Case) -> bool {
    let (text, form, wanted, cause) = *case;
    let before = EntryDay {
        day: 7,
        calendar: 7,
    };
    let (Ok(setup), Ok(mut days)) = (
        Setup::new(&[], 1, b',', 1, form),
        Vec::from_array(alloc, [before]),
    ) else {
        return false;
    };
    let found = register_days(alloc, text, &setup, &mut days).err();
    found == cause && are_days(days.as_slice(), wanted)
}

#[test]
fn each_record_has_its_day_and_its_calendar(rt: HostRuntime) {
    for case in &CASES {
        assert!(rt; has_days(rt.alloc(), case), "{:?}", case.0);
    }
}

static ENTRIES: [EntryDay; 2] = [
    EntryDay {
        day: 5,
        calendar: 1,
    },
    EntryDay {
        day: NO_DAY,
        calendar: NO_CALENDAR,
    },
];

/// Whether rooms for so few days or calendars stay as they were.
fn small_rooms_stay(few: usize, many: usize) -> bool {
    let (mut days, mut calendars) = ([9; 3], [9; 3]);
    let (Some(few), Some(many)) = (days.get_mut(..few), calendars.get_mut(..many)) else {
        return false;
    };
    put_days(&ENTRIES, few, many) == 2 && days == [9; 3] && calendars == [9; 3]
}

/// Whether the days stand in rooms that are large enough, and nothing behind them.
fn fill_rooms() -> bool {
    let (mut days, mut calendars) = ([9; 2], [9; 3]);
    put_days(&ENTRIES, &mut days, &mut calendars) == 2
        && days == [5, NO_DAY]
        && calendars == [1, NO_CALENDAR, 9]
}

#[test]
fn rooms_that_are_too_small_stay_as_they_were(rt: HostRuntime) {
    assert!(rt; small_rooms_stay(1, 3) && small_rooms_stay(3, 1) && fill_rooms());
}
