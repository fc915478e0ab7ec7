//! Long counts, haab and tzolkin of known days, and walks from day to day.

use super::table::{answer, numbers};
use day_numbers::{DateFault, Day};
use maya_calendars::{LongCount, haab_on, long_day_of, long_on, tzolkin_on};

/// The fixed day number of 0.0.0.0.0.
const EPOCH: i64 = -1_137_142;

const MONTHS: [&str; 19] = [
    "Pop", "Uo", "Zip", "Zotz", "Tzec", "Xul", "Yaxkin", "Mol", "Chen", "Yax", "Zac", "Ceh", "Mac",
    "Kankin", "Muan", "Pax", "Kayab", "Cumku", "Uayeb",
];

const NAMES: [&str; 20] = [
    "Imix", "Ik", "Akbal", "Kan", "Chicchan", "Cimi", "Manik", "Lamat", "Muluc", "Oc", "Chuen",
    "Eb", "Ben", "Ix", "Men", "Cib", "Caban", "Etznab", "Cauac", "Ahau",
];

/// The places of a long count, from the baktun to the kin.
type Places = (u16, u16, u16, u16, u16);

/// Whether the long count of these places has the day with this number, which has that long count, or is refused with
/// this fault; or there is no such long count, where no answer is given.
fn has_answer(
    (baktun, katun, tun, uinal, kin): Places,
    answer: Option<Result<i64, DateFault>>,
) -> bool {
    let Some(count) = LongCount::new(baktun, katun, tun, uinal, kin) else {
        return answer.is_none();
    };
    let places = (
        count.baktun(),
        count.katun(),
        count.tun(),
        count.uinal(),
        count.kin(),
    );
    if places != (baktun, katun, tun, uinal, kin) {
        return false;
    }
    let number = match answer {
        None => return false,
        Some(Err(fault)) => return long_day_of(count) == Err(fault),
        Some(Ok(number)) => number,
    };
    let Some(day) = Day::new(number) else {
        return false;
    };
    long_day_of(count) == Ok(day) && long_on(day) == Some(count)
}

/// The first days of the long count, a day of 1945, the day that ends the thirteenth baktun, 21 December
/// 2012, and the last day of the range; and what is refused. The places stand in their order before the day.
static LONG_COUNTS: &str = "\
0 0 0 0 0 -1137142
0 0 0 0 12 -1137130
12 16 11 16 9 710347
13 0 0 0 0 734858
33 5 3 6 1 3652059
0 0 0 18 0 none
0 20 0 0 0 none
0 0 20 0 0 none
0 0 0 0 20 none
9999 0 0 18 0 none
9999 9998 9997 9996 9995 none
9999 0 0 0 0 out
33 5 3 6 2 out
10000 0 0 0 0 never
0 10000 0 0 0 never
0 0 10000 0 0 never
0 0 0 10000 0 never
0 0 0 0 10000 never
";

/// The place that a number is; one that no long count has where it is none.
fn place(number: Option<i32>) -> u16 {
    number.map_or(u16::MAX, |number| u16::try_from(number).unwrap_or(u16::MAX))
}

/// Whether the long count on a line has the answer on it.
fn is_right(line: &str) -> bool {
    let [baktun, katun, tun, uinal, kin, number] = numbers(line);
    let places = (
        place(baktun),
        place(katun),
        place(tun),
        place(uinal),
        place(kin),
    );
    has_answer(places, answer(line, number))
}

#[test]
fn long_counts_have_days(rt: HostRuntime) {
    for line in LONG_COUNTS.lines() {
        assert!(rt; is_right(line), "at {line}");
    }
    for number in [-3_652_424, EPOCH - 1] {
        assert!(rt; has_no_long_count(number), "at {number}");
    }
}

/// Whether the day with this number is in range, and has no long count.
fn has_no_long_count(number: i64) -> bool {
    let Some(day) = Day::new(number) else {
        return false;
    };
    long_on(day).is_none()
}

/// Whether the day with this number has this day of the month of this number in the haab, and in the tzolkin this
/// number and the name at this place from 1 on.
fn has_names(number: i64, haab: (u8, u8), tzolkin: (u8, usize)) -> bool {
    let Some(day) = Day::new(number) else {
        return false;
    };
    let on = haab_on(day);
    let count = tzolkin_on(day);
    (on.day(), on.month()) == haab
        && MONTHS.get(on.month() as usize - 1) == Some(&on.month_name())
        && count.number() == tzolkin.0
        && NAMES.get(tzolkin.1.saturating_sub(1)) == Some(&count.name())
}

/// The haab and the tzolkin of known days, of the day before the long count begins, and of the ends of
/// the range: 1 Muan and 1 Etznab, 7 Cumku and 3 Cauac, 8 Cumku and 4 Ahau, 0 Uayeb and 3 Eb, 7 Zac and 11 Muluc,
/// 3 Kankin and 4 Ahau, and 19 Pop and 5 Imix.
#[test]
fn days_have_haab_and_tzolkin(rt: HostRuntime) {
    for (number, haab, tzolkin) in [
        (-3_652_424, (1, 15), (1, 18)),
        (EPOCH - 1, (7, 18), (3, 19)),
        (EPOCH, (8, 18), (4, 20)),
        (-1_137_130, (0, 19), (3, 12)),
        (710_347, (7, 11), (11, 9)),
        (734_858, (3, 14), (4, 20)),
        (3_652_059, (19, 1), (5, 1)),
    ] {
        assert!(rt; has_names(number, haab, tzolkin), "at {number}");
    }
}

/// The haab of the next day: the months have twenty days, and the last one five.
fn haab_after((day, month): (u8, u8)) -> (u8, u8) {
    match (day, month) {
        (4, 19) => (0, 1),
        (19, _) => (0, month.saturating_add(1)),
        _ => (day.saturating_add(1), month),
    }
}

/// The rounds of 365 and of 260 days, one place a day, from the day on which both begin again 18980 days before the
/// long count up to the one as many days after.
#[test]
fn rounds_move_one_place_a_day(rt: HostRuntime) {
    let mut haab = (8, 18);
    let mut tzolkin = (4u8, 20usize);
    for number in EPOCH - 18_980..=EPOCH + 18_980 {
        assert!(rt; has_names(number, haab, tzolkin), "at {number}");
        haab = haab_after(haab);
        tzolkin = (tzolkin.0 % 13 + 1, tzolkin.1 % 20 + 1);
    }
}
