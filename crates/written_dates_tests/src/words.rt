//! Words that are the same to a reader, and words that are not, by Unicode's files of case folding and decomposition.

use date_texts::Calendar;
use std::alloc::Global;
use written_dates::{
    CalendarMeaning, CalendarName, CalendarNames, Calendars, Choice, Meaning, Name, Names, Order,
    Short, is_same_word, write_date,
};

/// Two words, and whether they are the same. Those of more than 64 characters are so by their bytes alone.
static WORDS: [(&str, &str, bool); 28] = [
    ("Mai", "MAI", true),
    ("Mai", "Maj", false),
    ("Mai", "Maii", false),
    ("", "", true),
    ("", "a", false),
    ("März", "Ma\u{308}rz", true),
    ("März", "mÄRZ", true),
    ("März", "MA\u{308}RZ", true),
    ("März", "Marz", false),
    ("décembre", "DÉCEMBRE", true),
    ("décembre", "DE\u{301}CEMBRE", true),
    ("мая", "МАЯ", true),
    ("август", "Августа", false),
    ("August", "Augu\u{17F}t", true),
    ("AUGUST", "augu\u{17F}t", true),
    ("Oktober", "O\u{212A}tober", true),
    ("weiß", "WEISS", true),
    ("Μάϊος", "ΜΆΪΟΣ", true),
    ("Μάιος", "ΜΑΪΟΣ", false),
    ("İyar", "i\u{307}yar", true),
    ("İyar", "Iyar", false),
    ("ıyar", "Iyar", false),
    ("\u{5D1}\u{5B8}\u{5BC}", "\u{5D1}\u{5BC}\u{5B8}", true),
    ("a\u{308}\u{323}", "a\u{323}\u{308}", true),
    ("a\u{308}\u{301}", "a\u{301}\u{308}", false),
    ("각", "\u{1100}\u{1161}\u{11A8}", true),
    (
        "Donnerstagsnachmittagsgottesdienstbesucherverzeichniseinträgelisten",
        "DonnerstagsnachmittagsgottesdienstbesucherverzeichniseintrÄgelisten",
        false,
    ),
    (
        "Donnerstagsnachmittagsgottesdienstbesucherverzeichniseinträgelisten",
        "DONNERSTAGSNACHMITTAGSGOTTESDIENSTBESUCHERVERZEICHNISEINTRäGELISTEN",
        true,
    ),
];

/// The same, of bytes that are no text.
static BYTES: [(&[u8], &[u8], bool); 5] = [
    (b"M\xC3rz", b"m\xC3RZ", true),
    (b"M\xC3rz", b"M\xE3rz", false),
    (b"\xC3", b"\xC3\x83", false),
    (b"\xE6", b"\xC3\xA6", false),
    (b"\xC3\xA6", b"\xE6", false),
];

#[test]
fn words_are_the_same(rt: HostRuntime) {
    for (a, b, same) in &WORDS {
        assert!(rt;
            is_same_word(a.as_bytes(), b.as_bytes()) == *same,
            "at {a:?} and {b:?}"
        );
        assert!(rt;
            is_same_word(b.as_bytes(), a.as_bytes()) == *same,
            "at {b:?} and {a:?}"
        );
    }
    for (a, b, same) in &BYTES {
        assert!(rt; is_same_word(a, b) == *same, "at {a:?} and {b:?}");
    }
}

/// Whether 12 March is read, of which the month stands so, by this name of the month.
fn is_read(alloc: Global, name: &str, month: &str) -> bool {
    let listed = [Name {
        text: name.as_bytes(),
        meaning: Meaning::Month(3),
        calendars: Calendars::ALL,
    }];
    let choice = Choice {
        order: Order::DayFirst,
        short_years: Short::Refuse,
        short_hebrew_years: Short::Refuse,
        short_other_years: Short::Refuse,
        charters: false,
    };
    let Ok(names) = Names::layered(alloc, &listed) else {
        return false;
    };
    let mut text = String::new(alloc);
    if text.push_str("12 ").is_err()
        || text.push_str(month).is_err()
        || text.push_str(" 1806").is_err()
    {
        return false;
    }
    let mut out = Vec::new(alloc);
    let is_out = write_date(
        &mut out,
        text.as_bytes(),
        Some(Calendar::Julian),
        &names,
        &choice,
    )
    .is_ok();
    is_out && out.as_slice() == "1806-3-12".as_bytes()
}

/// Whether a field means the Hebrew calendar, by this name of it.
fn is_named(alloc: Global, name: &str, field: &str) -> bool {
    let listed = [CalendarName {
        text: name.as_bytes(),
        meaning: CalendarMeaning::One(Calendar::Hebrew),
    }];
    match CalendarNames::layered(alloc, &listed) {
        Ok(names) => names.meant(field.as_bytes()).is_some(),
        Err(_) => false,
    }
}

#[test]
fn names_are_found(rt: HostRuntime) {
    for (a, b, same) in &WORDS {
        if a.is_empty() {
            continue;
        }
        assert!(rt; is_read(rt.alloc(), a, b) == *same, "at {a:?} and {b:?}");
        assert!(rt; is_read(rt.alloc(), b, a) == *same, "at {b:?} and {a:?}");
        assert!(rt; is_named(rt.alloc(), a, b) == *same, "at {a:?} and {b:?}");
    }
}
