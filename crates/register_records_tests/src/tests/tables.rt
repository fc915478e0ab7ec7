//! Texts and the tables that they become.

use super::{
    FRENCH, GREGORIAN, ISLAMIC, ISO, JULIAN, LONGCOUNT, REPUBLICAN, ROMAN, Text, cause_from, end_of,
};
use date_texts::Target;
use register_records::faults::Sink;
use register_records::{Form, Note, Setup, SourceEnd};
use std::alloc::Global;
use std::io;
use std::io::Read;

/// Room for each table.
const ROOM: usize = 4096;

/// How a text is read, its lines, and the numbers and refusals of the rows in its journal. After a bar a line has its
/// line of the table, where there is one.
struct Case {
    targets: &'static [Target],
    delimiter: u8,
    form: Form,
    lines: &'static str,
    notes: &'static str,
}

static CASES: [Case; 16] = [
    Case {
        targets: &[GREGORIAN, JULIAN],
        delimiter: b',',
        form: Form::Plain,
        lines: "id,calendar,date|row,id,calendar,date,rd,weekday,gregorian,julian,refusal
a,julian,1582-10-05|1,a,julian,1582-10-05,577736,Friday,1582-10-15,1582-10-05,
b,gregorian,1582-10-15|2,b,gregorian,1582-10-15,577736,Friday,1582-10-15,1582-10-05,
c,julian,0-1-1|3,c,julian,0-1-1,,,,,6
a,coptic,3-13-6|4,a,coptic,3-13-6,104700,Monday,0287-08-29,0287-08-29,
b,coptic,4-13-6|5,b,coptic,4-13-6,,,,,6
c,ethiopic,1-1-1|6,c,ethiopic,1-1-1,2796,Wednesday,0008-08-27,0008-08-29,
d,ethiopic,0-1-1|7,d,ethiopic,0-1-1,,,,,6
e,egyptian,1-13-6|8,e,egyptian,1-13-6,,,,,6
d,mayan,1|9,d,mayan,1,,,,,4",
        notes: "3:6 5:6 7:6 8:6 9:4 ",
    },
    Case {
        targets: &[JULIAN],
        delimiter: b';',
        form: Form::Plain,
        lines: "\u{feff}ID; Calendar ;DATE\r|row;id;calendar;date;rd;weekday;julian;refusal
\r
\"Smith; J.\";Gregorian; 1752-9-14\r|1;\"Smith; J.\";Gregorian; 1752-9-14;639797;Thursday;1752-09-03;
",
        notes: "",
    },
    Case {
        targets: &[],
        delimiter: b',',
        form: Form::Plain,
        lines: "id,calendar,date|row,id,calendar,date,rd,weekday,refusal
a,gregorian|1,,,,,,1
aaaaaaaaaaaaaaaaaaaaaaaaaaaaaaaaaaaaaaaaa,gregorian,1945-11-12|2,,,,,,2
\u{1a},gregorian,1945-11-12|3,,,,,,3
d,mayan,1945-11-12|4,d,mayan,1945-11-12,,,4
e,gregorian,1945/11/12|5,e,gregorian,1945/11/12,,,5
i,hebrew,5706-08-30|6,i,hebrew,5706-08-30,,,6
j,hebrew,5707-13-01|7,j,hebrew,5707-13-01,,,6
a,b,c,d|8,,,,,,1
END,1|9,,,,,,1
",
        notes: "1:1 2:2 3:3 4:4 5:5 6:6 7:6 8:1 9:1 ",
    },
    Case {
        targets: &[],
        delimiter: b',',
        form: Form::Plain,
        lines: "\
id,calendar,date|row,id,calendar,date,rd,weekday,refusal
0123456789012345678901234567890123456789,gregorian       ,1970-01-01                      |\
1,0123456789012345678901234567890123456789,gregorian       ,1970-01-01                      ,719163,Thursday,
01234567890123456789012345678901234567890,gregorian,1970-01-01|2,,,,,,2
c,gregorian        ,1970-01-01|3,,,,,,2
d,gregorian,1970-01-01                       |4,,,,,,2
",
        notes: "2:2 3:2 4:2 ",
    },
    Case {
        targets: &[],
        delimiter: b',',
        form: Form::Plain,
        lines: "
\"\u{feff}Id\",calendar,date|row,id,calendar,date,rd,weekday,refusal
\"say \"\"so\"\"\",gregorian,1970-01-01|1,\"say \"\"so\"\"\",gregorian,1970-01-01,719163,Thursday,
",
        notes: "",
    },
    Case {
        targets: &[],
        delimiter: b'\t',
        form: Form::Plain,
        lines: "id\tcalendar\tdate|row\tid\tcalendar\tdate\trd\tweekday\trefusal
a,b\tiso\t1970-W01-4|1\ta,b\tiso\t1970-W01-4\t719163\tThursday\t
\"a\tb\"\tiso\t1970-W01-4|2\t\"a\tb\"\tiso\t1970-W01-4\t719163\tThursday\t
",
        notes: "",
    },
    Case {
        targets: &Target::ALL,
        delimiter: b',',
        form: Form::Plain,
        lines: "\
id,calendar,date|row,id,calendar,date,rd,weekday,gregorian,iso,julian,coptic,ethiopic,egyptian,armenian,islamic,\
hebrew,longcount,french,roman,haab,tzolkin,republican,refusal
a,gregorian,1945-11-12|1,a,gregorian,1945-11-12,710347,Monday,1945-11-12,1945-W46-1,1945-10-30,1662-03-03,1938-03-03,\
2694-07-10,1395-04-05,1364-12-06,5706-09-07,12.16.11.16.9,0154-02-21,1945-11-K3,7 Zac,11 Muluc,0154-02-20,
",
        notes: "",
    },
    Case {
        targets: &[GREGORIAN],
        delimiter: b',',
        form: Form::Plain,
        lines: "id,calendar,date|row,id,calendar,date,rd,weekday,gregorian,refusal
b,julian,1582-10-05|1,b,julian,1582-10-05,577736,Friday,1582-10-15,
d,julian,0-1-1|2,d,julian,0-1-1,,,,6
e,julian,-1-2-29|3,e,julian,-1-2-29,-308,Sunday,0000-02-27,
g,hebrew,5745-07-01|4,g,hebrew,5745-07-01,724546,Thursday,1984-09-27,
h,hebrew,5766-07-01|5,h,hebrew,5766-07-01,732223,Tuesday,2005-10-04,
k,french,4000-13-6|6,k,french,4000-13-6,,,,6
l,french,4-13-6|7,l,french,4-13-6,655875,Wednesday,1796-09-21,
m,islamic,1-1-1|8,m,islamic,1-1-1,227015,Friday,0622-07-19,
n,islamic,1-12-30|9,n,islamic,1-12-30,,,,6
o,islamic,2-12-30|10,o,islamic,2-12-30,227723,Saturday,0624-06-26,
",
        notes: "2:6 6:6 9:6 ",
    },
    Case {
        targets: &[REPUBLICAN, FRENCH, GREGORIAN],
        delimiter: b',',
        form: Form::Plain,
        lines: "id,calendar,date|row,id,calendar,date,rd,weekday,republican,french,gregorian,refusal
a,republican,8-2-18|1,a,republican,8-2-18,657019,Saturday,0008-02-18,0008-02-19,1799-11-09,
b,french,8-2-18|2,b,french,8-2-18,657018,Friday,0008-02-17,0008-02-18,1799-11-08,
c,Republican ,3-13-6|3,c,Republican ,3-13-6,655510,Tuesday,0003-13-06,0004-01-01,1795-09-22,
d,republican,4-13-6|4,d,republican,4-13-6,,,,,,6
e,republican,14-4-10|5,e,republican,14-4-10,659262,Tuesday,0014-04-10,0014-04-10,1805-12-31,
f,gregorian,1792-09-21|6,f,gregorian,1792-09-21,654414,Friday,,,1792-09-21,
g,republicain,1-1-1|7,g,republicain,1-1-1,,,,,,4
",
        notes: "4:6 7:4 ",
    },
    Case {
        targets: &[GREGORIAN, ISLAMIC],
        delimiter: b',',
        form: Form::Plain,
        lines: "id,calendar,date|row,id,calendar,date,rd,weekday,gregorian,islamic,refusal
c,julian,-44-3-15|1,c,julian,-44-3-15,-15999,Wednesday,-0043-03-13,,
",
        notes: "",
    },
    Case {
        targets: &[GREGORIAN, ISO],
        delimiter: b',',
        form: Form::Plain,
        lines: "id,calendar,date|row,id,calendar,date,rd,weekday,gregorian,iso,refusal
f,iso,2004-w53-6|1,f,iso,2004-w53-6,731947,Saturday,2005-01-01,2004-W53-6,
",
        notes: "",
    },
    Case {
        targets: &[LONGCOUNT, Target::Haab, Target::Tzolkin],
        delimiter: b',',
        form: Form::Plain,
        lines: "id,calendar,date|row,id,calendar,date,rd,weekday,longcount,haab,tzolkin,refusal
p,longcount,0.0.0.0.0|1,p,longcount,0.0.0.0.0,-1137142,Monday,0.0.0.0.0,8 Cumku,4 Ahau,
q,longcount,0.0.0.0.12|2,q,longcount,0.0.0.0.12,-1137130,Saturday,0.0.0.0.12,0 Uayeb,3 Eb,
r,longcount,0.0.0.18.0|3,r,longcount,0.0.0.18.0,,,,,,6
s,gregorian,-3113-08-10|4,s,gregorian,-3113-08-10,-1137143,Sunday,,7 Cumku,3 Cauac,
",
        notes: "3:6 ",
    },
    Case {
        targets: &[JULIAN],
        delimiter: b',',
        form: Form::Plain,
        lines: "id,calendar,date|row,id,calendar,date,rd,weekday,julian,refusal
t,gregorian,9999-12-31|1,t,gregorian,9999-12-31,3652059,Friday,9999-10-19,
u,gregorian,10000-01-01|2,u,gregorian,10000-01-01,,,,7
v,gregorian,10000-02-30|3,v,gregorian,10000-02-30,,,,6
w,iso,9999-W52-6|4,w,iso,9999-W52-6,,,,7
x,gregorian,-9999-01-01|5,x,gregorian,-9999-01-01,-3652424,Monday,-10000-03-19,
",
        notes: "2:7 3:6 4:7 ",
    },
    Case {
        targets: &[JULIAN, ROMAN],
        delimiter: b',',
        form: Form::Plain,
        lines: "id,calendar,date|row,id,calendar,date,rd,weekday,julian,roman,refusal
a,roman,0801-01-K8|1,a,roman,0801-01-K8,292192,Friday,0800-12-25,0801-01-K8,
b,roman,-44-03-i1|2,b,roman,-44-03-i1,-15999,Wednesday,-0044-03-15,-0044-03-I1,
c,roman,-1-3-k6b|3,c,roman,-1-3-k6b,-312,Wednesday,-0001-02-25,-0001-03-K6B,
d,roman,1-3-K6B|4,d,roman,1-3-K6B,,,,,6
e,roman,0-1-K1|5,e,roman,0-1-K1,,,,,6
f,roman,1-1-K20|6,f,roman,1-1-K20,,,,,6
g,roman,1-1-K2|7,g,roman,1-1-K2,-2,Friday,-0001-12-31,0001-01-K2,
h,roman,-99999-1-K2|8,h,roman,-99999-1-K2,,,,,7
i,roman,1-1-X3|9,i,roman,1-1-X3,,,,,5
",
        notes: "4:6 5:6 6:6 8:7 9:5 ",
    },
    Case {
        targets: &[GREGORIAN],
        delimiter: b',',
        form: Form::Sealed,
        lines: "id,calendar,date,note|row,id,calendar,date,note,rd,weekday,gregorian,refusal
END,2,|1,,,,,,,,1
end,2|2,,,,,,,,1
E ND,2|3,,,,,,,,1
END|4,,,,,,,,1
END,julian,1582-10-05,|5,END,julian,1582-10-05,,577736,Friday,1582-10-15,
END,5
",
        notes: "1:1 2:1 3:1 4:1 ",
    },
    Case {
        targets: &[],
        delimiter: b',',
        form: Form::Sealed,
        lines: "\
id,calendar,date,note|row,id,calendar,date,note,rd,weekday,refusal
a,iso,1970-W01-4,01234567890123456789012345678901234567890123456789012345678901234567890123456789|\
1,a,iso,1970-W01-4,01234567890123456789012345678901234567890123456789012345678901234567890123456789,719163,Thursday,
b,iso,1970-W01-4,012345678901234567890123456789012345678901234567890123456789012345678901234567890|2,,,,,,,2
c,iso,1970-W01-4,\u{1a}1234567890123456789012345678901234567890123456789012345678901234567890123456\u{1a}78\u{1a}|\
3,,,,,,,2
d,iso,1970-W01-4,\u{1a}|4,,,,,,,3
e,iso,1970-W01-4,\" a, \"\"b\"\" \"|5,e,iso,1970-W01-4,\" a, \"\"b\"\" \",719163,Thursday,
END,5
",
        notes: "2:2 3:2 4:3 ",
    },
];

/// More lines than a case has.
const MOST_LINES: u32 = 20;

/// A reader of the records of these lines, of as many in each read as there is room for.
#[derive(Drop)]
struct Records {
    lines: Option<&'static str>,
    record: Text<'static>,
}

impl Records {
    fn new(lines: &'static str) -> Records {
        Records {
            lines: Some(lines),
            record: Text::new(b"", b""),
        }
    }

    /// Goes on to the next line, if there is one.
    fn advance(&mut self) {
        let Some(lines) = self.lines else {
            return;
        };
        let (line, more) = match lines.split_once('\n') {
            Some((line, more)) => (line, Some(more)),
            None => (lines, None),
        };
        let (record, _) = line.split_once('|').unwrap_or((line, ""));
        self.lines = more;
        self.record = Text::new(record.as_bytes(), b"\n");
    }
}

impl Read for Records {
    fn read(&mut self, buf: &mut [u8]) -> io::Result<usize> {
        let mut count = 0usize;
        for _ in 0..MOST_LINES {
            if self.record.is_given() {
                self.advance();
            }
            let Some(room) = buf.get_mut(count..) else {
                break;
            };
            count = count.saturating_add(self.record.read(room)?);
        }
        Ok(count.min(buf.len()))
    }
}

/// How many rows a table has, if it is that of these lines.
fn rows_of(table: &[u8], lines: &str) -> Option<usize> {
    let mut rest = table;
    let mut rows = 0usize;
    for line in lines.split('\n') {
        if let Some((_, row)) = line.split_once('|') {
            rest = rest.strip_prefix(row.as_bytes())?.strip_prefix(b"\n")?;
            rows = rows.saturating_add(1);
        }
    }
    if rest.is_empty() { Some(rows) } else { None }
}

/// Whether a note is this one: the number and the refusal of a row.
fn is_note(note: &Note, text: &str) -> bool {
    match text.split_once(':') {
        Some((number, refusal)) => {
            number.parse() == Ok(note.number) && refusal.parse() == Ok(note.refusal.number())
        }
        None => false,
    }
}

/// Whether a journal has these notes.
fn has_notes(journal: &[Note], notes: &str) -> bool {
    let mut rest = notes;
    for note in journal {
        let Some((text, more)) = rest.split_once(' ') else {
            return false;
        };
        if !is_note(note, text) {
            return false;
        }
        rest = more;
    }
    rest.is_empty()
}

/// Whether a source is whole with so many rows below the heading, and has these notes in its journal.
fn is_whole_with(end: &SourceEnd, lines: usize, notes: &str) -> bool {
    match end {
        SourceEnd::Whole {
            rows,
            refused,
            journal,
        } => {
            lines.checked_sub(1) == Some(*rows as usize)
                && *refused as usize == journal.len()
                && has_notes(journal.as_slice(), notes)
        }
        SourceEnd::Broken { .. } => false,
    }
}

/// Whether the text becomes the table, and the journal has these notes.
fn is_right(alloc: Global, case: &Case) -> bool {
    let Ok(mut sink) = Sink::new(alloc, 7, ROOM, 0, 0, ROOM) else {
        return false;
    };
    let setup = Setup::new(case.targets, 16, case.delimiter, 1, case.form);
    let reader = Records::new(case.lines);
    let Some(end) = end_of(alloc, reader, &mut sink, setup) else {
        return false;
    };
    match rows_of(sink.bytes(), case.lines) {
        Some(rows) => is_whole_with(&end, rows, case.notes),
        None => false,
    }
}

#[test]
fn texts_become_their_tables(rt: HostRuntime) {
    for case in &CASES {
        assert!(rt; is_right(rt.alloc(), case), "at {:?}", case.lines);
    }
}

/// Texts after bars, each behind the number of its cause, or 0, and a colon.
struct Ends {
    form: Form,
    /// What each text begins with.
    front: &'static str,
    texts: &'static str,
    /// The table of each, but of one with cause 6, which has none.
    table: &'static str,
}

static ENDS: [Ends; 3] = [
    Ends {
        form: Form::Plain,
        front: "",
        texts: "0:id,calendar,date|0:\u{feff}\u{feff} id ,CALENDAR,date\n|6:|6:\n\n|6:id\n|6:id,calendar\n|\
6:id,calendar,date,note\n|6:id,calendar,date,note,place\n|6:id,calendar,date,,,,,,,,,,,,,,,,,,,,,,,,,,,,,,,,,,,,,\n|\
6:id,calendar,date,\n|6:calendar,id,date\n|6:id,calendar,\u{1a}\n|6:\u{feff}\u{feff}\u{feff}id,calendar,date\n",
        table: "row,id,calendar,date,rd,weekday,gregorian,refusal\n",
    },
    Ends {
        form: Form::Sealed,
        front: "",
        texts: "0:id,calendar,date,note\nEND,0\n|0:\u{feff} ID,calendar\t,Date, NOTE \nEND,0|\
8:id,calendar,date,note\n|6:|6:END,0\n|6:END,0\nid,calendar,date,note\nEND,0\n|6:id,calendar,date\n|\
6:id,calendar,date,notes\nEND,0\n|6:id,calendar,note,date\nEND,0\n|6:id,calendar,date,note,\nEND,0\n",
        table: "row,id,calendar,date,note,rd,weekday,gregorian,refusal\n",
    },
    Ends {
        form: Form::Sealed,
        front: "\
id,calendar,date,note
a,julian,1582-10-05,parish book
b,julian,1582-10-06
",
        texts: "0:END,2\n|0:END,2|0: END , 02\n|0:\tEND\t,\t0000002 \n|0:\"END\",\" 2\"\r\n\r\n|8:|8:END,3\n|\
8:END,1\n|8:END,x\n|8:END,\n|8:END,+2\n|8:END,2.\n|8:END,0 2\n|8:END,00000002\n|\
8:END,2\nc,julian,1582-10-07,\n|8:END,2\nEND,2\n|8:END,2\nEND\n|8:END,3\nEND,2\n",
        table: "\
row,id,calendar,date,note,rd,weekday,gregorian,refusal
1,a,julian,1582-10-05,parish book,577736,Friday,1582-10-15,
2,,,,,,,,1
",
    },
];

/// Whether a text behind its front ends as the digit before its colon says.
fn ends_well(alloc: Global, ends: &Ends, text: &str) -> bool {
    let (Some((wanted, rest)), Ok(mut sink)) = (
        text.split_once(':'),
        Sink::new(alloc, 7, ROOM, 0, 0, ROOM),
    ) else {
        return false;
    };
    let setup = Setup::new(&[GREGORIAN], 16, b',', 1, ends.form);
    let reader = Text::new(ends.front.as_bytes(), rest.as_bytes());
    let table = if wanted == "6" { "" } else { ends.table };
    let cause = cause_from(alloc, reader, &mut sink, setup);
    cause.is_some() && wanted.parse().ok() == cause && sink.bytes() == table.as_bytes()
}

#[test]
fn texts_end_whole_or_with_their_causes(rt: HostRuntime) {
    for ends in &ENDS {
        for text in ends.texts.split('|') {
            assert!(rt; ends_well(rt.alloc(), ends, text), "at {text:?}");
        }
    }
}
