//! The options, and the page of help.

ghost use Rattle.std.specs.Prelude.{◌≡◌};
ghost use Rattle.programs.specs.HelpPages.{page_text};
ghost use Rattle.register_arguments.specs.Requests.{help_page};

use programs::{Argument, Help, Kind, Page, Value};
use register_records::{MAX_RING, MAX_STRIPES};

/// What `--to` does.
const TO: &str = "the columns, in the order wanted, separated by commas:
                      calendars, haab, tzolkin; or the word none. Without
                      it: all but republican, in the order above.";

/// What `--delimiter` does.
const DELIMITER: &str = "what stands between two fields, in text and table:
                      comma, semicolon or tab. Without it: comma.";

/// What `--sealed` does.
const SEALED: &str = "break off where records were lost: the last line is
                      END,N, or END;N with semicolons, for N records; write
                      it after the export from a spreadsheet. The header is
                      id,calendar,date,note, and the table has a column
                      note. Without it: no note and no such line.";

/// What `--summary` does.
const SUMMARY: &str = "report on standard error, for each whole table, its
                      rows and how many were refused by each number.";

/// What `--ring` does.
const RING: &str = "how many records may wait between two threads, 1 to
                      4096. Without it: what fits the machine.";

/// What `--stripes` does.
const STRIPES: &str = "how many threads convert each register, 1 to 4.
                      Without it: what fits the machine. Neither N changes a
                      table.";

/// The options, in the order of the page of help.
pub const ARGUMENTS: [Argument<'static>; 6] = [
    Argument {
        name: "to",
        kind: Kind::Valued(Value::Text("LIST")),
        help: TO,
    },
    Argument {
        name: "delimiter",
        kind: Kind::Valued(Value::Words {
            name: "WORD",
            words: "comma|semicolon|tab",
        }),
        help: DELIMITER,
    },
    Argument {
        name: "sealed",
        kind: Kind::Flag,
        help: SEALED,
    },
    Argument {
        name: "summary",
        kind: Kind::Flag,
        help: SUMMARY,
    },
    Argument {
        name: "ring",
        kind: Kind::Valued(Value::Number {
            name: "N",
            least: 1,
            most: MAX_RING,
        }),
        help: RING,
    },
    Argument {
        name: "stripes",
        kind: Kind::Valued(Value::Number {
            name: "N",
            least: 1,
            most: MAX_STRIPES,
        }),
        help: STRIPES,
    },
];

/// The page of help, by its parts.
pub static HELP: Help<'static> = Help {
    above: ABOVE,
    arguments: &ARGUMENTS,
    below: BELOW,
};

/// What `--help` prints: what goes in, what comes out, the calendars, the options, the refusals and how a
/// run ends.
pub fn page_of_help() -> Page<'static>
    ensures { page_text result ≡ help_page }
{
    Page::Help(&HELP)
}

/// What stands above the options.
const ABOVE: &str = "register converts the dates of historical registers.

Usage: register [OPTIONS] [FILE..]

It reads a CSV text, converts the date of each record, and writes a CSV table
with one row for each record, in order. Each FILE, up to 32, is a register;
its table is FILE with .out.csv at the end, and replaces a file of that name.
Without FILE it reads standard input and writes standard output.

What goes in: UTF-8 text. Its first record is the header

    id,calendar,date

and each further record has an id of your own of up to 40 bytes, the name of
a calendar, and a date in that calendar. Letter case and spaces round the
names do not matter. The calendars, and how their dates are written:

    gregorian, iso (2004-W53-6: year, week, weekday from 1 for Monday),
    julian, coptic, ethiopic, egyptian, armenian, islamic, hebrew,
    longcount (12.16.11.16.9: five numbers), french,
    roman (1945-11-K3: year, month and name), republican;
    where nothing is said, 1945-11-12 or -44-3-15: year, month, day

Gregorian and iso years have a year 0; in julian and roman the year before 1
is -1; the others begin with year 1. Hebrew month 1 is Nisan. A Roman name is
K, N or I and a count of days back from those Kalends, Nones or Ides, which
are counted too, or K6B.
French dates of the time are republican. By arithmetic go french, in which
the years 4, 8, 12 are a day early, and islamic: a day may be 1 or 2 off.

What comes out: for each record its row number, its fields, the fixed
day number (rd; day 1 is Monday, 1 January of the Gregorian year 1), the
weekday, and the same day in each calendar asked for; a day before the first
day of a calendar has an empty field there. The last column is empty where
the date was converted. Else it has the first reason why it was not:

    1  the record does not have three fields; in a sealed register, four
    2  a field is too long: the id over 40 bytes, the calendar over 16, the
       date over 32 or the note over 80
    3  a field is not UTF-8
    4  no calendar has the name
    5  the date is not written as its calendar wants it: see above
    6  the calendar has no such date
    7  the day lies outside the Gregorian years -9999 to 9999

Options:

";

/// What stands below them.
const BELOW: &str = "
Exit status:

    0  every register was converted to its end, refused records included
    1  a register broke off: for each, standard error has the line
       source N: cause C; or this page could not be printed
    2  the command line was refused; standard error says why
    3  a file could not be opened or made, or out of memory at the start

What stands in a table after status 1 is right as far as it goes; after
cause 4 its last line may be cut. Causes:

    1  out of memory
    2  a thread could not be started
    3  not every row could be confirmed, which should never happen
    4  the table could not be written
    5  the register could not be read
    6  the header is missing or wrong: not id,calendar,date (with --sealed
       id,calendar,date,note), but other names or order, more columns,
       another delimiter, UTF-16, a title line; nothing is written
    7  there are more than 1,000,000 records; the first 1,000,000 are there
    8  the seal is missing or wrong: with --sealed, the last line is not END,N
       with the right number and delimiter; the records before it are there

Example: the text

    id,calendar,date
    b,julian,1582-10-05

gives by register --to gregorian the table

    row,id,calendar,date,rd,weekday,gregorian,refusal
    1,b,julian,1582-10-05,577736,Friday,1582-10-15,
";
