//! The options, and the page of help.

ghost use Rattle.std.specs.Prelude.{◌≡◌};
ghost use Rattle.programs.specs.HelpPages.{page_text};
ghost use Rattle.sheet_arguments.specs.Requests.{help_page};

use crate::option_values::MOST_ABOVE;
use programs::{Argument, Help, Kind, Page, Value};

/// What `--tree` does.
const TREE: &str = "each FILE is a family tree, GEDCOM 5.5.1 or 7 in UTF-8.
                      Its dates are converted, but for those of the file,
                      as when a record was changed, as a sheet with the
                      columns record, name, partner, event, part, type,
                      place, calendar and date. It takes no --date, --three,
                      --calendar, --all, --skip and --delimiter.";

/// What `--date` does.
const DATE: &str = "where the dates are; once to eight times.";

/// What `--three` does.
const THREE: &str = "the three columns of which one is made behind the
                      others, as year-month-day: digits as 1806-5-12, else as
                      12 Mai 1806. It is a further column of dates.";

/// What `--calendar` does.
const CALENDAR: &str = "where their calendars are; or";

/// What `--all` does.
const ALL: &str = "the calendar that they all have: any name of a list, as
                      O.S., both (dates in both styles), or a change, as
                      julian/gregorian:1582-10-15 (Julian before that day).
                      One of both, once for all columns of dates or once for
                      each, in order.";

/// What `--else` does.
const ELSE: &str = "the same for dates whose calendar is empty.";

/// What `--id` does.
const ID: &str = "where the ids of a register are. Without it: the number
                      of the record.";

/// What `--order` does.
const ORDER: &str = "in which order three numbers stand: year (year, month,
                      day), day (day, month, year) or month (month, day,
                      year), in letters of any case. Without it: year, and
                      of a tree day.";

/// What `--names` does.
const NAMES: &str = "a list of names, a CSV text with the columns name, means
                      and in; its names stand before the built-in ones, and,
                      of several such lists, before those of the next.";

/// What `--short-years` does.
const SHORT_YEARS: &str = "what is done with Gregorian and Julian years of one or
                      two digits: refuse, keep, or a century that is added,
                      100, 200 and so on to 2000. Without it: refuse, and the
                      date is left empty.";

/// What `--short-hebrew-years` does.
const SHORT_HEBREW_YEARS: &str = "the same of Hebrew years of one to three digits: refuse,
                      keep or 5000.";

/// What `--short-other-years` does.
const SHORT_OTHER_YEARS: &str = "the same of Islamic, Coptic, Ethiopic and Armenian years
                      of one or two digits: refuse, keep, or a century. Where
                      --short-years keeps, these are kept without it.";

/// What `--charter-years` does.
const CHARTER_YEARS: &str = "the year of a Roman date is that of its day.";

/// What `--skip` does.
const SKIP: &str = "how many records stand above the names. Without it: 0.";

/// What `--delimiter` does.
const DELIMITER: &str = "what stands between two fields: comma, semicolon or
                      tab. Without it: comma.";

/// What `--to` does.
const TO: &str = "the columns for each column of dates, in the order
                      wanted, separated by commas: rd, weekday, church,
                      calendars, haab, tzolkin. Without it:
                      weekday,gregorian. church is the Sunday or feast, in
                      Latin, that a Gregorian or Julian day is.";

/// What `--spans` does.
const SPANS: &str = "read months, years, ranges and the like too: for each
                      date the columns come for its first day and for its
                      last, and behind them mark, which says what else a
                      date is: between, before, after, from, to, about,
                      uncertain, inferred, undated. An end that is open is
                      empty.";

/// What `--edtf` does.
const EDTF: &str = "the same, and before mark a column edtf, with the date
                      in the Extended Date/Time Format of ISO 8601-2.";

/// What `--register` does.
const REGISTER: &str = "write the register of each column of dates too, which
                      the program register takes: FILE.register.csv, and of
                      several FILE.register.1.csv, FILE.register.2.csv ..;
                      with --spans those of the first and of the last days,
                      FILE.first.register.csv and FILE.last.register.csv.";

/// What `--unknown` does.
const UNKNOWN: &str = "write only a list of the names that are not known, up to
                      1000: FILE.unknown.csv. Fill it in, and give it back by
                      --names.";

/// What `--summary` does.
const SUMMARY: &str = "report on standard error, for each whole sheet, its
                      records without blank ones, and for each column how
                      many dates were refused, how many are empty, and with
                      --spans how many are no single day.";

/// The options, in the order of the page of help.
pub const ARGUMENTS: [Argument<'static>; 21] = [
    Argument {
        name: "tree",
        kind: Kind::Flag,
        help: TREE,
    },
    Argument {
        name: "date",
        kind: Kind::Repeated(Value::Text("COLUMN")),
        help: DATE,
    },
    Argument {
        name: "three",
        kind: Kind::Valued(Value::Text("YEAR,MONTH,DAY")),
        help: THREE,
    },
    Argument {
        name: "calendar",
        kind: Kind::Repeated(Value::Text("COLUMN")),
        help: CALENDAR,
    },
    Argument {
        name: "all",
        kind: Kind::Repeated(Value::Text("CALENDAR")),
        help: ALL,
    },
    Argument {
        name: "else",
        kind: Kind::Valued(Value::Text("CALENDAR")),
        help: ELSE,
    },
    Argument {
        name: "id",
        kind: Kind::Valued(Value::Text("COLUMN")),
        help: ID,
    },
    Argument {
        name: "order",
        kind: Kind::Valued(Value::Words {
            name: "WORD",
            words: "year|day|month",
        }),
        help: ORDER,
    },
    Argument {
        name: "names",
        kind: Kind::Repeated(Value::Text("FILE")),
        help: NAMES,
    },
    Argument {
        name: "short-years",
        kind: Kind::Valued(Value::Words {
            name: "R",
            words: "refuse|keep|CENTURY",
        }),
        help: SHORT_YEARS,
    },
    Argument {
        name: "short-hebrew-years",
        kind: Kind::Valued(Value::Words {
            name: "R",
            words: "refuse|keep|5000",
        }),
        help: SHORT_HEBREW_YEARS,
    },
    Argument {
        name: "short-other-years",
        kind: Kind::Valued(Value::Words {
            name: "R",
            words: "refuse|keep|CENTURY",
        }),
        help: SHORT_OTHER_YEARS,
    },
    Argument {
        name: "charter-years",
        kind: Kind::Flag,
        help: CHARTER_YEARS,
    },
    Argument {
        name: "skip",
        kind: Kind::Valued(Value::Number {
            name: "N",
            least: 0,
            most: MOST_ABOVE,
        }),
        help: SKIP,
    },
    Argument {
        name: "delimiter",
        kind: Kind::Valued(Value::Words {
            name: "WORD",
            words: "comma|semicolon|tab",
        }),
        help: DELIMITER,
    },
    Argument {
        name: "to",
        kind: Kind::Valued(Value::Text("LIST")),
        help: TO,
    },
    Argument {
        name: "spans",
        kind: Kind::Flag,
        help: SPANS,
    },
    Argument {
        name: "edtf",
        kind: Kind::Flag,
        help: EDTF,
    },
    Argument {
        name: "register",
        kind: Kind::Flag,
        help: REGISTER,
    },
    Argument {
        name: "unknown",
        kind: Kind::Flag,
        help: UNKNOWN,
    },
    Argument {
        name: "summary",
        kind: Kind::Flag,
        help: SUMMARY,
    },
];

/// The page of help, by its parts.
pub static HELP: Help<'static> = Help {
    above: ABOVE,
    arguments: &ARGUMENTS,
    below: BELOW,
};

/// What `--help` prints: what goes in, what comes out, the options, and how a run ends.
pub fn page_of_help() -> Page<'static>
    ensures { page_text result ≡ help_page }
{
    Page::Help(&HELP)
}

/// What stands above the options.
const ABOVE: &str = "register-sheet converts the dates in sheets.

Usage: register-sheet --date COLUMN --calendar COLUMN [OPTIONS] [FILE..]

It reads a CSV text with columns of its own, turns the dates of one to eight
columns into those that registers have, converts them, and writes the same
CSV with further columns behind. Each FILE, up to 32, is a sheet; what comes
of it is FILE with .dates.csv at the end, and replaces a file of that name.
Without FILE it reads standard input and writes standard output.

A COLUMN is the name of a column, as it stands in the record of names, with
or without the blanks at its ends; or, where no column has that name, the
number of a column from 1.

Options:

";

/// What stands below them.
const BELOW: &str = "
Exit status:

    0  every sheet was converted to its end, refused dates included
    1  a sheet broke off: standard error says which FILE and why; or this
       page could not be printed
    2  the command line was refused; standard error says why
    3  a file could not be opened or made, the list of names is none, or out
       of memory at the start

A sheet breaks off where it has no names, a column that it lacks is asked for,
it is no family tree in UTF-8 with --tree, more than 1,000,000 records stand
below the names, memory runs out, or it can be read or written no further. The
other sheets are still converted.
";
