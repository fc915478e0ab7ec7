//! Reports on standard error how sources have ended.

ghost use Rattle.std.specs.Prelude.{◌≡◌, ◌≤◌, ◌<◌, ◌+◌, ◌++◌, ◌∷◌, [], MatchOption, codes, length, true, false};
ghost use Rattle.std.specs.Fmt.{decimal};
ghost use Rattle.std.specs.Io.KnownBytes.{Appends};
ghost use Rattle.register_app.specs.Reports.{count_text, counts_from, every_refusal, line_of_end, lines_from};
ghost use Rattle.register_app.specs.Reports.{rows_text};

use arrayvec::ArrayString;
use date_texts::Refusal;
use itoa::Buffer;
use register_records::{Cause, Note, Output, RefusalCounts, SourceEnd, send};

/// The most bytes of a line on a source.
const LINE: usize = 256;

/// Room for the name and the place of a source, and for one count with its number: a number of twenty digits, and seven
/// bytes more.
const PART: usize = 27;

/// Room for the line of a whole source without its counts.
const WHOLE: usize = 64;

/// A line on a source.
type Line = ArrayString<LINE>;

/// Begins the line of the source at this place, from 1.
fn begin_line(place: usize) -> Line
    ensures bytes { result.bytes ≡ codes "source " ++ decimal place }
    ensures short { length result.bytes ≤ PART }
{
    let mut line = Line::new();
    line.push_str("source ");
    line.push_str(Buffer::new().format(place));
    line
}

/// The line of a source that is broken for this cause.
fn line_of_broken(place: usize, cause: Cause) -> Line
    ensures { result.bytes ≡ line_of_end true place (SourceEnd.Broken cause) }
{
    let mut line = begin_line(place);
    line.push_str(": cause ");
    line.push_str(Buffer::new().format(cause.number()));
    line.push_str("\n");
    line
}

/// The refusals, in the order of their numbers.
const REFUSALS: [Refusal; 7] = [
    Refusal::FieldCount,
    Refusal::FieldTooLong,
    Refusal::NotUtf8,
    Refusal::UnknownCalendar,
    Refusal::DateText,
    Refusal::NoSuchDate,
    Refusal::OutOfRange,
];

/// Adds to a line how many records were refused with one number, the first of the line or a further one.
fn push_count(line: &mut Line, is_first: bool, number: u8, count: usize)
    requires room { length line.old.bytes + PART ≤ LINE }
    ensures bytes { line.new.bytes ≡ line.old.bytes ++ count_text is_first number count }
    ensures short { length line.new.bytes ≤ length line.old.bytes + PART }
{
    line.push_str(if is_first { " (" } else { ", " });
    line.push_str(Buffer::new().format(number));
    line.push_str(": ");
    line.push_str(Buffer::new().format(count));
}

/// Begins the line of a whole source.
fn begin_whole(place: usize, rows: u32, refused: u32) -> Line
    ensures bytes { result.bytes ≡ rows_text place rows refused }
    ensures short { length result.bytes ≤ WHOLE }
{
    let mut line = begin_line(place);
    line.push_str(": ");
    line.push_str(Buffer::new().format(rows));
    line.push_str(" rows, ");
    line.push_str(Buffer::new().format(refused));
    line.push_str(" refused");
    line
}

/// Adds to a line how many records were refused with each number.
fn push_counts(line: &mut Line, journal: &[Note])
    requires room { length line.old.bytes ≤ WHOLE }
    ensures bytes { line.new.bytes ≡ line.old.bytes ++ counts_from true journal.now every_refusal }
    ensures short { length line.new.bytes < LINE }
{
    let counts = RefusalCounts::of(journal);
    let mut is_first = true;
    'refusals: for refusal in &REFUSALS {
        let count = counts.count(*refusal);
        if count > 0 {
            push_count(line, is_first, refusal.number(), count);
            is_first = false;
        }
    }
    if !is_first {
        line.push_str(")");
    }
}

/// The line of a whole source.
fn line_of_whole(place: usize, rows: u32, refused: u32, journal: &[Note]) -> Line
    ensures { result.bytes
        ≡ rows_text place rows refused ++ (counts_from true journal.now every_refusal ++ 10 ∷ []) }
{
    let mut line = begin_whole(place, rows, refused);
    push_counts(&mut line, journal);
    line.push_str("\n");
    line
}

/// Reports how each source has ended, in order: the cause of each that is broken, and with `summary` the rows of each
/// that is whole. A fault of `errors` is let go: there is nowhere else to report it.
pub fn report_ends<E: Output>(errors: &mut E, summary: bool, ends: &[SourceEnd])
    ensures lines { E.has_failed errors.new ≡ false
        → Appends (E.contents errors.old) (E.contents errors.new) (lines_from summary 1 ends.now) }
    ensures mark { E.own_mark errors.new ≡ E.own_mark errors.old }
{
    let mut place = 0_usize;
    'ends: for end in ends {
        place += 1;
        report_end(errors, summary, place, end);
    }
}

/// The line on how the source at this place has ended, if there is one: a whole source has one in a summary alone.
fn line_of(summary: bool, place: usize, end: &SourceEnd) -> Option<Line>
    ensures { MatchOption result (line_of_end summary place end.now ≡ [])
        (λ line. line.bytes ≡ line_of_end summary place end.now) }
{
    match end {
        SourceEnd::Broken { cause } => Some(line_of_broken(place, *cause)),
        SourceEnd::Whole {
            rows,
            refused,
            journal,
        } => {
            if summary {
                Some(line_of_whole(place, *rows, *refused, journal.as_slice()))
            } else {
                None
            }
        }
    }
}

/// Reports how the source at this place has ended.
fn report_end<E: Output>(errors: &mut E, summary: bool, place: usize, end: &SourceEnd)
    ensures line { E.has_failed errors.new ≡ false
        → (E.has_failed errors.old ≡ false) × Appends (E.contents errors.old) (E.contents errors.new)
        (line_of_end summary place end.now) }
    ensures mark { E.own_mark errors.new ≡ E.own_mark errors.old }
{
    if let Some(line) = line_of(summary, place, end) {
        let _ = send(errors, line.as_bytes());
    }
}
