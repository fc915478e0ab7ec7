//! Reports on standard error how sheets have ended.

ghost use Rattle.std.specs.Prelude.{◌≡◌, ◌++◌, ◌∷◌, [], ◌==◌, IfErr, IfOk, OnOk, codes, false, if◌then◌else◌};
ghost use Rattle.std.specs.Fmt.{decimal};
ghost use Rattle.sheet_app.specs.Lines.{line_of_dates as dates_line};
ghost use Rattle.sheet_app.specs.Lines.{counts_of, fault_text, head_of, kept_lines, lines_on, names_line, reason_line};
ghost use Rattle.sheet_app.specs.Lines.{reason_lines, reason_words, spans_list, summary_line, three_lines};
ghost use Rattle.sheet_app.specs.private.Lines.{listed_at};
ghost use Rattle.sheet_arguments.specs.Requests.{task_of};
ghost use Rattle.sheet_app.specs.private.SheetViews.{Says};
ghost use Rattle.sheet_app.specs.declared.conversions.SheetDone.TheVariants.{Listed, Whole};

use crate::conversions::{ListedSheet, SheetDone, WholeSheet};
use crate::sheet_faults::{SheetFault, push_listed};
use itoa::Buffer;
use programs::report_out_of_memory;
use register_records::{Output, send};
use sheet_arguments::{Job, NAME};
use sheets::{Reason, ReasonCounts, Spans, UnreadDates};
use std::alloc::{AllocError, Global};

/// Begins a line on the sheet of this name.
fn begin_line(alloc: Global, name: &str) -> Result<Vec<u8>, AllocError>
    ensures { IfOk result (λ line. line.items ≡ head_of name.now) }
{
    let mut line = Vec::new(alloc);
    line.extend_from_slice(b"register-sheet: ")?;
    line.extend_from_slice(name.as_bytes())?;
    line.extend_from_slice(b": ")?;
    Ok(line)
}

/// Adds a number and what it counts to a line.
fn push_count(line: &mut Vec<u8>, count: u64, counted: &[u8]) -> Result<(), AllocError>
    ensures { OnOk result (line.new.items ≡ line.old.items ++ (decimal count ++ counted.now)) }
{
    line.extend_from_slice(Buffer::new().format(count).as_bytes())?;
    line.extend_from_slice(counted)
}

/// The line on so many dates of a sheet, in words for one of them and for more.
fn line_of_dates(
    alloc: Global,
    name: &str,
    count: u64,
    one: &[u8],
    more: &[u8],
) -> Result<Vec<u8>, AllocError>
    ensures { IfOk result (λ line.
        line.items ≡ head_of name.now ++ (decimal count ++ (if count == 1 then one.now else more.now))) }
{
    let mut line = begin_line(alloc, name)?;
    push_count(&mut line, count, if count == 1 { one } else { more })?;
    Ok(line)
}

/// Adds the number at an index of a list to a line.
fn push_number(line: &mut Vec<u8>, index: usize, number: usize) -> Result<(), AllocError>
    ensures { OnOk result (line.new.items ≡ line.old.items ++ listed_at index (decimal number)) }
{
    push_listed(line, index, Buffer::new().format(number).as_bytes())
}

/// A line with how many records a sheet has that are not blank, and of how many the date was refused or is empty for each of
/// so many columns of dates.
fn line_of_counts(
    alloc: Global,
    name: &str,
    dates: usize,
    whole: &WholeSheet,
) -> Result<Vec<u8>, AllocError>
    ensures { IfOk result (λ line. line.items ≡ counts_of name.now dates whole.now) }
{
    let mut line = begin_line(alloc, name)?;
    let records = u64::from(whole.records).saturating_sub(whole.counts.blank as u64);
    push_count(&mut line, records, b" records, refused: ")?;
    let mut empty = Vec::new(alloc);
    let columns = whole.counts.dates.as_slice();
    'dates: for index in 0..dates.min(columns.len()) {
        let counts = &columns[index];
        push_number(&mut line, index, counts.refused)?;
        push_number(&mut empty, index, counts.empty)?;
    }
    line.extend_from_slice(b", empty: ")?;
    line.extend_from_slice(empty.as_slice())?;
    Ok(line)
}

/// Adds to a line how many dates were converted that are no single day, for each of so many columns of dates.
fn push_spans(line: &mut Vec<u8>, dates: usize, whole: &WholeSheet) -> Result<(), AllocError>
    ensures { OnOk result (line.new.items ≡ line.old.items ++ (codes ", spans: " ++ spans_list dates whole.now)) }
{
    line.extend_from_slice(b", spans: ")?;
    let columns = whole.counts.dates.as_slice();
    'dates: for index in 0..dates.min(columns.len()) {
        push_number(line, index, columns[index].spans)?;
    }
    Ok(())
}

/// The line of a summary: these numbers, and, where dates that are no single day are read, how many are none.
fn line_of_summary(
    alloc: Global,
    name: &str,
    job: &Job<'_>,
    whole: &WholeSheet,
) -> Result<Vec<u8>, AllocError>
    ensures { IfOk result (λ line. line.items ≡ summary_line (task_of job.now) name.now whole.now) }
{
    let dates = job.dates.len();
    let mut line = line_of_counts(alloc, name, dates, whole)?;
    if !matches!(job.spans, Spans::Unread) {
        push_spans(&mut line, dates, whole)?;
    }
    line.push(b'\n')?;
    Ok(line)
}

/// The line on a sheet that broke off.
fn line_of_fault(alloc: Global, name: &str, fault: &SheetFault<'_>) -> Result<Vec<u8>, AllocError>
    ensures { IfOk result (λ line. line.items ≡ head_of name.now ++ (fault_text fault.now ++ 10 ∷ [])) }
{
    let mut line = begin_line(alloc, name)?;
    fault.push_to(&mut line)?;
    line.push(b'\n')?;
    Ok(line)
}

/// Sends a line, and says whether there was memory for it: else the line that memory ran out takes its place. A fault of
/// `errors` is let go: there is nowhere else to report it.
fn send_line<E: Output>(errors: &mut E, line: Result<Vec<u8>, AllocError>) -> bool
    ensures line { IfOk line (λ line. Says E.Output errors.old errors.new result line.items) }
    ensures lost { IfErr line (λ e. (result ≡ false)
        × (E.has_failed errors.new ≡ false → E.has_failed errors.old ≡ false)
        × (E.own_mark errors.new ≡ E.own_mark errors.old)) }
{
    match line {
        Ok(line) => {
            let _ = send(errors, line.as_slice());
            true
        }
        Err(_) => {
            report_out_of_memory(NAME, errors);
            false
        }
    }
}

/// The words for so many dates that stay for a reason: for one of them, and for more.
fn words_of(reason: Reason) -> (&'static [u8], &'static [u8])
    ensures one { result.0.now ≡ (reason_words reason).0 }
    ensures more { result.1.now ≡ (reason_words reason).1 }
{
    match reason {
        Reason::NoCalendar => (
            b" date has no calendar\n".as_slice(),
            b" dates have no calendar\n".as_slice(),
        ),
        Reason::Character => (
            b" date has a character that no date has\n".as_slice(),
            b" dates have a character that no date has\n".as_slice(),
        ),
        Reason::Minus => (
            b" date has a minus in front of a number\n".as_slice(),
            b" dates have a minus in front of a number\n".as_slice(),
        ),
        Reason::OtherWeekday => (
            b" date names another weekday\n".as_slice(),
            b" dates name another weekday\n".as_slice(),
        ),
        Reason::NoDay => (
            b" date has no day\n".as_slice(),
            b" dates have no day\n".as_slice(),
        ),
        Reason::NoYear => (
            b" date has no year\n".as_slice(),
            b" dates have no year\n".as_slice(),
        ),
        Reason::NoSuchYear => (
            b" date has a year that the French Republic did not have\n".as_slice(),
            b" dates have a year that the French Republic did not have\n".as_slice(),
        ),
        Reason::NoDate => (
            b" date is no date of its calendar\n".as_slice(),
            b" dates are no dates of their calendars\n".as_slice(),
        ),
        Reason::YearLast => (
            b" date has the year last: see --order\n".as_slice(),
            b" dates have the year last: see --order\n".as_slice(),
        ),
    }
}

/// Reports so many dates of a sheet, if there are some: in these words for one of them, and in those for more.
fn report_dates<E: Output>(
    alloc: Global,
    errors: &mut E,
    name: &str,
    count: u64,
    one: &[u8],
    more: &[u8],
) -> bool
    ensures { Says E.Output errors.old errors.new result (dates_line one.now more.now name.now count) }
{
    if count == 0 {
        return true;
    }
    let line = line_of_dates(alloc, name, count, one, more);
    send_line(errors, line)
}

/// Reports the dates of a sheet that stay for this reason, if there are some.
fn report_reason<E: Output>(
    alloc: Global,
    errors: &mut E,
    name: &str,
    counts: &ReasonCounts,
    reason: Reason,
) -> bool
    ensures { Says E.Output errors.old errors.new result (reason_line name.now counts.now reason) }
{
    let count = counts.count(reason);
    let (one, more) = words_of(reason);
    report_dates(alloc, errors, name, count as u64, one, more)
}

/// Reports the dates of a sheet that stay for these three reasons.
fn report_three<E: Output>(
    alloc: Global,
    errors: &mut E,
    name: &str,
    counts: &ReasonCounts,
    reasons: (Reason, Reason, Reason),
) -> bool
    ensures { Says E.Output errors.old errors.new result
        (three_lines name.now counts.now reasons.0 reasons.1 reasons.2) }
{
    let first = report_reason(alloc, errors, name, counts, reasons.0);
    let second = report_reason(alloc, errors, name, counts, reasons.1);
    let third = report_reason(alloc, errors, name, counts, reasons.2);
    first && second && third
}

/// Reports the dates of a sheet that stay as they are written, for each reason: those that say too little, those with a
/// sign or a weekday that is not theirs, and the others.
fn report_reasons<E: Output>(
    alloc: Global,
    errors: &mut E,
    name: &str,
    counts: &ReasonCounts,
) -> bool
    ensures { Says E.Output errors.old errors.new result (reason_lines name.now counts.now) }
{
    let missing = (Reason::NoCalendar, Reason::NoDay, Reason::NoYear);
    let signs = (Reason::Character, Reason::Minus, Reason::OtherWeekday);
    let others = (Reason::NoSuchYear, Reason::YearLast, Reason::NoDate);
    let are_missing_told = report_three(alloc, errors, name, counts, missing);
    let are_signs_told = report_three(alloc, errors, name, counts, signs);
    let are_others_told = report_three(alloc, errors, name, counts, others);
    are_missing_told && are_signs_told && are_others_told
}

/// Reports the dates of a sheet that were not read, but for names that are not known.
fn report_kept<E: Output>(alloc: Global, errors: &mut E, name: &str, unread: &UnreadDates) -> bool
    ensures { Says E.Output errors.old errors.new result (kept_lines name.now unread.now) }
{
    let short = report_dates(
        alloc,
        errors,
        name,
        unread.short as u64,
        b" date has a short year and is left empty: see --short-years\n",
        b" dates have short years and are left empty: see --short-years\n",
    );
    let reasons = report_reasons(alloc, errors, name, &unread.reasons);
    short && reasons
}

/// Reports what is known of a sheet beside the list of its names.
fn report_listed<E: Output>(
    alloc: Global,
    errors: &mut E,
    name: &str,
    job: &Job<'_>,
    listed: &ListedSheet,
) -> bool
    ensures { Says E.Output errors.old errors.new result (lines_on (task_of job.now) name.now (Listed listed.now)) }
{
    let more = report_dates(
        alloc,
        errors,
        name,
        listed.more,
        b" date has a name that is not among the first 1000, which are listed\n",
        b" dates have names that are not among the first 1000, which are listed\n",
    );
    let kept = report_kept(alloc, errors, name, &listed.unread);
    more && kept
}

/// Reports what is known of a whole sheet, where a summary is asked for.
fn report_summary<E: Output>(
    alloc: Global,
    errors: &mut E,
    name: &str,
    job: &Job<'_>,
    whole: &WholeSheet,
) -> bool
    ensures { Says E.Output errors.old errors.new result
        (if job.now.summary then summary_line (task_of job.now) name.now whole.now else []) }
{
    if !job.summary {
        return true;
    }
    send_line(errors, line_of_summary(alloc, name, job, whole))
}

/// Reports of a whole sheet how many dates were not read, and why, where there are such, and, where a summary is asked for,
/// its records, and how many dates were refused or are empty. Says whether there was memory for all lines.
fn report_whole<E: Output>(
    alloc: Global,
    errors: &mut E,
    name: &str,
    job: &Job<'_>,
    whole: &WholeSheet,
) -> bool
    ensures { Says E.Output errors.old errors.new result (lines_on (task_of job.now) name.now (Whole whole.now)) }
{
    let stopped = report_dates(
        alloc,
        errors,
        name,
        whole.unread.stopped as u64,
        b" date has a name that is not known: --unknown lists it\n",
        b" dates have names that are not known: --unknown lists them\n",
    );
    let kept = report_kept(alloc, errors, name, &whole.unread);
    let counted = report_summary(alloc, errors, name, job, whole);
    stopped && kept && counted
}

/// Reports how a sheet has ended: why it broke off, or what is known of a whole one. Says whether there was memory for
/// all lines.
pub fn report_sheet<E: Output>(
    alloc: Global,
    errors: &mut E,
    name: &str,
    job: &Job<'_>,
    done: &SheetDone<'_>,
) -> bool
    ensures { Says E.Output errors.old errors.new result (lines_on (task_of job.now) name.now done.now) }
{
    match done {
        SheetDone::Whole(whole) => report_whole(alloc, errors, name, job, whole),
        SheetDone::Listed(listed) => report_listed(alloc, errors, name, job, listed),
        SheetDone::WholeBut(fault) | SheetDone::Broken(fault) => {
            send_line(errors, line_of_fault(alloc, name, fault))
        }
    }
}

/// Reports of a sheet that not all of its outputs have got their names, if so. Says whether there was memory for the line.
pub fn report_names<E: Output>(alloc: Global, errors: &mut E, name: &str, are_named: bool) -> bool
    ensures { Says E.Output errors.old errors.new result (names_line name.now are_named) }
{
    if are_named {
        return true;
    }
    send_line(errors, line_of_fault(alloc, name, &SheetFault::Unnamed))
}
