//! What the arguments ask for.

ghost use Rattle.std.specs.Prelude.{◌≡◌, ◌∷◌, [], IfErr, IfOk, IfSome, OnOk, if◌then◌else◌, length, map, option_map};
ghost use Rattle.std.specs.String.{string_bytes};
ghost use Rattle.clap.specs.Words.{app_of};
ghost use Rattle.programs.specs.Faults.{fault_of_error};
ghost use Rattle.programs.specs.Meanings.{AllPass, FailFirst, wrong};
ghost use Rattle.sheet_arguments.specs.Requests.{command_line, Ask, MeanJust};
ghost use Rattle.sheet_arguments.specs.Requests.{are_misfits as misfits_spec, calendars_wanted};
ghost use Rattle.sheet_arguments.specs.Requests.{calendars_meant as calendars_spec, column_checks, date_checks};
ghost use Rattle.sheet_arguments.specs.Requests.{dates_meant as dates_spec, file_checks, reading_asked};
ghost use Rattle.sheet_arguments.specs.Requests.{is_misfit as misfit_spec, meaning_of};
ghost use Rattle.sheet_arguments.specs.Requests.{spans_asked as spans_spec, task_of, tree_check, value_checks, wanted_by};
ghost use Rattle.sheet_arguments.specs.Requests.{word_checks, is_at_odds as odds_spec};
ghost use Rattle.sheet_arguments.specs.private.Requests.{values_in};

use crate::column_lists::chosen_columns;
use crate::help::ARGUMENTS;
use crate::option_values::{OrderWords, ShortHebrewYears, ShortYears, Skip, other_word};
use crate::three_columns::{ThreeColumns, chosen_three};
use clap::{ArgMatches, Command};
use programs::{
    Delimiter, Request, RequestFault, are_given, check_files, chosen, chosen_word, command_with,
    is_given, read_arguments, value_given, values_given,
};
use sheets::{AskedColumn, MAX_DATES, Spans};
use std::alloc::{AllocError, Global};
use written_dates::{Choice, Order, Short};

/// The name of the program.
pub const NAME: &str = "register-sheet";

/// The version of the program.
pub const VERSION: &str = "1.2.0";

/// Where the calendars of the dates are: one for all columns of dates, or one for each.
#[derive(Drop)]
pub enum CalendarsAsked<'a> {
    /// In these columns; where a field of them is empty, the word says which one.
    Columns(Vec<&'a str>, Option<&'a str>),
    /// One of these words says it for all dates of a column of dates.
    All(Vec<&'a str>),
}

/// What the arguments ask for of each sheet.
#[derive(Drop)]
pub struct Job<'a> {
    /// Whether each file is a family tree, of which the sheet of its dates is converted.
    pub tree: bool,
    /// The columns of dates: one to eight. With `three` the last is that of the dates joined of them.
    pub dates: Vec<&'a str>,
    /// The columns with the years, the months and the days of dates, which are joined before all else.
    pub three: Option<ThreeColumns<'a>>,
    /// Where their calendars are.
    pub calendars: CalendarsAsked<'a>,
    /// The column of ids; without it, an id is the number of the record.
    pub id: Option<&'a str>,
    /// The columns asked for each column of dates, in order.
    pub columns: Vec<AskedColumn>,
    /// What becomes of dates that say no single day.
    pub spans: Spans,
    /// How dates are read.
    pub reading: Choice,
    /// The files of lists of names, in order: the names of each stand before those of the next.
    pub names: Vec<&'a str>,
    /// How many records stand above the names.
    pub skip: u32,
    /// The byte between two fields.
    pub delimiter: u8,
    /// Whether the registers are asked for.
    pub register: bool,
    /// Whether only the names are asked for that are not known.
    pub unknown: bool,
    /// Whether a summary is asked for.
    pub summary: bool,
    /// The files to convert, in order; with none, one sheet from standard input.
    pub files: Vec<&'a str>,
}

/// The command line, as clap reads it: its options and flags, and the files.
///
/// # Errors
///
/// Memory ran out.
pub fn command<'a>(alloc: Global) -> Result<Command<'a>, AllocError>
    ensures { IfOk result (λ c. app_of c ≡ command_line) }
{
    command_with(alloc, NAME, VERSION, &ARGUMENTS)
}

/// How many words these are.
fn count_of(words: &[&str]) -> usize
    ensures { result ≡ length (map (λ w. w.now) words.now) }
{
    words.len()
}

/// Whether so many are neither one nor as many as there are columns of dates.
fn is_misfit(dates: usize, count: usize) -> bool
    ensures { result ≡ misfit_spec dates count }
{
    count != 1 && count != dates
}

/// Whether there are neither columns of calendars nor calendars, or both, or not as many as wanted.
fn are_misfits(dates: usize, columns: usize, calendars: usize) -> bool
    ensures { result ≡ misfits_spec dates columns calendars }
{
    if columns == 0 {
        is_misfit(dates, calendars)
    } else {
        calendars != 0 || is_misfit(dates, columns)
    }
}

/// Finds what is wrong with how many columns of dates there are, and where their calendars are.
///
/// # Errors
///
/// The first thing that is wrong.
fn columns_fit<'a>(
    dates: &[&'a str],
    calendars: &[&'a str],
    all: &[&'a str],
    otherwise: Option<&'a str>,
) -> Result<(), RequestFault<'a>>
    ensures passed { OnOk result (AllPass (column_checks (map (λ w. w.now) dates.now) (map (λ w. w.now) calendars.now)
        (map (λ w. w.now) all.now) (option_map (λ w. w.now) otherwise.entry))) }
    ensures fault { IfErr result (λ error. IfSome (fault_of_error error) (FailFirst
        (column_checks (map (λ w. w.now) dates.now) (map (λ w. w.now) calendars.now) (map (λ w. w.now) all.now)
        (option_map (λ w. w.now) otherwise.entry)))) }
{
    let (count, columns) = (count_of(dates), count_of(calendars));
    if count == 0 {
        Err(RequestFault::Refused("no column of dates: give --date COLUMN", ""))
    } else if count > MAX_DATES {
        Err(RequestFault::Refused("more than 8 columns of dates", ""))
    } else if are_misfits(count, columns, count_of(all)) {
        Err(RequestFault::Refused(
            "give --calendar COLUMN or --all CALENDAR, once or once for each --date",
            "",
        ))
    } else if columns == 0 && otherwise.is_some() {
        Err(RequestFault::Refused("--else is for --calendar", ""))
    } else {
        Ok(())
    }
}

/// Where the calendars of the dates are.
fn chosen_calendars<'a>(
    columns: Vec<&'a str>,
    all: Vec<&'a str>,
    otherwise: Option<&'a str>,
) -> CalendarsAsked<'a>
    ensures { wanted_by result ≡ calendars_wanted (map (λ v. v.now) columns.entry.items)
        (map (λ v. v.now) all.entry.items) (option_map (λ v. v.now) otherwise.entry) }
{
    if columns.is_empty() {
        CalendarsAsked::All(all)
    } else {
        CalendarsAsked::Columns(columns, otherwise)
    }
}

/// The words for the columns of dates, and where their calendars are.
#[derive(Drop)]
struct Columns<'a> {
    dates: Vec<&'a str>,
    calendars: CalendarsAsked<'a>,
}

/// A list of one word.
fn one_word<'a>(alloc: Global, word: &'a str) -> Result<Vec<&'a str>, AllocError>
    ensures { IfOk result (λ words. map (λ w. w.now) words.items ≡ word.now ∷ []) }
{
    let mut words = Vec::new(alloc);
    words.push(word)?;
    Ok(words)
}

/// The words for the columns of dates that are meant: with a tree that of its sheet, and else those that are given, and
/// the column of joined dates.
fn dates_meant<'a>(alloc: Global, matches: &ArgMatches<'a>) -> Result<Vec<&'a str>, AllocError>
    ensures { IfOk result (λ dates. map (λ w. w.now) dates.items ≡ dates_spec (values_in matches.now)) }
{
    if is_given(matches, "tree") {
        return one_word(alloc, "date");
    }
    let mut dates = values_given(alloc, matches, "date")?;
    if let Some(list) = value_given(matches, "three") {
        dates.push(list)?;
    }
    Ok(dates)
}

/// The words for the columns of calendars that are meant.
fn calendars_meant<'a>(alloc: Global, matches: &ArgMatches<'a>) -> Result<Vec<&'a str>, AllocError>
    ensures { IfOk result (λ words. map (λ w. w.now) words.items ≡ calendars_spec (values_in matches.now)) }
{
    if is_given(matches, "tree") {
        one_word(alloc, "calendar")
    } else {
        values_given(alloc, matches, "calendar")
    }
}

/// The words for the columns of dates, and where their calendars are, by what is meant with a tree.
///
/// # Errors
///
/// The faults of [`columns_fit`].
fn columns_meant<'a>(
    alloc: Global,
    matches: &ArgMatches<'a>,
) -> Result<Columns<'a>, RequestFault<'a>>
    ensures dates { IfOk result (λ columns. map (λ w. w.now) columns.dates.items ≡ dates_spec (values_in matches.now)) }
    ensures calendars { IfOk result (λ columns. wanted_by columns.calendars ≡ calendars_wanted
        (calendars_spec (values_in matches.now)) (values_in matches.now).all (values_in matches.now).otherwise) }
    ensures passed { OnOk result (AllPass (date_checks (values_in matches.now))) }
    ensures fault { IfErr result (λ error. IfSome (fault_of_error error)
        (FailFirst (date_checks (values_in matches.now)))) }
{
    let dates = dates_meant(alloc, matches)?;
    let calendars = calendars_meant(alloc, matches)?;
    let all = values_given(alloc, matches, "all")?;
    let otherwise = value_given(matches, "else");
    columns_fit(
        dates.as_slice(),
        calendars.as_slice(),
        all.as_slice(),
        otherwise,
    )?;
    Ok(Columns {
        dates,
        calendars: chosen_calendars(calendars, all, otherwise),
    })
}

/// How a sheet and its dates are read.
#[derive(Clone, Copy)]
pub(crate) struct Reading {
    dates: Choice,
    skip: u32,
    delimiter: u8,
}

/// The order of three numbers where none is given: of a tree the one with the day in front.
fn default_order(tree: bool) -> Order
    ensures { result ≡ (if tree then Order.DayFirst else Order.YearFirst) }
{
    if tree {
        Order::DayFirst
    } else {
        Order::YearFirst
    }
}

/// How a sheet and its dates are read, by the words of the arguments.
///
/// # Errors
///
/// The first word that says nothing.
fn chosen_reading<'a>(matches: &ArgMatches<'a>) -> Result<Reading, RequestFault<'a>>
    ensures passed { OnOk result (AllPass (word_checks (values_in matches.now))) }
    ensures value { IfOk result (λ reading. reading ≡ reading_asked (values_in matches.now)) }
    ensures fault { IfErr result (λ error. IfSome (fault_of_error error)
        (FailFirst (word_checks (values_in matches.now)))) }
{
    let order = chosen::<OrderWords>(matches, "order", "unknown order: ")?;
    let years = chosen::<ShortYears>(matches, "short-years", "bad short years: ")?;
    let hebrew = chosen::<ShortHebrewYears>(
        matches,
        "short-hebrew-years",
        "bad short Hebrew years: ",
    )?;
    let word = other_word(
        value_given(matches, "short-other-years"),
        value_given(matches, "short-years"),
    );
    let other = chosen_word::<ShortYears>("bad short years of other calendars: ", word)?;
    let skip = chosen::<Skip>(matches, "skip", "bad number of records to skip: ")?;
    let delimiter = chosen::<Delimiter>(matches, "delimiter", "unknown delimiter: ")?;
    Ok(Reading {
        dates: Choice {
            order: order.unwrap_or(default_order(is_given(matches, "tree"))),
            short_years: years.unwrap_or(Short::Refuse),
            short_hebrew_years: hebrew.unwrap_or(Short::Refuse),
            short_other_years: other.unwrap_or(Short::Refuse),
            charters: is_given(matches, "charter-years"),
        },
        skip: skip.unwrap_or(0),
        delimiter: delimiter.unwrap_or(Delimiter::Comma).byte(),
    })
}

/// What becomes of dates that say no single day, by the flags for spans and for EDTF.
fn spans_asked(spans: bool, edtf: bool) -> Spans
    ensures { result ≡ spans_spec spans edtf }
{
    match (spans, edtf) {
        (_, true) => Spans::EndsAndEdtf,
        (true, false) => Spans::Ends,
        (false, false) => Spans::Unread,
    }
}

/// Finds what is wrong with the files where registers are asked for, or are not.
///
/// # Errors
///
/// Registers are asked for of no file, or else the faults of the files as [`check_files`] has them.
fn files_fit<'a>(register: bool, files: &[&'a str]) -> Result<(), RequestFault<'a>>
    ensures passed { OnOk result (AllPass (file_checks register (map (λ f. f.now) files.now))) }
    ensures fault { IfErr result (λ error. IfSome (fault_of_error error)
        (FailFirst (file_checks register (map (λ f. f.now) files.now)))) }
{
    if register && count_of(files) == 0 {
        Err(RequestFault::Refused("--register is for files", ""))
    } else {
        Ok(check_files(files)?)
    }
}

/// Whether the columns or the form of a sheet are given beside a tree, which has its own.
fn is_at_odds(matches: &ArgMatches<'_>) -> bool
    ensures { result ≡ odds_spec (values_in matches.now) }
{
    is_given(matches, "tree")
        && (are_given(matches, "date")
            || value_given(matches, "three").is_some()
            || are_given(matches, "calendar")
            || are_given(matches, "all")
            || value_given(matches, "skip").is_some()
            || value_given(matches, "delimiter").is_some())
}

/// Finds that what a tree does not take is given.
fn check_tree<'a>(matches: &ArgMatches<'a>) -> Result<(), RequestFault<'a>>
    ensures passed { OnOk result ((tree_check (values_in matches.now)).passes) }
    ensures fault { IfErr result (λ error. IfSome (fault_of_error error) ((tree_check (values_in matches.now)).fails)) }
{
    if is_at_odds(matches) {
        return Err(RequestFault::Refused(
            "--tree takes no --date, --three, --calendar, --all, --skip and --delimiter",
            "",
        ));
    }
    Ok(())
}

/// The conversion that the values which clap found ask for.
///
/// # Errors
///
/// The first thing that is wrong, in the order of the lines below.
fn job_found<'a>(alloc: Global, matches: &ArgMatches<'a>) -> Result<Job<'a>, RequestFault<'a>>
    ensures passed { OnOk result (AllPass (value_checks (values_in matches.now))) }
    ensures asked { IfOk result (λ job. Ask (values_in matches.now) (task_of job)) }
    ensures fault { IfErr result (λ error. IfSome (fault_of_error error)
        (FailFirst (value_checks (values_in matches.now)))) }
{
    check_tree(matches)?;
    let Columns { dates, calendars } = columns_meant(alloc, matches)?;
    let reading = chosen_reading(matches)?;
    let columns = chosen_columns(alloc, value_given(matches, "to"))?;
    let three = chosen_three(value_given(matches, "three"))?;
    let register = is_given(matches, "register");
    let files = values_given(alloc, matches, "file")?;
    files_fit(register, files.as_slice())?;
    let names = values_given(alloc, matches, "names")?;
    Ok(Job {
        tree: is_given(matches, "tree"),
        dates,
        three,
        calendars,
        id: value_given(matches, "id"),
        columns,
        spans: spans_asked(is_given(matches, "spans"), is_given(matches, "edtf")),
        reading: reading.dates,
        names,
        skip: reading.skip,
        delimiter: reading.delimiter,
        register,
        unknown: is_given(matches, "unknown"),
        summary: is_given(matches, "summary"),
        files,
    })
}

/// What the arguments ask for.
///
/// # Errors
///
/// `Usage` where the arguments are not as they are taken, or else `Refused` for the first thing that is wrong with them;
/// and `OutOfMemory` where memory runs out on the way.
pub fn read_request<'a>(
    alloc: Global,
    arguments: &'a [String],
) -> Result<Request<Job<'a>>, RequestFault<'a>>
    ensures asked { IfOk result (λ request. MeanJust (map string_bytes arguments.entry.now) (meaning_of request)) }
    ensures refused { IfErr result (λ error. IfSome (fault_of_error error)
        (λ fault. MeanJust (map string_bytes arguments.entry.now) (wrong fault))) }
{
    let Ok(command) = command(alloc) else {
        return Err(RequestFault::OutOfMemory);
    };
    match read_arguments(command, arguments)? {
        Request::Help => Ok(Request::Help),
        Request::Version => Ok(Request::Version),
        Request::Convert(matches) => Ok(Request::Convert(job_found(alloc, &matches)?)),
    }
}
