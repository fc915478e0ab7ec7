//! What the program does with its arguments: it prints a page, or converts, and returns how that ended.

ghost use Rattle.std.specs.Prelude.{◌≡◌, ◌≢◌, ◌≤◌, ◌⊎◌, ◌↔◌, ◌++◌, List, [], Contains, IfErr, IfOk, OnOk, map, false, true};
ghost use Rattle.std.specs.String.{string_bytes};
ghost use Rattle.programs.specs.Openings.{IsFresh};
ghost use Rattle.programs.specs.HelpPages.{page_text};
ghost use Rattle.programs.specs.Pages.{IsPrinted};
ghost use Rattle.sheets.specs.declared.name_lists.NameLine.{NameLine as NameLineValue};
ghost use Rattle.sheet_arguments.specs.Requests.{name, AreWrong, Task as TaskValue, task_of};
ghost use Rattle.sheet_app.specs.Answers.{AreFilesAnswered, AreListsIn, AreNamesOf, IsInputAnswered, IsListIn};
ghost use Rattle.sheet_app.specs.Answers.{IsPageAnswered, IsReported, NameUnknown};
ghost use Rattle.sheet_app.specs.private.Answers.{IsFaultOfStart, IsInputDone, IsPrepared, IsRefusal, IsTaskAnswered};
ghost use Rattle.sheet_app.specs.private.Conversions.{lines_by, task_by};
ghost use Rattle.sheet_app.specs.EndedSheets.{Gives};
ghost use Rattle.sheet_app.specs.private.SheetViews.{IsTask};
ghost use Rattle.sheet_app.specs.ProgramFaults.{IsFaultOfTask};

use crate::calendar_words::check_calendars;
use crate::converting::{EndedSheet, INPUT, are_complete, convert_all, convert_one};
use crate::file_sheets::{FileFault, FileSheet, open_sheets};
use crate::name_lists::push_list;
use crate::prepared::{Conversion, Prepared, RoomySheets};
use crate::program_faults::ProgramFault;
use programs::{
    COMPLETE, FileStore, INCOMPLETE, Page, Request, print_page, report_refusal, version_line,
};
use register_records::Output;
use sheet_arguments::{Job, NAME, VERSION, page_of_help, read_request};
use sheets::{NameList, NameListFault};
use std::alloc::Global;
use std::io::{ErrorKind, Read};

/// The exit status, and the outputs as they were left.
#[derive(Drop)]
pub struct Outcome<'a, W> {
    /// The exit status.
    pub status: u8,
    /// Standard output, as it was left.
    pub output: W,
    /// The sheets of the files, as they have ended.
    pub sheets: Vec<EndedSheet<'a, W>>,
}

/// The standard streams that the program reads and writes.
#[derive(Drop)]
pub struct Streams<R, W> {
    /// Standard input.
    pub input: R,
    /// Standard output.
    pub output: W,
}

/// Does nothing but report why.
fn refuse<'a, W: Output, E: Output>(
    alloc: Global,
    output: W,
    errors: &mut E,
    why: &ProgramFault<'_>,
) -> Outcome<'a, W>
    ensures { IsRefusal E.Output why.now output result errors.old errors.new }
{
    Outcome {
        status: report_refusal(alloc, NAME, errors, why),
        output,
        sheets: Vec::new(alloc),
    }
}

/// Prints a page.
fn answer_page<'a, W: Output, E: Output>(
    alloc: Global,
    page: Page<'_>,
    output: W,
    errors: &mut E,
) -> Outcome<'a, W>
    ensures printed { IsPrinted W.Output E.Output name (page_text page.entry) result.status
        output result.output errors.old errors.new }
    ensures statuses { result.status ≤ 1 }
    ensures none { result.sheets.items ≡ [] }
    ensures mark { W.own_mark result.output ≡ W.own_mark output }
    ensures errors_mark { E.own_mark errors.new ≡ E.own_mark errors.old }
{
    let mut output = output;
    Outcome {
        status: print_page(NAME, page, &mut output, errors),
        output,
        sheets: Vec::new(alloc),
    }
}

/// The fault of a list of names in this file.
fn fault_of_list<'a>(file: &'a str, fault: NameListFault) -> ProgramFault<'a>
    ensures { (task : TaskValue) → Contains task.names file.now → IsFaultOfTask task result }
{
    match fault {
        NameListFault::OutOfMemory => ProgramFault::OutOfMemory,
        _ => ProgramFault::NoList(file, fault),
    }
}

/// Reads the file of a list of names.
fn read_file<'a, R: Read + Drop, W: Output, P: FileStore<R, W>>(
    alloc: Global,
    store: &P,
    file: &'a str,
) -> Result<Vec<u8>, ProgramFault<'a>>
    ensures text { IfOk result (λ text. (source : R) × P.is_opened store.now file.now source × Gives R.Read source text.items) }
    ensures fault { IfErr result (λ why. (task : TaskValue) → Contains task.names file.now → IsFaultOfTask task why) }
{
    let Ok(mut source) = store.open(file) else {
        return Err(ProgramFault::Files(FileFault::CannotOpen(file)));
    };
    let mut text = Vec::new(alloc);
    match source.read_to_end(&mut text) {
        Ok(_) => Ok(text),
        Err(error) if error.kind() == ErrorKind::OutOfMemory => Err(ProgramFault::OutOfMemory),
        Err(_) => Err(ProgramFault::UnreadList(file)),
    }
}

/// Appends the names of the list in this file.
fn push_file<'a, R: Read + Drop, W: Output, P: FileStore<R, W>>(
    alloc: Global,
    store: &P,
    file: &'a str,
    list: &mut NameList,
) -> Result<(), ProgramFault<'a>>
    ensures lines { OnOk result ((lines : List NameLineValue) × IsListIn R.Read (P.is_opened store.now) file.now lines
        × (list.new.lines.items ≡ list.old.lines.items ++ lines)) }
    ensures fault { IfErr result (λ why. (task : TaskValue) → Contains task.names file.now → IsFaultOfTask task why) }
{
    let text = read_file(alloc, store, file)?;
    match push_list(alloc, list, text.as_slice()) {
        Ok(()) => Ok(()),
        Err(fault) => Err(fault_of_list(file, fault)),
    }
}

/// Appends the names of the lists in these files to an empty list.
fn push_files<'a, R: Read + Drop, W: Output, P: FileStore<R, W>>(
    alloc: Global,
    store: &P,
    files: &[&'a str],
    list: &mut NameList,
) -> Result<(), ProgramFault<'a>>
    requires empty { list.old.lines.items ≡ [] }
    ensures lines { OnOk result
        (AreListsIn R.Read (P.is_opened store.now) (map (λ file. file.now) files.now) list.new.lines.items) }
    ensures fault { IfErr result (λ why. (task : TaskValue) → task.names ≡ map (λ file. file.now) files.now
        → IsFaultOfTask task why) }
{
    'files: for &file in files {
        push_file(alloc, store, file, list)?;
    }
    Ok(())
}

/// The names that dates are read by: those of the lists that a job asks for, and behind them the built-in ones.
fn read_list<'a, R: Read + Drop, W: Output, P: FileStore<R, W>>(
    alloc: Global,
    built: &[u8],
    store: &P,
    job: &Job<'a>,
) -> Result<NameList, ProgramFault<'a>>
    ensures lists { IfOk result (λ list.
        AreNamesOf R.Read (P.is_opened store.now) (task_of job.now) built.now list.lines.items) }
    ensures fault { IfErr result (IsFaultOfTask (task_of job.now)) }
{
    let mut list = NameList {
        lines: Vec::new(alloc),
    };
    push_files(alloc, store, job.names.as_slice(), &mut list)?;
    match push_list(alloc, &mut list, built) {
        Ok(()) => Ok(list),
        Err(_) => Err(ProgramFault::OutOfMemory),
    }
}

/// The status of a run of which all sheets are complete, or not.
fn status_of(are_complete: bool) -> u8
    ensures complete { (result ≡ 0) ↔ (are_complete ≡ true) }
    ensures statuses { result ≤ 1 }
{
    if are_complete { COMPLETE } else { INCOMPLETE }
}

/// Reads the lists of names, looks up the calendars that the job names, opens all files, and then makes the outputs.
fn prepare<'a, R: Read + Drop, W: Output + Drop, P: FileStore<R, W>>(
    alloc: Global,
    built: &[u8],
    store: &P,
    job: &Job<'a>,
) -> Result<Prepared<'a, R, W>, ProgramFault<'a>>
    ensures prepared { IfOk result (IsPrepared R.Read W.Output (P.is_opened store.now) (P.is_made store.now)
        (P.are_apart store.now) (task_of job.now) built.now) }
    ensures fault { IfErr result (IsFaultOfStart R.Read (P.is_opened store.now) (task_of job.now) built.now) }
{
    let list = read_list(alloc, built, store, job)?;
    check_calendars(alloc, &list, job)?;
    let sheets = match open_sheets(alloc, store, job) {
        Ok(sheets) => sheets,
        Err(fault) => return Err(ProgramFault::Files(fault)),
    };
    match Vec::with_capacity(alloc, sheets.len()) {
        Ok(room) => Ok(Prepared {
            list,
            files: RoomySheets { sheets, room },
        }),
        Err(_) => Err(ProgramFault::OutOfMemory),
    }
}

/// Converts what standard input gives.
fn run_input<'a, R: Read + Drop, W: Output + Drop, P: FileStore<R, W>, E: Output>(
    alloc: Global,
    by: &Conversion<'_, 'a>,
    streams: Streams<R, W>,
    store: &P,
    errors: &mut E,
) -> Outcome<'a, W>
    ensures { IsInputDone R.Read W.Output E.Output (task_by by.now) (lines_by by.now) streams.input streams.output result
        errors.old errors.new }
{
    let sheet = FileSheet {
        name: INPUT,
        source: streams.input,
        output: streams.output,
        registers: Vec::new(alloc),
        places: Vec::new(alloc),
    };
    let ended = convert_one(alloc, by, sheet, store, errors);
    Outcome {
        status: status_of(ended.is_complete()),
        output: ended.output,
        sheets: Vec::new(alloc),
    }
}

/// Does what a job asks for.
fn run_job<'a, R: Read + Drop, W: Output + Drop, P: FileStore<R, W>, E: Output>(
    alloc: Global,
    built: &[u8],
    job: &Job<'a>,
    streams: Streams<R, W>,
    store: &P,
    errors: &mut E,
) -> Outcome<'a, W>
    requires { IsTask (task_of job.now) }
    ensures { IsTaskAnswered R.Read W.Output E.Output (task_of job.now) (P.is_opened store.now) (P.is_made store.now)
        (P.is_named store.now) (P.are_apart store.now) built.now streams.input streams.output result errors.old
        errors.new }
{
    let Prepared { list, files } = match prepare(alloc, built, store, job) {
        Ok(prepared) => prepared,
        Err(why) => return refuse(alloc, streams.output, errors, &why),
    };
    let by = Conversion { job, list: &list };
    if job.files.is_empty() {
        return run_input(alloc, &by, streams, store, errors);
    }
    let sheets = convert_all(alloc, &by, files, store, errors);
    Outcome {
        status: status_of(are_complete(sheets.as_slice())),
        output: streams.output,
        sheets,
    }
}

/// Does what the program's arguments ask for: prints a page, or converts the sheet that standard input gives to standard
/// output, or converts each file named to its own outputs; reports to `errors` what went wrong; and returns the exit
/// status and the outputs. `built` is the built-in list of names.
///
/// The status is
///
/// - 0 where all sheets were converted, refused dates included, or a page was printed;
/// - 1 where a sheet broke off or an output has not got its name, with a line for each such sheet in order, where there
///   was no memory for a line, or where the page could not be printed;
/// - 2 where the arguments were refused, or name a calendar that no list of names knows, with one line of the program's own
///   or the text of clap;
/// - 3 where a file could not be opened or made, an output would go to an input or to the file of another output, the list
///   of names is none, or memory ran out before the first sheet was read, with one line.
///
/// No sheet is read where the status is 2 or 3, or where the arguments ask for a page. A fault of `errors` changes
/// neither the status nor the outputs.
pub fn answer<'a, R: Read + Drop, W: Output + Drop, P: FileStore<R, W>, E: Output>(
    alloc: Global,
    built: &[u8],
    arguments: &'a [String],
    streams: Streams<R, W>,
    store: &P,
    errors: &mut E,
) -> Outcome<'a, W>
    // The bytes of what is written to are known, so that no clause on them is empty; there are none yet, and nothing has
    // failed.
    requires fresh { IsFresh W.Output streams.output }
    requires fresh_errors { IsFresh E.Output errors.old }

    // The arguments ask for a page, which was printed; or for the sheet of standard input; or for those of files.
    ensures answered { result.status ≤ 1
        → IsPageAnswered W.Output E.Output (map string_bytes arguments.entry.now) result.status
        streams.output result.output result.sheets.items errors.old errors.new
        ⊎ IsInputAnswered R.Read W.Output E.Output (P.is_opened store.now) (map string_bytes arguments.entry.now)
        built.now result.status streams.input streams.output result.output result.sheets.items errors.old errors.new
        ⊎ AreFilesAnswered R.Read W.Output E.Output (P.is_opened store.now) (P.is_made store.now) (P.is_named store.now)
        (P.are_apart store.now) (map string_bytes arguments.entry.now) built.now result.status streams.output
        result.output result.sheets.items errors.old errors.new }

    // Unless the status is 3, arguments with which something is wrong are refused; and only these, or those that name a
    // calendar which no list of names knows.
    ensures refused { result.status ≢ 3 → AreWrong (map string_bytes arguments.entry.now) → result.status ≡ 2 }
    ensures only { result.status ≡ 2 → AreWrong (map string_bytes arguments.entry.now)
        ⊎ NameUnknown R.Read (P.is_opened store.now) (map string_bytes arguments.entry.now) built.now }
    // Where nothing is done, standard error has gained the line on why, unless it failed.
    ensures reported { 2 ≤ result.status → E.has_failed errors.new ≡ false
        → IsReported (map string_bytes arguments.entry.now) result.status (E.contents errors.old) (E.contents errors.new) }
    ensures untouched { 2 ≤ result.status → result.output ≡ streams.output }
    ensures statuses { result.status ≤ 3 }
    ensures errors_mark { E.own_mark errors.new ≡ E.own_mark errors.old }
{
    match read_request(alloc, arguments) {
        Ok(Request::Help) => answer_page(alloc, page_of_help(), streams.output, errors),
        Ok(Request::Version) => {
            let line = version_line(NAME, VERSION);
            answer_page(alloc, Page::Text(line.as_str()), streams.output, errors)
        }
        Ok(Request::Convert(job)) => run_job(alloc, built, &job, streams, store, errors),
        Err(fault) => refuse(
            alloc,
            streams.output,
            errors,
            &ProgramFault::Arguments(fault),
        ),
    }
}
