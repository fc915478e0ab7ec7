//! What the program does with its arguments: it prints a page, or converts, and returns how that ended.

ghost use Rattle.std.specs.Prelude.{◌≡◌, ◌≢◌, ◌≤◌, ◌⊎◌, ◌↔◌, ℕ, List, [], ◌∷◌, All, true, false, map, length, vec_len};
ghost use Rattle.std.specs.Io.KnownBytes.{Appends};
ghost use Rattle.std.specs.String.{string_bytes};
ghost use Rattle.register_app.specs.Answers.{AreConverted, AreFilesAnswered, IsConverted, IsInputAnswered};
ghost use Rattle.register_app.specs.Answers.{IsPageAnswered, IsReported};
ghost use Rattle.register_records.specs.Sources.{is_whole_end};
ghost use Rattle.programs.specs.Openings.{AreMade, IsFresh, IsNewlyMade};
ghost use Rattle.register_app.specs.ProgramFaults.{IsFaultOfAsked, fault_status};
ghost use Rattle.register_app.specs.Reports.{lines_from};
ghost use Rattle.register_arguments.specs.Requests.{name};
ghost use Rattle.programs.specs.HelpPages.{page_text};
ghost use Rattle.programs.specs.Pages.{IsPrinted};
ghost use Rattle.programs.specs.FileLists.{most_files};
ghost use Rattle.programs.specs.Meanings.{work};
ghost use Rattle.register_arguments.specs.Requests.{AreWrong, MeanJust, Task, task_of};

use crate::naming::name_tables;
use crate::program_faults::ProgramFault;
use crate::reporting::report_ends;
use programs::{
    COMPLETE, FileStore, INCOMPLETE, NOT_BEGUN, Opened, Page, Request, RequestFault, open_files,
    print_page, report_out_of_memory, report_refusal, version_line,
};
use register_arguments::{Job, MAX_FILES, NAME, VERSION, page_of_help, read_request};
use register_records::Output;
use register_run::{MAX_SOURCES, Ran, Report, Verdict, run};
use std::alloc::Global;
use std::io::Read;
use std::sync::Wait;
use std::thread::{Threads, available_parallelism};
use std::time::{Clock, CpuClock};

/// The exit status, and the outputs as they were left.
#[derive(Drop)]
pub struct Outcome<W> {
    /// The exit status.
    pub status: u8,
    /// Standard output, as it was left.
    pub output: W,
    /// The outputs of the files, as they were left.
    pub outputs: Vec<W>,
    /// How the threads of each source ran, in the order of the sources. Only clauses read it.
    pub ran: Vec<Ran>,
}

// A run takes as many sources as the arguments may name.
const _: () = prove!(MAX_FILES <= MAX_SOURCES);

/// How a job has ended: the status, and the outputs and how the threads ran, each in the order of the sources.
#[derive(Drop)]
struct JobEnd<W> {
    status: u8,
    outputs: Vec<W>,
    ran: Vec<Ran>,
}

/// Does nothing but report why.
fn refuse<W: Output, E: Output>(
    alloc: Global,
    output: W,
    errors: &mut E,
    why: &ProgramFault<'_>,
) -> Outcome<W>
    ensures status { (result.status ≡ 3) ⊎ (result.status ≡ fault_status why.now) }
    ensures reported { (arguments : List (List ℕ)) → IsFaultOfAsked arguments why.now → E.has_failed errors.new ≡ false
        → IsReported arguments result.status (E.contents errors.old) (E.contents errors.new) }
    ensures untouched { result.output ≡ output }
    ensures none { result.outputs.items ≡ [] }
    ensures mark { E.own_mark errors.new ≡ E.own_mark errors.old }
{
    Outcome {
        status: report_refusal(alloc, NAME, errors, why),
        output,
        outputs: Vec::new(alloc),
        ran: Vec::new(alloc),
    }
}

/// Prints a page.
fn answer_page<W: Output, E: Output>(
    alloc: Global,
    page: Page<'_>,
    output: W,
    errors: &mut E,
) -> Outcome<W>
    ensures printed { IsPrinted W.Output E.Output name (page_text page.entry) result.status
        output result.output errors.old errors.new }
    ensures statuses { (result.status ≡ 0) ⊎ (result.status ≡ 1) }
    ensures none { result.outputs.items ≡ [] }
    ensures mark { W.own_mark result.output ≡ W.own_mark output }
    ensures errors_mark { E.own_mark errors.new ≡ E.own_mark errors.old }
{
    let mut output = output;
    Outcome {
        status: print_page(NAME, page, &mut output, errors),
        output,
        outputs: Vec::new(alloc),
        ran: Vec::new(alloc),
    }
}

/// Reports how the sources of a run have ended, and returns the status. There is nothing to report where all are whole
/// and no summary is asked for.
fn report_run<W, E: Output>(errors: &mut E, summary: bool, report: &Report<W>) -> u8
    requires verdict { (report.now.verdict ≡ Verdict.Complete)
        ↔ All (λ e. is_whole_end e ≡ true) report.now.ends.items }
    ensures complete { (result ≡ 0) ↔ (report.now.verdict ≡ Verdict.Complete) }
    ensures lines { E.has_failed errors.new ≡ false
        → Appends (E.contents errors.old) (E.contents errors.new) (lines_from summary 1 report.now.ends.items) }
    ensures quiet { result ≡ 0 → summary ≡ false → errors.new ≡ errors.old }
    ensures statuses { (result ≡ 0) ⊎ (result ≡ 1) }
    ensures mark { E.own_mark errors.new ≡ E.own_mark errors.old }
{
    match report.verdict {
        Verdict::Incomplete => {
            report_ends(errors, summary, report.ends.as_slice());
            INCOMPLETE
        }
        Verdict::Complete => {
            if summary {
                report_ends(errors, summary, report.ends.as_slice());
            }
            COMPLETE
        }
    }
}

/// How many processors the system says that this program may use; one where it does not say.
fn usable_processors(rt: &impl Threads) -> usize
    ensures { 1 ≤ result }
{
    match available_parallelism(rt) {
        Ok(count) => count.get(),
        Err(_) => 1,
    }
}

/// Converts the sources, each to the output with its number, and reports how they have ended. There are no more sources
/// than a run takes, and as many outputs, so that only running out of memory keeps a run from its beginning.
fn run_job<
    T: Threads + Wait + Clock + CpuClock + Sync,
    R: Read + Send + Drop,
    W: Output + Drop,
    E: Output,
>(
    rt: &T,
    alloc: Global,
    sources: Vec<R>,
    outputs: Vec<W>,
    errors: &mut E,
    job: &Job<'_>,
) -> JobEnd<W>
    ensures converted { result.status ≢ 3 → IsConverted R.Read W.Output E.Output
        (task_of job.now) result.status sources.items outputs.items result.outputs.items result.ran.items errors.old
        errors.new }
    ensures untouched { result.status ≡ 3 → result.outputs.items ≡ outputs.items }
    ensures reported { result.status ≡ 3 → E.has_failed errors.new ≡ false → (arguments : List (List ℕ))
        → IsReported arguments result.status (E.contents errors.old) (E.contents errors.new) }
    ensures len { vec_len result.outputs ≡ vec_len outputs }
    ensures statuses { (result.status ≡ 0) ⊎ (result.status ≡ 1) ⊎ (result.status ≡ 3) }
    ensures mark { E.own_mark errors.new ≡ E.own_mark errors.old }
{
    let setup = job.setup(usable_processors(rt));
    match run(rt, alloc, sources, outputs, &setup) {
        Ok(report) => JobEnd {
            status: report_run(errors, job.summary, &report),
            outputs: report.outputs,
            ran: report.ran,
        },
        Err(fault) => {
            report_out_of_memory(NAME, errors);
            JobEnd {
                status: NOT_BEGUN,
                outputs: fault.outputs,
                ran: Vec::new(alloc),
            }
        }
    }
}

/// Converts the text that standard input gives.
fn convert_input<
    T: Threads + Wait + Clock + CpuClock + Sync,
    R: Read + Send + Drop,
    W: Output + Drop,
    E: Output,
>(rt: &T, alloc: Global, input: R, output: W, errors: &mut E, job: &Job<'_>) -> Outcome<W>
    ensures converted { result.status ≢ 3 → IsConverted R.Read W.Output E.Output
        (task_of job.now) result.status (input ∷ []) (output ∷ []) (result.output ∷ []) result.ran.items errors.old
        errors.new }
    ensures untouched { result.status ≡ 3 → result.output ≡ output }
    ensures reported { result.status ≡ 3 → E.has_failed errors.new ≡ false → (arguments : List (List ℕ))
        → IsReported arguments result.status (E.contents errors.old) (E.contents errors.new) }
    ensures none { result.outputs.items ≡ [] }
    ensures statuses { (result.status ≡ 0) ⊎ (result.status ≡ 1) ⊎ (result.status ≡ 3) }
    ensures mark { W.own_mark result.output ≡ W.own_mark output }
    ensures errors_mark { E.own_mark errors.new ≡ E.own_mark errors.old }
{
    let (Ok(mut sources), Ok(mut outputs)) = (
        Vec::with_capacity(alloc, 1),
        Vec::with_capacity(alloc, 1),
    ) else {
        let why = ProgramFault::Arguments(RequestFault::OutOfMemory);
        return refuse(alloc, output, errors, &why);
    };
    sources.push_reserved(input);
    outputs.push_reserved(output);
    let mut end = run_job(rt, alloc, sources, outputs, errors, job);
    let Some(output) = end.outputs.pop() else {
        unreachable!()
    };
    Outcome {
        status: end.status,
        output,
        outputs: end.outputs,
        ran: end.ran,
    }
}

/// Converts files, and gives the tables of a run that began their names.
fn convert_files<
    T: Threads + Wait + Clock + CpuClock + Sync,
    R: Read + Send + Drop,
    W: Output + Drop,
    P: FileStore<R, W>,
    E: Output,
>(rt: &T, alloc: Global, output: W, store: &P, errors: &mut E, job: &Job<'_>) -> Outcome<W>
    requires few { length job.now.files.items ≤ most_files }
    ensures converted { result.status ≢ 3 → AreConverted R.Read W.Output E.Output
        (P.is_opened store.now) (IsNewlyMade W.Output (P.is_made store.now)) (P.is_named store.now)
        (P.are_apart store.now) (task_of job.now) result.status result.outputs.items result.ran.items errors.old
        errors.new }
    ensures untouched { result.output ≡ output }
    ensures unwritten { result.status ≡ 3 → (result.outputs.items ≡ [])
        ⊎ AreMade (IsNewlyMade W.Output (P.is_made store.now)) (task_of job.now).files
        result.outputs.items }
    ensures reported { result.status ≡ 3 → E.has_failed errors.new ≡ false → (arguments : List (List ℕ))
        → MeanJust arguments (work (task_of job.now))
        → IsReported arguments result.status (E.contents errors.old) (E.contents errors.new) }
    ensures statuses { (result.status ≡ 0) ⊎ (result.status ≡ 1) ⊎ (result.status ≡ 3) }
    ensures errors_mark { E.own_mark errors.new ≡ E.own_mark errors.old }
{
    let Opened {
        sources,
        outputs,
        places,
    } = match open_files(alloc, store, job.files.as_slice()) {
        Ok(opened) => opened,
        Err(fault) => return refuse(alloc, output, errors, &ProgramFault::Files(fault)),
    };
    let JobEnd {
        status: ended,
        outputs,
        ran,
    } = run_job(rt, alloc, sources, outputs, errors, job);
    let status = name_tables(alloc, store, errors, places.as_slice(), ended);
    Outcome {
        status,
        output,
        outputs,
        ran,
    }
}

/// Does what the program's arguments ask for: prints a page, or converts the text that `input` gives to `output`, or
/// converts each file named to its own output; reports to `errors` what went wrong; and returns the exit status and the
/// outputs.
///
/// The status is
///
/// - 0 where all texts were converted, refused records included, or a page was printed;
/// - 1 where a conversion broke off, with the line `source N: cause C` for each such source in order, where a table has
///   not got its name, or where the page could not be printed;
/// - 2 where the arguments were refused, with one line of the program's own or the text of clap;
/// - 3 where a file could not be opened or made, a table would go to its own register or to the file of another table,
///   or memory ran out before the run, with one line.
///
/// Where no ring or no number of stripes is written, the run has those that [`register_arguments::fitting`] gives for
/// the processors that the system says it may use.
///
/// Nothing is read where the status is 2 or 3, or where the arguments ask for a page. A fault of `errors` changes
/// neither the status nor the outputs.
pub fn answer<
    T: Threads + Wait + Clock + CpuClock + Sync,
    R: Read + Send + Drop,
    W: Output + Drop,
    P: FileStore<R, W>,
    E: Output,
>(
    rt: &T,
    alloc: Global,
    arguments: &[String],
    input: R,
    output: W,
    store: &P,
    errors: &mut E,
) -> Outcome<W>
    // The bytes of what is written to are known, so that no clause on them is empty; there are none yet, and nothing has
    // failed.
    requires fresh { IsFresh W.Output output }
    requires fresh_errors { IsFresh E.Output errors.old }

    // The arguments ask for a page, which was printed; or for the table of standard input; or for those of files.
    ensures answered { result.status ≤ 1
        → IsPageAnswered W.Output E.Output (map string_bytes arguments.now) result.status
        output result.output result.outputs.items errors.old errors.new
        ⊎ IsInputAnswered R.Read W.Output E.Output (map string_bytes arguments.now) result.status
        input output result.output result.outputs.items result.ran.items errors.old errors.new
        ⊎ AreFilesAnswered R.Read W.Output E.Output (P.is_opened store.now)
        (IsNewlyMade W.Output (P.is_made store.now)) (P.is_named store.now) (P.are_apart store.now)
        (map string_bytes arguments.now) result.status output result.output result.outputs.items result.ran.items
        errors.old errors.new }

    // Unless the status is 3, arguments are refused exactly where something is wrong with them.
    ensures refused { result.status ≢ 3 → (result.status ≡ 2) ↔ AreWrong (map string_bytes arguments.now) }
    // And then standard error has gained the line on that, unless it failed.
    ensures reported { 2 ≤ result.status → E.has_failed errors.new ≡ false
        → IsReported (map string_bytes arguments.now) result.status (E.contents errors.old) (E.contents errors.new) }
    ensures untouched { 2 ≤ result.status → result.output ≡ output }
    ensures none { result.status ≡ 2 → result.outputs.items ≡ [] }

    // With status 3 the outputs are none, or as they were made.
    ensures unwritten { result.status ≡ 3 → (result.outputs.items ≡ [])
        ⊎ ((task : Task) × MeanJust (map string_bytes arguments.now) (work task)
        × AreMade (IsNewlyMade W.Output (P.is_made store.now)) task.files
        result.outputs.items) }
    ensures statuses { result.status ≤ 3 }
    ensures mark { W.own_mark result.output ≡ W.own_mark output }
    ensures errors_mark { E.own_mark errors.new ≡ E.own_mark errors.old }
{
    match read_request(alloc, arguments) {
        Ok(Request::Help) => answer_page(alloc, page_of_help(), output, errors),
        Ok(Request::Version) => {
            let line = version_line(NAME, VERSION);
            answer_page(alloc, Page::Text(line.as_str()), output, errors)
        }
        Ok(Request::Convert(job)) => {
            if job.files.is_empty() {
                convert_input(rt, alloc, input, output, errors, &job)
            } else {
                convert_files(rt, alloc, output, store, errors, &job)
            }
        }
        Err(fault) => refuse(alloc, output, errors, &ProgramFault::Arguments(fault)),
    }
}
