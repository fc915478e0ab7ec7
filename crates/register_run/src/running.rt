//! The run over a list of sources.

ghost use Rattle.std.specs.Prelude.{◌≡◌, ◌≤◌, ◌↔◌, [], All, IfErr, IfOk, map, true};
ghost use Rattle.std.specs.Prelude.{vec_capacity, vec_len};
ghost use Rattle.register_records.specs.Sources.{is_whole_end};
ghost use Rattle.register_run.specs.private.Cases.{case_of, cases, end_of, ended_case, output_of, ran_of};
ghost use Rattle.register_run.specs.Reports.{HandsBack, IsReport, IsReportOfMachine, IsReportOfThreads};
ghost use Rattle.register_run.specs.Reports.{RefusesOutputs, RefusesSources};

use crate::ended_sources::EndedSource;
use crate::gates::{Gate, Open};
use crate::reports::{Ran, Report, RunFault, RunFaultKind, Verdict};
use crate::running_sources::RunningSource;
use lane_rings::Patience;
use register_records::{Output, Setup, SourceEnd};
use std::alloc::{AllocError, Global};
use std::io::Read;
use std::num::NonZeroUsize;
use std::sync::Wait;
use std::thread;
use std::thread::{Scope, Threads};
use std::time::{Clock, CpuClock};

/// The most sources of a run.
pub const MAX_SOURCES: usize = 32;

/// The runtime of a run: it starts threads, waits and reads the clock, in each of them.
pub(crate) trait Host: Threads + Wait + Clock + CpuClock + Sync {}

impl<T: Threads + Wait + Clock + CpuClock + Sync> Host for T {}

/// What all threads of a run are started with. `patience` is that of a reader.
#[derive(Drop)]
pub(crate) struct RunContext<'s, 'e, T, G> {
    pub(crate) scope: &'s Scope<'s, &'e ()>,
    pub(crate) rt: &'e T,
    pub(crate) gate: &'e G,
    pub(crate) alloc: Global,
    pub(crate) patience: Patience,
    pub(crate) setup: &'e Setup,
}

/// The patience of the readers of a run with so many sources. Where the system does not say how many processors there
/// are, it is that for one processor, of which a run that is alone has its share on any machine.
fn patience_for(rt: &impl Threads, sources: usize) -> Patience {
    let processors = thread::available_parallelism(rt).map_or(1, NonZeroUsize::get);
    Patience::for_run(sources, processors)
}

/// Starts the threads of each source.
fn start_all<'s, 'e, T: Host, R: Read + Send + Drop + 'e, W: Output + Drop, G: Gate + Sync>(
    context: &RunContext<'s, 'e, T, G>,
    sources: Vec<R>,
    outputs: Vec<W>,
    running_sources: Vec<RunningSource<R, W>>,
) -> Vec<RunningSource<R, W>>
    requires same { vec_len sources ≡ vec_len outputs }
    requires room { vec_len sources ≤ vec_capacity running_sources }
    requires none { running_sources.items ≡ [] }
    ensures len { vec_len result ≡ vec_len sources }
    ensures cases { map case_of result.items ≡ cases context.now.setup.now sources.items outputs.items }
{
    let mut running_sources = running_sources;
    let mut rest = outputs.into_iter();
    for source in sources {
        let Some(output) = rest.next() else {
            unreachable!()
        };
        running_sources.push_reserved(RunningSource::start(context, source, output));
    }
    running_sources
}

/// Visits each source once. Returns whether there was an item at one of them.
#[tactic(auto, using(crate::proofs::StripeLemmas::set_same))]
fn visit_all<R: Read + Drop, W: Output + Drop>(
    running_sources: &mut Vec<RunningSource<R, W>>,
) -> bool
    ensures len { vec_len running_sources.new ≡ vec_len running_sources.old }
    ensures cases { map case_of running_sources.new.items ≡ map case_of running_sources.old.items }
{
    let mut moved = false;
    for i in 0..running_sources.len() {
        let running_source = &mut running_sources[i];
        if running_source.visit() {
            moved = true;
        }
    }
    moved
}

/// Takes from all sources and writes until each has ended. After a round that found nothing it rests.
fn visit_until_ended<R: Read + Drop, W: Output + Drop>(
    rt: &(impl Wait + Clock + CpuClock),
    patience: Patience,
    running_sources: &mut Vec<RunningSource<R, W>>,
)
    ensures len { vec_len running_sources.new ≡ vec_len running_sources.old }
    ensures cases { map case_of running_sources.new.items ≡ map case_of running_sources.old.items }
{
    let mut patience = patience;
    for _ in rt.forever() {
        if !running_sources
            .iter()
            .any(|running_source| running_source.is_open())
        {
            break;
        }
        if visit_all(running_sources) {
            patience.renew();
        } else {
            patience.rest(rt);
        }
    }
}

/// Joins the threads of each source and decides how it ended.
fn finish_all<R: Read + Drop, W: Output + Drop>(
    rt: &impl Threads,
    running_sources: Vec<RunningSource<R, W>>,
    ended_sources: Vec<EndedSource<R, W>>,
) -> Vec<EndedSource<R, W>>
    requires room { vec_len running_sources ≤ vec_capacity ended_sources }
    requires none { ended_sources.items ≡ [] }
    ensures len { vec_len result ≡ vec_len running_sources }
    ensures cases { map ended_case result.items ≡ map case_of running_sources.items }
{
    let mut ended_sources = ended_sources;
    for running_source in running_sources {
        ended_sources.push_reserved(running_source.finish(rt));
    }
    ended_sources
}

/// The outputs and the ends, in the order of the sources.
fn report<R: Read + Drop, W: Output + Drop>(
    ended_sources: Vec<EndedSource<R, W>>,
    outputs: Vec<W>,
    ends: Vec<SourceEnd>,
    ran: Vec<Ran>,
) -> Report<W>
    requires room { (vec_len ended_sources ≤ vec_capacity outputs) × (vec_len ended_sources ≤ vec_capacity ends)
        × (vec_len ended_sources ≤ vec_capacity ran) }
    requires none { (outputs.items ≡ []) × (ends.items ≡ []) × (ran.items ≡ []) }
    ensures outputs { result.outputs.items ≡ map output_of ended_sources.items }
    ensures ends { result.ends.items ≡ map end_of ended_sources.items }
    ensures ran { result.ran.items ≡ map ran_of ended_sources.items }
    ensures verdict { (result.verdict ≡ Verdict.Complete) ↔ All (λ e. is_whole_end e ≡ true) result.ends.items }
{
    let mut outputs = outputs;
    let mut ends = ends;
    let mut ran = ran;
    for one in ended_sources {
        let EndedSource {
            ran: one_ran,
            output,
            end,
            ..
        } = one;
        outputs.push_reserved(output);
        ends.push_reserved(end);
        ran.push_reserved(one_ran);
    }
    let verdict = verdict_of(&ends);
    Report {
        outputs,
        ends,
        verdict,
        ran,
    }
}

/// Complete exactly where every source is whole.
fn verdict_of(ends: &[SourceEnd]) -> Verdict
    ensures { (result ≡ Verdict.Complete) ↔ All (λ e. is_whole_end e ≡ true) ends.now }
{
    if ends.iter().all(|end| end.is_whole()) {
        Verdict::Complete
    } else {
        Verdict::Incomplete
    }
}

/// The lists that a run needs before any start.
#[derive(Drop)]
struct Lists<R: Read, W: Output> {
    count: usize,
    running_sources: Vec<RunningSource<R, W>>,
    ended_sources: Vec<EndedSource<R, W>>,
    outputs: Vec<W>,
    ends: Vec<SourceEnd>,
    ran: Vec<Ran>,
    ghost empty: { (running_sources.items ≡ []) × (ended_sources.items ≡ []) × (outputs.items ≡ []) × (ends.items ≡ [])
        × (ran.items ≡ []) },
    ghost room: { (count ≤ vec_capacity running_sources) × (count ≤ vec_capacity ended_sources)
        × (count ≤ vec_capacity outputs) × (count ≤ vec_capacity ends) × (count ≤ vec_capacity ran) },
}

/// Makes the lists, with room for so many sources.
fn make_lists<R: Read + Drop, W: Output + Drop>(
    alloc: Global,
    count: usize,
) -> Result<Lists<R, W>, AllocError>
    ensures { IfOk result (λ l. l.count ≡ count) }
{
    let running_sources = Vec::with_capacity(alloc, count)?;
    let ended_sources = Vec::with_capacity(alloc, count)?;
    let (outputs, ends, ran) = make_report_lists(alloc, count)?;
    Ok(Lists {
        count,
        running_sources,
        ended_sources,
        outputs,
        ends,
        ran,
    })
}

/// Makes those of the lists that are reported.
fn make_report_lists<W: Drop>(
    alloc: Global,
    count: usize,
) -> Result<(Vec<W>, Vec<SourceEnd>, Vec<Ran>), AllocError>
    ensures empty { IfOk result (λ l. (l.0.items ≡ []) × (l.1.items ≡ []) × (l.2.items ≡ [])) }
    ensures room { IfOk result (λ l. (count ≤ vec_capacity l.0) × (count ≤ vec_capacity l.1)
        × (count ≤ vec_capacity l.2)) }
{
    let outputs = Vec::with_capacity(alloc, count)?;
    let ends = Vec::with_capacity(alloc, count)?;
    let ran = Vec::with_capacity(alloc, count)?;
    Ok((outputs, ends, ran))
}

/// Hands the lists back with a fault.
fn hand_back<R, W>(kind: RunFaultKind, sources: Vec<R>, outputs: Vec<W>) -> RunFault<R, W>
    ensures { (result.kind ≡ kind) × HandsBack sources outputs result }
{
    RunFault {
        kind,
        sources,
        outputs,
    }
}

/// Starts all sources, takes from them and writes until each has ended, joins their threads and reports.
fn run_all<'s, 'e, T: Host, R: Read + Send + Drop + 'e, W: Output + Drop, G: Gate + Sync>(
    context: &RunContext<'s, 'e, T, G>,
    sources: Vec<R>,
    outputs: Vec<W>,
    lists: Lists<R, W>,
) -> Report<W>
    requires { (vec_len sources ≡ lists.count) × (vec_len outputs ≡ lists.count) }
    ensures report { IsReport R.Read W.Output context.now.setup.now sources.items outputs.items result }
    ensures machine { IsReportOfMachine R.Read W.Output context.now.setup.now sources.items outputs.items result }
    ensures threads { IsReportOfThreads context.now.setup.now result }
{
    let mut running_sources = start_all(context, sources, outputs, lists.running_sources);
    // This thread is two lanes downstream of the readers.
    let patience = context.patience.one_lane_downstream().one_lane_downstream();
    visit_until_ended(context.rt, patience, &mut running_sources);
    let ended_sources = finish_all(context.rt, running_sources, lists.ended_sources);
    report(ended_sources, lists.outputs, lists.ends, lists.ran)
}

/// The run, with threads that end before it returns.
fn run_in_scope<T: Host, R: Read + Send + Drop, W: Output + Drop, G: Gate + Sync>(
    rt: &T,
    gate: &G,
    alloc: Global,
    setup: &Setup,
    sources: Vec<R>,
    outputs: Vec<W>,
    lists: Lists<R, W>,
) -> Report<W>
    requires { (vec_len sources ≡ lists.count) × (vec_len outputs ≡ lists.count) }
    ensures report { IsReport R.Read W.Output setup.now sources.items outputs.items result }
    ensures machine { IsReportOfMachine R.Read W.Output setup.now sources.items outputs.items result }
    ensures threads { IsReportOfThreads setup.now result }
{
    let patience = patience_for(rt, sources.len());
    thread::scope(
        thread::scope_env(),
        rt,
        move |scope| -> Report<W>
            requires { (vec_len sources ≡ lists.count) × (vec_len outputs ≡ lists.count) }
            ensures { IsReport R.Read W.Output setup.entry.now sources.items outputs.items result
                × IsReportOfMachine R.Read W.Output setup.entry.now sources.items outputs.items result
                × IsReportOfThreads setup.entry.now result }
        {
            let context = RunContext {
                scope,
                rt,
                gate,
                alloc,
                patience,
                setup,
            };
            run_all(&context, sources, outputs, lists)
        },
    )
}

/// Converts many sources at once: each source is read on a thread of its own and converted on further ones, and this
/// thread writes the table of each source to the output with its number. `setup` says for which targets, with which
/// delimiter, in which form, and with how many converters and how large rings for each source. Before the row of an
/// entry is sent, its converter passes `gate`. What is promised is the same for every gate, and what [`run`] promises.
///
/// A source ends `Whole` where its table was written, and else `Broken` with the lowest of the causes that were met.
/// The faults of one source leave the others alone.
///
/// # Errors
///
/// The first that applies of `TooManySources` with more than 32 sources, `OutputCount` where there are not as many
/// outputs as sources, and `NoMemory` where a list that the run needs is refused its memory. The sources and the
/// outputs are handed back as they were.
pub fn run_gated<
    T: Threads + Wait + Clock + CpuClock + Sync,
    R: Read + Send + Drop,
    W: Output + Drop,
    G: Gate + Sync,
>(
    rt: &T,
    alloc: Global,
    sources: Vec<R>,
    outputs: Vec<W>,
    setup: &Setup,
    gate: &G,
) -> Result<Report<W>, RunFault<R, W>>
    // `run` says of each clause what it means.
    ensures report { IfOk result (IsReport R.Read W.Output setup.now sources.items outputs.items) }
    ensures machine { IfOk result (IsReportOfMachine R.Read W.Output setup.now sources.items outputs.items) }
    ensures threads { IfOk result (IsReportOfThreads setup.now) }
    ensures unchanged { IfErr result (HandsBack sources outputs) }
    ensures too_many_sources { RefusesSources sources result }
    ensures output_count { RefusesOutputs sources outputs result }
{
    let count = sources.len();
    if count > MAX_SOURCES {
        return Err(hand_back(RunFaultKind::TooManySources, sources, outputs));
    }
    if outputs.len() != count {
        return Err(hand_back(RunFaultKind::OutputCount, sources, outputs));
    }
    let Ok(lists) = make_lists(alloc, count) else {
        return Err(hand_back(RunFaultKind::NoMemory, sources, outputs));
    };
    Ok(run_in_scope(rt, gate, alloc, setup, sources, outputs, lists))
}

/// Converts many sources at once, as [`run_gated`] does with the gate [`Open`].
///
/// # Errors
///
/// As those of [`run_gated`].
///
/// # Examples
///
/// ```
/// let setup = Setup::new(&[], 16, b',', 1, Form::Plain)?;
/// let text = b"id,calendar,date\nx,gregorian,1970-01-01\n";
/// let sources = Vec::from_array(rt.alloc(), [text.as_slice()])?;
/// let outputs = Vec::from_array(rt.alloc(), [PlainOutput::new(Vec::new(rt.alloc()), 1)])?;
/// let result = run(&rt, rt.alloc(), sources, outputs, &setup);
/// assert!(rt; result.is_ok_and(|report| report.verdict == Verdict::Complete));
/// ```
pub fn run<T: Threads + Wait + Clock + CpuClock + Sync, R: Read + Send + Drop, W: Output + Drop>(
    rt: &T,
    alloc: Global,
    sources: Vec<R>,
    outputs: Vec<W>,
    setup: &Setup,
) -> Result<Report<W>, RunFault<R, W>>
    // The headline. A source that is whole has its table in its output: the output there has gained exactly the table
    // of the source's text, and nothing else. The run is complete exactly where every source is whole, and every other
    // source is reported with its cause. A field of `IsReport`, `IsWhole` and `IsBroken` says each part of this.
    ensures report { IfOk result (IsReport R.Read W.Output setup.now sources.items outputs.items) }

    // The lanes of a source that is whole carried just what the lanes of the machine of striped lanes carry in some
    // schedule with the entries of its text, for which `laws::every_schedule` says what holds; and its table is that of
    // these entries.
    ensures machine { IfOk result (IsReportOfMachine R.Read W.Output setup.now sources.items outputs.items) }

    // However a source ended, it had as many stripes as the setup says, and both lanes of each had the setup's ring. It
    // had none only where threads did not start, and that is cause 1 or 2; with cause 2 it had none.
    ensures threads { IfOk result (IsReportOfThreads setup.now) }

    // A run that did not begin.
    ensures unchanged { IfErr result (HandsBack sources outputs) }
    ensures too_many_sources { RefusesSources sources result }
    ensures output_count { RefusesOutputs sources outputs result }
{
    run_gated(rt, alloc, sources, outputs, setup, &Open)
}
