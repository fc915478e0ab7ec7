//! A source that runs, as the thread that writes has it.

ghost use Rattle.std.specs.Prelude.{◌≡◌, ◌≤◌, ◌<◌, ◌+◌, [], ℕ, All, IfErr, IfOk, Some, false, true};
ghost use Rattle.std.specs.Prelude.{length, map, replicate, slice_get, vec_capacity, vec_len};
ghost use Rattle.std.proofs.Props.{props};
ghost use Rattle.lane_rings.specs.Lane.{sender_lane, sent};
ghost use Rattle.register_records.specs.TablesWritten.{has_lost_output, is_headed, made_by, made_for, waiting_of};
ghost use Rattle.register_records.specs.Views.{reading_of};
ghost use Rattle.register_records.specs.declared.row_lines.TheConstants.{LINE_ROOM};
ghost use Rattle.register_records.specs.declared.writing.TheConstants.{MOST_WAITING};
ghost use Rattle.register_run.specs.private.Histories.{Carries};
ghost use Rattle.register_run.specs.JoinedThreads.{AreOfLanes};
ghost use Rattle.register_run.specs.private.JoinedThreads.{HasPassed, HasStarted, IsReading};
ghost use Rattle.register_run.specs.private.Popped.{IsInTurn, popped};
ghost use Rattle.register_run.specs.Stripes.{feeding_lane, stripe_setup};
ghost use Rattle.register_run.specs.private.Stripes.{AnyTook, HavePassedOn, IsReaderOf};
ghost use Rattle.register_run.specs.Worlds.{World};
ghost use Rattle.register_run.specs.private.Written.{Wrote};
ghost use Rattle.lane_rings.specs.Machine.{turn as turn_in};

use crate::ended_sources::{EndedSource, JoinedThreads, conclude, lower};
use crate::gates::Gate;
use crate::reading::{ReaderResult, ReaderTask, Sent, read_source, stopped_after};
use crate::running::{Host, RunContext};
use crate::stripes::{Look, StartFault, Stripe, started};
use crate::turns::turn_behind;
use lane_rings::{Closed, Sender, Unconfirmed};
use register_records::{Cause, Entry, MOST_WAITING, Output, Table};
use std::io::Read;
use std::snapshot::Snapshot;
use std::thread::{PromisedHandle, Threads};

/// How many items are taken at most before a source's lines are written and the next source has its turn.
const MAX_BATCH: u32 = 1024;

/// A reader and its stripes, or why there are none; the table of their source, and the output that takes it.
#[derive(Drop)]
pub(crate) struct RunningSource<R: Read, W: Output> {
    source: Snapshot<R>,
    reader: Result<PromisedHandle<ReaderResult, ReaderTask<R>>, StartFault>,
    stripes: Vec<Stripe>,
    // The stripe that is next.
    turn: usize,
    // A lane ended with a stop.
    stopped: bool,
    table: Table<W>,
    output: W,
    // Whether items may still come.
    open: bool,
    ghost reads: { IfOk reader (λ r.
        IsReaderOf source.value (made_by table) stripes.items r.promise) } by { Prim.hlevel props },
    // Where the threads did not start, there is no stripe.
    ghost unstarted: { IfErr reader (λ _. stripes.items ≡ []) } by { Prim.hlevel props },
    ghost by_turns: { IsInTurn stripes.items turn },
    ghost within: { «open» ≡ true → turn < length stripes.items },
    ghost wrote: { ∥ Wrote W.Output stripes.items table output ∥₁ },
    ghost untouched: { is_headed table ≡ false → has_lost_output table ≡ false → output ≡ made_for table },
    // No more waits than so many bytes and a line.
    ghost bounded: { length (waiting_of table) ≤ MOST_WAITING + LINE_ROOM },
}

impl<R: Read + Drop, W: Output + Drop> RunningSource<R, W> {
    ghost use Rattle.register_run.specs.private.Cases.{case, case_of, ended_case};
    ghost use Rattle.register_run.specs.private.Popped.{AreOpen, IsRowNextAt};

    /// Starts the threads of a source. Where they do not start, the source is dropped and the cause is kept.
    pub(crate) fn start<'s, 'e, T: Host, G: Gate + Sync>(
        context: &RunContext<'s, 'e, T, G>,
        source: R,
        output: W,
    ) -> RunningSource<R, W>
    where
        R: Send + 'e,
        ensures { case_of result ≡ case source output context.now.setup.now }
    {
        let given = Snapshot::of(&source);
        let table = Table::new(context.alloc, &output, context.setup);
        let (reader, stripes) = match start_threads(context, source) {
            Ok((reader, stripes)) => (Ok(reader), stripes),
            Err(fault) => (Err(fault), Vec::new(context.alloc)),
        };
        let open = !stripes.is_empty();
        RunningSource {
            source: given,
            reader,
            stripes,
            turn: 0,
            stopped: false,
            table,
            output,
            open,
        }
    }

    /// Whether items may still come.
    pub(crate) fn is_open(&self) -> bool {
        self.open
    }

    /// Takes the rows that are there now, so many at most, and writes them in one call. Returns whether there was an
    /// item.
    #[tactic(auto, using(crate::proofs::RunningSourceLemmas::wrote_same))]
    pub(crate) fn visit(&mut self) -> bool
        ensures case { case_of self.new ≡ case_of self.old }
        ensures sent { waiting_of self.new.table ≡ [] }
        ensures few { popped self.new.stripes.items ≤ popped self.old.stripes.items + MAX_BATCH }
    {
        let mut moved = false;
        for _ in 0..MAX_BATCH {
            if self.table.pending_len() >= MOST_WAITING || !self.step() {
                break;
            }
            moved = true;
        }
        self.table.send(&mut self.output);
        moved
    }

    /// Looks into the lane that has the turn, and takes one item, where one is there now.
    #[tactic(auto, using(crate::proofs::RunningSourceLemmas::looked_at, crate::proofs::StripeLemmas::same_stripes))]
    fn step(&mut self) -> bool
        requires { length (waiting_of self.old.table) < MOST_WAITING }
        ensures case { case_of self.new ≡ case_of self.old }
        ensures few { popped self.new.stripes.items ≤ popped self.old.stripes.items + 1 }
    {
        if !self.open {
            return false;
        }
        match self.stripes[self.turn].look() {
            Look::Nothing => return false,
            Look::Row => {
                self.add_row();
                self.pass();
            }
            Look::End => self.end_lane(false),
            Look::Stop => self.end_lane(true),
        }
        true
    }

    /// Adds the row that a look found to the table from where it lies in its lane, unless it came after a stop.
    #[tactic(auto, using(crate::proofs::RunningSourceLemmas::wrote_row))]
    fn add_row(&mut self)
        requires within { self.old.turn < length self.old.stripes.items }
        requires room { length (waiting_of self.old.table) < MOST_WAITING }
        ensures case { case_of self.new ≡ case_of self.old }
        ensures stripes { self.new.stripes ≡ self.old.stripes }
        ensures turn { self.new.turn ≡ self.old.turn }
    {
        if self.stopped {
            return;
        }
        if let Some(row) = self.stripes[self.turn].row() {
            self.table.write_heading(&mut self.output);
            self.table.add(row);
        }
    }

    /// Takes the row that a look found, and gives the turn on.
    #[tactic(auto, using(crate::proofs::RunningSourceLemmas::popped_at, crate::proofs::StripeLemmas::same_stripes))]
    fn pass(&mut self)
        requires within { self.old.turn < length self.old.stripes.items }
        requires next { IsRowNextAt self.old.stripes.items self.old.turn }
        ensures case { case_of self.new ≡ case_of self.old }
        ensures one { popped self.new.stripes.items ≡ popped self.old.stripes.items + 1 }
    {
        self.stripes[self.turn].pass();
        self.turn = next_open(&self.stripes, self.turn);
    }

    /// A lane has ended, by a stop or by an end. The turn goes to the next stripe whose lane has not ended; where there
    /// is none, the source has ended, and its table has the heading unless a lane was stopped.
    fn end_lane(&mut self, by_stop: bool)
        requires within { self.old.turn < length self.old.stripes.items }
        requires ended { AreOpen self.old.stripes.items → ⊥ }
        ensures case { case_of self.new ≡ case_of self.old }
        ensures stripes { self.new.stripes ≡ self.old.stripes }
    {
        self.turn = next_open(&self.stripes, self.turn);
        self.stopped = self.stopped || by_stop;
        self.open = any_open(&self.stripes);
        if self.open || self.stopped {
            return;
        }
        self.table.write_heading(&mut self.output);
    }

    /// Writes the lines that wait, joins the threads, confirms all lanes and decides how the source ended.
    pub(crate) fn finish(self, rt: &impl Threads) -> EndedSource<R, W>
        ensures { ended_case result ≡ case_of self }
    {
        let RunningSource {
            source,
            reader,
            stripes,
            mut table,
            mut output,
            ..
        } = self;
        table.send(&mut output);
        let joined = Snapshot::of(&stripes);
        let sent = match reader {
            Ok(reader) => join_threads(rt, reader, stripes),
            Err(fault) => stopped_after(0, Cause::from(fault)),
        };
        let threads = JoinedThreads {
            source,
            stripes: joined,
            sent,
        };
        conclude(table, output, threads)
    }
}

/// Starts the converters of a source and then its reader. What was not started is dropped.
///
/// # Errors
///
/// `NoMemory` where a list or a lane is refused its memory, and `NoThread` where a thread does not start.
fn start_threads<'s, 'e, T: Host, R: Read + Send + Drop + 'e, G: Gate + Sync>(
    context: &RunContext<'s, 'e, T, G>,
    source: R,
) -> Result<(PromisedHandle<ReaderResult, ReaderTask<R>>, Vec<Stripe>), StartFault>
    ensures reads { IfOk result (λ t. IsReaderOf source context.now.setup.now t.1.items t.0.promise) }
    ensures unpopped { IfOk result (λ t. popped t.1.items ≡ 0) }
{
    let (rt, alloc, setup) = (context.rt, context.alloc, context.setup);
    let closed = Vec::with_capacity(alloc, setup.stripes())?;
    let (senders, stripes) = start_stripes(context)?;
    let task = ReaderTask {
        source: Snapshot::of(&source),
        setup: Snapshot::of(setup),
        senders: Snapshot::of(&senders),
    };
    let reader = context.scope.spawn_with(
        task,
        move || -> ReaderResult
            requires { (0 < vec_len senders) × (vec_len senders ≤ vec_capacity closed) × (closed.items ≡ [])
                × All (λ s. sent s ≡ []) senders.items }
            ensures { IsReading (R.remaining source) (reading_of setup.entry.now)
                (map sender_lane senders.items) result }
        { read_source(rt, alloc, source, setup, senders, closed) },
    );
    // Where it did not start, the senders went with its closure, which lets the converters end.
    match started(reader) {
        Ok(reader) => Ok((reader, stripes)),
        Err(fault) => {
            call_off_stripes(rt, stripes);
            Err(fault)
        }
    }
}

/// Starts the converters of a source, and gives the senders that feed them.
///
/// # Errors
///
/// `NoMemory` where a list or a lane is refused its memory, and `NoThread` where a thread does not start.
fn start_stripes<'s, 'e, T: Host, G: Gate + Sync>(
    context: &RunContext<'s, 'e, T, G>,
) -> Result<(Vec<Sender<Entry>>, Vec<Stripe>), StartFault>
    ensures fed { IfOk result (λ r. map feeding_lane r.1.items ≡ map sender_lane r.0.items) }
    ensures count { IfOk result (λ r. (vec_len r.0 ≡ context.now.setup.now.stripes)
        × (vec_len r.1 ≡ context.now.setup.now.stripes)) }
    ensures fresh { IfOk result (λ r. All (λ s. sent s ≡ []) r.0.items) }
    ensures setups { IfOk result (λ r. map stripe_setup r.1.items
        ≡ replicate context.now.setup.now.stripes context.now.setup.now) }
    ensures unpopped { IfOk result (λ r. popped r.1.items ≡ 0) }
{
    let count = context.setup.stripes();
    let mut stripes = Vec::with_capacity(context.alloc, count)?;
    let mut senders = Vec::with_capacity(context.alloc, count)?;
    for _ in 0..count {
        match Stripe::start(context) {
            Ok((sender, stripe)) => {
                senders.push_reserved(sender);
                stripes.push_reserved(stripe);
            }
            Err(fault) => {
                drop(senders);
                call_off_stripes(context.rt, stripes);
                return Err(fault);
            }
        }
    }
    Ok((senders, stripes))
}

/// Joins the threads of a source and confirms all lanes. Returns what the reader has sent, with the lowest of the
/// causes that were met: those of reading, and `Unconfirmed` where a lane is not confirmed, or where the lanes ended
/// otherwise than the reader did.
fn join_threads<R: Read + Drop>(
    rt: &impl Threads,
    reader: PromisedHandle<ReaderResult, ReaderTask<R>>,
    stripes: Vec<Stripe>,
) -> Sent
    requires { IsReaderOf reader.promise.source.value reader.promise.setup.value stripes.items reader.promise }
    ensures passed { HasPassed (R.remaining reader.promise.source.value) (reading_of reader.promise.setup.value) result
        (AnyTook stripes.items) }
    ensures machine { IfOk result.outcome (λ count. ∥ Carries (R.remaining reader.promise.source.value)
        reader.promise.setup.value count stripes.items (AnyTook stripes.items) ∥₁) }
    ensures started { HasStarted result.outcome }
{
    let ReaderResult { closed, sent } = reader.join(rt);
    match join_stripes(rt, stripes, closed) {
        Ok(ended) if ended == sent.outcome.is_ok() => sent,
        _ => stopped_after(sent.count, lower(sent.outcome.err(), Cause::Unconfirmed)),
    }
}

/// Joins the threads of all stripes and confirms all lanes. `closed` is what is left of the senders that fed them.
/// Returns whether each lane ended with the number of the rows that were taken from it.
///
/// # Errors
///
/// `Unconfirmed` where one of the lanes is not confirmed. All threads are joined all the same.
fn join_stripes(
    rt: &impl Threads,
    stripes: Vec<Stripe>,
    closed: Vec<Closed<Entry>>,
) -> Result<bool, Unconfirmed>
    requires { AreOfLanes (map feeding_lane stripes.items) closed.items }
    ensures { IfOk result (λ ended. HavePassedOn ended stripes.items closed.items) }
{
    let mut confirmed = true;
    let mut ended = true;
    let mut rest = closed.into_iter();
    for stripe in stripes {
        let Some(one) = rest.next() else {
            unreachable!()
        };
        match stripe.finish(rt, one) {
            Ok(counted) => ended &= counted,
            Err(_) => confirmed = false,
        }
    }
    if confirmed {
        Ok(ended)
    } else {
        Err(Unconfirmed)
    }
}

/// Whether items may still come from one of these stripes.
fn any_open(stripes: &[Stripe]) -> bool {
    stripes.iter().any(|stripe| stripe.is_open())
}

/// Joins the threads of stripes that were never fed.
fn call_off_stripes(rt: &impl Threads, stripes: Vec<Stripe>) {
    for stripe in stripes {
        stripe.call_off(rt);
    }
}

/// The next stripe after the one at `turn`, going round, whose lane has not ended. Where all have, any. Where the lane
/// of the stripe that is next has not ended, it is the one that has the turn in the machine.
fn next_open(stripes: &[Stripe], turn: usize) -> usize
    requires { turn < length stripes.now }
    ensures below { result < length stripes.now }
    ensures machine { (w : World) (k : ℕ) (stripe : Stripe) → w.converters ≡ length stripes.now → turn ≡ turn_in w k
        → slice_get stripes.now (turn_in w (k + 1)) ≡ Some stripe → stripe.«open» ≡ true → result ≡ turn_in w (k + 1) }
{
    let first = turn_behind(turn, stripes.len());
    if stripes[first].is_open() {
        return first;
    }
    let mut next = first;
    for _ in 1..stripes.len() {
        next = turn_behind(next, stripes.len());
        if stripes[next].is_open() {
            break;
        }
    }
    next
}
