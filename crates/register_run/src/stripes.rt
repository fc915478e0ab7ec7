//! A stripe: a converter with its two lanes, as the writer has it.

ghost use Rattle.std.specs.Prelude.{◌≡◌, ◌<◌, ◌+◌, [], Err, IfErr, IfOk, IfSome, Ok};
ghost use Rattle.lane_rings.specs.Lane.{lane_capacity, receiver_lane, sender_lane, sent, taken};
ghost use Rattle.register_run.specs.private.JoinedThreads.{IsConverting};

use crate::converting::{ConverterResult, convert_entries};
use crate::gates::Gate;
use crate::running::{Host, RunContext};
use lane_rings::{Closed, Item, Receiver, Sender, Unconfirmed, patient_lane};
use register_records::{Cause, Entry, Row, Setup};
use std::alloc::AllocError;
use std::snapshot::Snapshot;
use std::thread::{Promise, PromisedHandle, Threads};

/// The lanes that a converter was started with.
#[derive(Drop)]
pub(crate) struct ConverterLanes {
    pub(crate) entries: Snapshot<Receiver<Entry>>,
    pub(crate) rows: Snapshot<Sender<Row>>,
}

impl Promise<ConverterResult> for ConverterLanes {
    ghost kept_by = { λ p r. IsConverting (receiver_lane p.entries.value) (sender_lane p.rows.value) r };
}

/// What a look into the lane of a stripe found.
#[derive(Clone, Copy)]
pub(crate) enum Look {
    /// Nothing is there now.
    Nothing,
    /// A row is next.
    Row,
    /// The lane ended with an end.
    End,
    /// The lane ended with a stop.
    Stop,
}

/// Why the threads of a source did not start.
#[derive(Clone, Copy)]
pub(crate) enum StartFault {
    /// A list or a lane was refused its memory.
    NoMemory,
    /// A thread did not start.
    NoThread,
}

impl From<AllocError> for StartFault {
    ghost use Rattle.register_run.specs.declared.stripes.StartFault.TheVariants.{NoMemory};

    ghost from_gives = { λ _ fault. fault ≡ NoMemory };

    fn from(_: AllocError) -> StartFault {
        StartFault::NoMemory
    }
}

impl From<StartFault> for Cause {
    ghost use Rattle.register_run.specs.private.Stripes.{start_fault_cause};

    ghost from_gives = { λ fault cause. cause ≡ start_fault_cause fault };

    fn from(fault: StartFault) -> Cause {
        match fault {
            StartFault::NoMemory => Cause::NoMemory,
            StartFault::NoThread => Cause::NoThread,
        }
    }
}

/// The thread that was started.
///
/// # Errors
///
/// `NoThread` where it was not.
pub(crate) fn started<H: Drop, E: Drop>(thread: Result<H, E>) -> Result<H, StartFault>
    ensures ok { IfOk result (λ handle. thread ≡ Ok handle) }
    ensures no_thread { IfErr thread (λ _. result ≡ Err StartFault.NoThread) }
{
    match thread {
        Ok(handle) => Ok(handle),
        Err(_) => Err(StartFault::NoThread),
    }
}

/// Starts the thread of a converter, over the lane that feeds it and the one that it feeds.
///
/// # Errors
///
/// `NoThread` where it does not start. The two ends of the lanes are dropped with it.
fn start_converter<'s, 'e, T: Host, G: Gate + Sync>(
    context: &RunContext<'s, 'e, T, G>,
    entries: Receiver<Entry>,
    rows: Sender<Row>,
) -> Result<PromisedHandle<ConverterResult, ConverterLanes>, StartFault>
    requires none_taken { taken entries ≡ [] }
    requires none_sent { sent rows ≡ [] }
    ensures lanes { IfOk result (λ worker. (worker.promise.entries.value ≡ entries) × (worker.promise.rows.value ≡ rows)) }
{
    let (rt, gate, setup) = (context.rt, context.gate, context.setup);
    let lanes = ConverterLanes {
        entries: Snapshot::of(&entries),
        rows: Snapshot::of(&rows),
    };
    let worker = context.scope.spawn_with(
        lanes,
        move || -> ConverterResult
            requires { (sent rows ≡ []) × (taken entries ≡ []) }
            ensures { IsConverting (receiver_lane entries) (sender_lane rows) result }
        { convert_entries(rt, gate, setup, entries, rows) },
    );
    started(worker)
}

/// A converter, the lane that it feeds and the one that feeds it.
#[derive(Drop)]
pub(crate) struct Stripe {
    worker: PromisedHandle<ConverterResult, ConverterLanes>,
    rows: Receiver<Row>,
    feeding: Snapshot<Sender<Entry>>,
    // What the converter was started by.
    setup: Snapshot<Setup>,
    // How many rows were taken.
    count: u64,
    // Whether items may still come.
    open: bool,
    ghost fed: { sender_lane feeding.value ≡ receiver_lane worker.promise.entries.value },
    ghost paired: { sender_lane worker.promise.rows.value ≡ receiver_lane rows },
    // Each of the two lanes has room for as many items as the setup's ring.
    ghost room: { lane_capacity (sender_lane feeding.value) ≡ setup.value.ring },
    ghost room_for_rows: { lane_capacity (receiver_lane rows) ≡ setup.value.ring },
}

impl Stripe {
    ghost use Rattle.register_run.specs.Stripes.{feeding_lane};
    ghost use Rattle.register_run.specs.private.Stripes.{HasPassedOn, IsRowNext, IsSameStripe, StripeTook};
    ghost use Rattle.register_run.specs.Stripes.{stripe_setup};
    ghost use Rattle.register_run.specs.JoinedThreads.{IsOfLane};
    ghost use Rattle.register_run.specs.private.Popped.{HasLooked, popped_from};

    /// Starts a converter, and gives the sender that feeds it.
    ///
    /// # Errors
    ///
    /// `NoMemory` where a lane is refused its memory, and `NoThread` where the thread does not start.
    pub(crate) fn start<'s, 'e, T: Host, G: Gate + Sync>(
        context: &RunContext<'s, 'e, T, G>,
    ) -> Result<(Sender<Entry>, Stripe), StartFault>
        ensures lane { IfOk result (λ r. feeding_lane r.1 ≡ sender_lane r.0) }
        ensures fresh { IfOk result (λ r. sent r.0 ≡ []) }
        ensures untaken { IfOk result (λ r. taken r.1.rows ≡ []) }
        ensures setup { IfOk result (λ r. stripe_setup r.1 ≡ context.now.setup.now) }
    {
        let setup = context.setup;
        let (sender, entries) = patient_lane::<Entry>(
            context.alloc,
            setup.ring(),
            context.patience,
        )?;
        let downstream = context.patience.one_lane_downstream();
        let (row_sender, rows) = patient_lane::<Row>(context.alloc, setup.ring(), downstream)?;
        let feeding = Snapshot::of(&sender);
        let worker = start_converter(context, entries, row_sender)?;
        let stripe = Stripe {
            worker,
            rows,
            feeding,
            setup: Snapshot::of(setup),
            count: 0,
            open: true,
        };
        Ok((sender, stripe))
    }

    /// Whether items may still come.
    pub(crate) fn is_open(&self) -> bool
        ensures { result ≡ self.now.«open» }
    {
        self.open
    }

    /// Looks for the next item. A row is left where it is until it is passed; an end and a stop are taken. A converter
    /// that is gone counts as one that stopped.
    pub(crate) fn look(&mut self) -> Look
        ensures same { IsSameStripe self.old self.new }
        ensures looked { HasLooked self.old self.new result }
    {
        match self.rows.look() {
            Ok(true) => self.take_found(),
            Ok(false) => Look::Nothing,
            Err(_) => {
                self.open = false;
                Look::Stop
            }
        }
    }

    /// What is next, after a look. An end and a stop are taken.
    #[tactic(auto, using(crate::proofs::CarriedLemmas::same_seen), unfolding(crate::specs::private::Stripes::StripeTook))]
    fn take_found(&mut self) -> Look
        ensures same { IsSameStripe self.old self.new }
        ensures looked { HasLooked self.old self.new result }
    {
        match self.rows.next() {
            None => Look::Nothing,
            Some(Item::Entry(_)) => Look::Row,
            Some(Item::End(_)) => {
                self.rows.pass();
                self.open = false;
                Look::End
            }
            Some(Item::Stop) => {
                self.rows.pass();
                self.open = false;
                Look::Stop
            }
        }
    }

    /// The row that a look found, where it lies.
    #[tactic(auto, using(crate::proofs::CarriedLemmas::seen_next), unfolding(crate::specs::private::Stripes::StripeTook))]
    pub(crate) fn row(&self) -> Option<&Row>
        ensures { IfSome result (λ row. StripeTook self.now row.now) }
    {
        match self.rows.next() {
            Some(Item::Entry(row)) => Some(row),
            _ => None,
        }
    }

    /// Takes the row that a look found.
    #[tactic(auto, using(crate::proofs::CarriedLemmas::passing), unfolding(crate::specs::private::Stripes::StripeTook))]
    pub(crate) fn pass(&mut self)
        requires { IsRowNext self.old }
        ensures same { IsSameStripe self.old self.new }
        ensures still { self.new.«open» ≡ self.old.«open» }
        ensures one { popped_from self.new ≡ popped_from self.old + 1 }
    {
        self.rows.pass();
        self.count = self.count.saturating_add(1);
    }

    /// Joins the thread and confirms both lanes. `closed` is what is left of the sender that fed the converter. Returns
    /// whether the second lane ended with the number of the rows that were taken from it.
    ///
    /// # Errors
    ///
    /// `Unconfirmed` where one of the lanes is not confirmed.
    pub(crate) fn finish(
        self,
        rt: &impl Threads,
        closed: Closed<Entry>,
    ) -> Result<bool, Unconfirmed>
        requires { IsOfLane (feeding_lane self) closed }
        ensures passed { IfOk result (λ ended. HasPassedOn ended self closed) }
    {
        let Stripe {
            worker,
            rows,
            count,
            ..
        } = self;
        let ConverterResult {
            entries,
            closed: rows_closed,
        } = worker.join(rt);
        entries.confirm(closed)?;
        let confirmed = rows.confirm(rows_closed)?;
        Ok(confirmed.ended() == Some(count))
    }

    /// Joins the thread of a converter that was never fed.
    pub(crate) fn call_off(self, rt: &impl Threads) {
        let Stripe { worker, .. } = self;
        drop(worker.join(rt));
    }
}
