//! The work of the thread that reads a source.

ghost use Rattle.std.specs.Prelude.{◌≡◌, ◌<◌, ◌≤◌, ◌+◌, ◌/◌, ◌%◌, [], All, Err, Ok, map, vec_capacity, vec_len};
ghost use Rattle.std.specs.List.{AllZip};
ghost use Rattle.lane_rings.specs.Lane.{sender_lane, sent};
ghost use Rattle.register_records.specs.Views.{given_of, reading_of, reads_by, text_of};
ghost use Rattle.register_run.specs.private.Carried.{HasEnded};
ghost use Rattle.register_run.specs.private.JoinedThreads.{IsReading, MaySend};

use crate::turns::turn_after;
use lane_rings::{Closed, Sender};
use register_records::{Cause, Entry, EntryReader, Setup};
use std::alloc::Global;
use std::io::Read;
use std::snapshot::Snapshot;
use std::sync::Wait;
use std::thread::Promise;
use std::time::{Clock, CpuClock};

/// How many entries of a source were read, and that number again where they are all, or why no more were read.
#[derive(Clone, Copy)]
pub(crate) struct Sent {
    pub(crate) count: u32,
    pub(crate) outcome: Result<u32, Cause>,
}

/// What a reader hands back: what is left of its ends of the lanes, and what it has sent.
#[derive(Drop)]
pub(crate) struct ReaderResult {
    pub(crate) closed: Vec<Closed<Entry>>,
    pub(crate) sent: Sent,
}

/// What a reader was started with.
#[derive(Drop)]
pub(crate) struct ReaderTask<R> {
    pub(crate) source: Snapshot<R>,
    pub(crate) setup: Snapshot<Setup>,
    pub(crate) senders: Snapshot<Vec<Sender<Entry>>>,
}

impl<R: Read> Promise<ReaderResult> for ReaderTask<R> {
    ghost kept_by = { λ p r. IsReading (R.remaining p.source.value) (reading_of p.setup.value)
        (map sender_lane p.senders.value.items) r };
}

/// Sends the entries of a source to the converters by turns, and ends their lanes.
pub(crate) fn read_source<R: Read + Drop>(
    rt: &(impl Wait + Clock + CpuClock),
    alloc: Global,
    source: R,
    setup: &Setup,
    senders: Vec<Sender<Entry>>,
    closed: Vec<Closed<Entry>>,
) -> ReaderResult
    requires some { 0 < vec_len senders }
    requires room { vec_len senders ≤ vec_capacity closed }
    requires none { closed.items ≡ [] }
    requires fresh { All (λ s. sent s ≡ []) senders.items }
    ensures { IsReading (R.remaining source) (reading_of setup.now) (map sender_lane senders.items) result }
{
    let mut senders = senders;
    let sent = send_entries(rt, alloc, source, setup, &mut senders);
    let closed = close_all(rt, senders, closed, sent.outcome);
    ReaderResult { closed, sent }
}

/// A reader that stopped after so many entries for this cause.
pub(crate) fn stopped_after(count: u32, cause: Cause) -> Sent
    ensures { (result.count ≡ count) × (result.outcome ≡ Err cause) }
{
    Sent {
        count,
        outcome: Err(cause),
    }
}

/// Sends each entry of a source, the first to the first converter, the next to the next one, and so on by turns. It
/// stops for the cause of the fault of reading that was met, and for `Unconfirmed` where a converter is gone.
fn send_entries<R: Read + Drop>(
    rt: &(impl Wait + Clock + CpuClock),
    alloc: Global,
    source: R,
    setup: &Setup,
    senders: &mut Vec<Sender<Entry>>,
) -> Sent
    requires some { 0 < vec_len senders.old }
    requires fresh { All (λ s. sent s ≡ []) senders.old.items }
    ensures { MaySend (R.remaining source) (reading_of setup.now) (map sender_lane senders.old.items) result
        senders.new.items }
{
    match EntryReader::open(alloc, source, setup) {
        Ok(mut entries) => {
            let sent = send_opened(rt, &mut entries, senders);
            drop(entries);
            sent
        }
        Err(fault) => stopped_after(0, Cause::from(fault)),
    }
}

/// Sends each entry of a source of which none was read, as `send_entries` does.
fn send_opened<R: Read + Drop>(
    rt: &(impl Wait + Clock + CpuClock),
    entries: &mut EntryReader<R>,
    senders: &mut Vec<Sender<Entry>>,
) -> Sent
    requires some { 0 < vec_len senders.old }
    requires fresh { All (λ s. sent s ≡ []) senders.old.items }
    requires none_read { given_of entries.old ≡ [] }
    ensures { MaySend (text_of entries.old) (reads_by entries.old) (map sender_lane senders.old.items) result
        senders.new.items }
{
    let mut entry = Entry::blank();
    let mut count = 0;
    for _ in rt.forever() {
        match entries.read_next(&mut entry) {
            Ok(true) => (),
            Ok(false) => {
                return Sent {
                    count,
                    outcome: Ok(count),
                };
            }
            Err(fault) => return stopped_after(count, Cause::from(fault)),
        }
        count = entry.number();
        let turn = turn_after((count - 1) as usize, senders.len());
        let sender = &mut senders[turn];
        if sender.send_copy(rt, &entry).is_err() {
            return stopped_after(count, Cause::Unconfirmed);
        }
    }
    unreachable!()
}

/// Ends each lane: with the number of its entries where the source was read to its end, else with a stop.
fn close_all(
    rt: &(impl Wait + Clock + CpuClock),
    senders: Vec<Sender<Entry>>,
    closed: Vec<Closed<Entry>>,
    outcome: Result<u32, Cause>,
) -> Vec<Closed<Entry>>
    requires some { 0 < vec_len senders }
    requires room { vec_len senders ≤ vec_capacity closed }
    requires none { closed.items ≡ [] }
    ensures { AllZip HasEnded senders.items result.items }
{
    let stripes = senders.len();
    let mut closed = closed;
    let mut turn = 0usize;
    for sender in senders {
        closed.push_reserved(close_one(rt, sender, outcome, turn, stripes));
        turn = turn.saturating_add(1);
    }
    closed
}

/// How many of so many entries go to the converter with this turn, from 0, among so many converters.
fn share_of(count: u32, turn: usize, stripes: usize) -> u64
    requires { 0 < stripes }
    ensures one_more { turn < count % stripes → result ≡ count / stripes + 1 }
    ensures no_more { count % stripes ≤ turn → result ≡ count / stripes }
{
    let count = count as usize;
    let one_more = turn < count % stripes;
    (count / stripes) as u64 + u64::from(one_more)
}

/// Ends the lane to the converter with this turn, among so many: with its share of the entries, or with a stop.
fn close_one(
    rt: &(impl Wait + Clock + CpuClock),
    sender: Sender<Entry>,
    outcome: Result<u32, Cause>,
    turn: usize,
    stripes: usize,
) -> Closed<Entry>
    requires { 0 < stripes }
    ensures { HasEnded sender result }
{
    match outcome {
        Ok(count) => sender.close(rt, share_of(count, turn, stripes)),
        Err(_) => sender.stop(rt),
    }
}
