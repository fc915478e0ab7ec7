//! The work of a thread that converts.

ghost use Rattle.std.specs.Prelude.{◌≡◌, [], false};
ghost use Rattle.lane_rings.specs.Lane.{receiver_lane, sender_lane, sent, taken};
ghost use Rattle.register_run.specs.private.Carried.{AreOfAllTaken, AreOfTaken};
ghost use Rattle.register_run.specs.private.JoinedThreads.{IsConverting};

use crate::gates::Gate;
use lane_rings::{Closed, Item, Receiver, Sender};
use register_records::{Entry, Row, Setup};
use std::sync::Wait;
use std::time::{Clock, CpuClock};

/// What a converter hands back: its end of the lane from the reader, and what is left of its end of the lane to the
/// writer.
#[derive(Drop)]
pub(crate) struct ConverterResult {
    pub(crate) entries: Receiver<Entry>,
    pub(crate) closed: Closed<Row>,
}

/// Sends the row of each entry that it takes, and ends the second lane as the first one ended.
///
/// Each row is made where the one before it lay, since each move would copy it. Where the writer is gone it goes on
/// taking, so that the reader never waits for it, and ends with a stop.
pub(crate) fn convert_entries<T: Wait + Clock + CpuClock, G: Gate>(
    rt: &T,
    gate: &G,
    setup: &Setup,
    entries: Receiver<Entry>,
    rows: Sender<Row>,
) -> ConverterResult
    requires none_sent { sent rows ≡ [] }
    requires none_taken { taken entries ≡ [] }
    ensures { IsConverting (receiver_lane entries) (sender_lane rows) result }
{
    let (mut entries, mut rows) = (entries, rows);
    let gone = send_rows(rt, gate, setup, &mut entries, &mut rows);
    end_rows(rt, entries, rows, gone)
}

/// Sends the row of each entry that it takes, until no entry is next. Returns whether the writer is gone.
fn send_rows<T: Wait + Clock + CpuClock, G: Gate>(
    rt: &T,
    gate: &G,
    setup: &Setup,
    entries: &mut Receiver<Entry>,
    rows: &mut Sender<Row>,
) -> bool
    requires { (sent rows.old ≡ []) × (taken entries.old ≡ []) }
    ensures from { receiver_lane entries.new ≡ receiver_lane entries.old }
    ensures into { sender_lane rows.new ≡ sender_lane rows.old }
    ensures rows { AreOfTaken (taken entries.new) (sent rows.new) }
    ensures all { result ≡ false → AreOfAllTaken (taken entries.new) (sent rows.new) }
{
    let mut row = Row::blank();
    let mut gone = false;
    for _ in rt.forever() {
        if entries.wait(rt).is_err() {
            break;
        }
        let Some(Item::Entry(entry)) = entries.next() else {
            break;
        };
        let entry = *entry;
        entries.pass();
        row.renew(&entry, setup);
        if !gone {
            gate.pass(rt, entry.number());
            gone = rows.send_copy(rt, &row).is_err();
        }
    }
    gone
}

/// Takes what is next, if anything is, and ends the lane of rows: with the count of an end, and with a stop where there
/// is none or the writer is gone.
fn end_rows(
    rt: &(impl Wait + Clock + CpuClock),
    entries: Receiver<Entry>,
    rows: Sender<Row>,
    gone: bool,
) -> ConverterResult
    requires first { AreOfTaken (taken entries) (sent rows) }
    requires all { gone ≡ false → AreOfAllTaken (taken entries) (sent rows) }
    ensures { IsConverting (receiver_lane entries) (sender_lane rows) result }
{
    let mut entries = entries;
    let closed = match entries.next() {
        Some(Item::End(count)) if !gone => rows.close(rt, *count),
        _ => rows.stop(rt),
    };
    if entries.next().is_some() {
        entries.pass();
    }
    ConverterResult { entries, closed }
}
