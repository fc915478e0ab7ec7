//! The ends of a lane on two threads, where one of them is slow: nothing but a dropped end is reported as gone, and
//! what was sent before the sender was dropped is taken.

use super::Host;
use lane_rings::{Gone, Item, Receiver, Sender, lane};
use std::alloc::Global;
use std::sync::Wait;
use std::sync::atomic::{AtomicBool, AtomicU32, Ordering};
use std::thread;
use std::time::{Clock, CpuClock};

/// How many items are sent: more than a ring holds.
const ITEMS: u32 = 300;

/// How many items are taken before a receiver is dropped.
const FEW: u32 = 20;

/// How often a receiver looks in vain.
const MOST_LOOKS: u32 = 100_000_000;

/// How a receiver gets what is there.
#[derive(Clone, Copy)]
enum Way {
    Look,
    Try,
    Take,
}

/// Lanes between two threads, one after the other.
#[derive(Clone, Copy)]
struct Trial {
    lanes: u32,
    // How many items are sent over each, and how many are taken at most before its receiver is dropped.
    sent: u32,
    taken: u32,
    way: Way,
    // Which end waits between two items.
    slow_sender: bool,
    slow_receiver: bool,
}

impl Trial {
    /// Whether so many items were taken, and the senders have seen so many sent: all of each lane, where its receiver
    /// waits for its end, and else, of one lane, less than all.
    fn is_met(self, taken: u32, sent: u32) -> bool {
        let most = self.sent.saturating_mul(self.lanes);
        if self.sent < self.taken {
            (taken, sent) == (most, most)
        } else {
            taken == self.taken && (taken..most).contains(&sent)
        }
    }
}

/// Gives the processor away for a while.
fn linger(slow: bool) {
    if slow {
        for _ in 0..200 {
            thread::yield_now();
        }
    }
}

/// Sends items from 0 on, drops the sender and adds how many were sent. Where the receiver is gone, this has to come
/// with the item that was sent, and not before the receiver was to be dropped: else nothing is added.
fn send_items(
    rt: &(impl Wait + Clock + CpuClock),
    sender: Sender<u32>,
    trial: Trial,
    dropping: &AtomicBool,
    sent: &AtomicU32,
) {
    let mut sender = sender;
    for item in 0..trial.sent {
        linger(trial.slow_sender);
        if let Err(gone) = sender.send(rt, item) {
            if gone.value == item && dropping.load(Ordering::SeqCst) {
                sent.fetch_add(item, Ordering::SeqCst);
            }
            return;
        }
    }
    sent.fetch_add(trial.sent, Ordering::SeqCst);
}

/// Passes the next item, if a look finds one.
fn pass_next(receiver: &mut Receiver<u32>) -> Result<Option<Item<u32>>, Gone<()>> {
    if !receiver.look()? {
        return Ok(None);
    }
    let Some(Item::Entry(item)) = receiver.next() else {
        return Ok(Some(Item::Stop));
    };
    let item = *item;
    receiver.pass();
    Ok(Some(Item::Entry(item)))
}

/// The next item, and none where the sender is gone or nothing comes.
fn next_of(
    rt: &(impl Wait + Clock + CpuClock),
    receiver: &mut Receiver<u32>,
    way: Way,
) -> Option<Item<u32>> {
    for look in 0..MOST_LOOKS {
        let found = match way {
            Way::Look => pass_next(receiver),
            Way::Try => receiver.try_take(),
            Way::Take => return receiver.take(rt).ok(),
        };
        match found {
            Ok(Some(item)) => return Some(item),
            Ok(None) if look % 1000 == 999 => thread::yield_now(),
            Ok(None) => {}
            Err(_) => return None,
        }
    }
    None
}

/// Takes items and drops the receiver, and says how many came in order before the sender was gone.
fn take_items(
    rt: &(impl Wait + Clock + CpuClock),
    receiver: Receiver<u32>,
    trial: Trial,
    dropping: &AtomicBool,
) -> u32 {
    let mut receiver = receiver;
    for item in 0..trial.taken {
        linger(trial.slow_receiver);
        match next_of(rt, &mut receiver, trial.way) {
            Some(Item::Entry(found)) if found == item => {}
            Some(_) => return 0,
            None => return item,
        }
    }
    linger(trial.slow_receiver);
    dropping.store(true, Ordering::SeqCst);
    drop(receiver);
    trial.taken
}

/// Sends items over each lane that comes.
fn send_over_each(
    rt: &(impl Wait + Clock + CpuClock),
    senders: Receiver<Sender<u32>>,
    trial: Trial,
    dropping: &AtomicBool,
    sent: &AtomicU32,
) {
    let mut senders = senders;
    for _ in 0..trial.lanes {
        let Ok(Item::Entry(sender)) = senders.take(rt) else {
            return;
        };
        send_items(rt, sender, trial, dropping, sent);
    }
}

/// Gives the other thread the sender of a new lane, and says how many items came over it.
fn take_over_lane(
    rt: &(impl Wait + Clock + CpuClock),
    alloc: Global,
    to_sender: &mut Sender<Sender<u32>>,
    trial: Trial,
    dropping: &AtomicBool,
) -> u32 {
    let Ok((sender, receiver)) = lane(alloc, 2) else {
        return 0;
    };
    if to_sender.send(rt, sender).is_err() {
        return 0;
    }
    take_items(rt, receiver, trial, dropping)
}

/// How many items come over all lanes.
fn take_over_each(
    rt: &(impl Wait + Clock + CpuClock),
    alloc: Global,
    to_sender: Sender<Sender<u32>>,
    trial: Trial,
    dropping: &AtomicBool,
) -> u32 {
    let mut to_sender = to_sender;
    let mut taken = 0u32;
    for _ in 0..trial.lanes {
        let came = take_over_lane(rt, alloc, &mut to_sender, trial, dropping);
        taken = taken.saturating_add(came);
    }
    taken
}

/// Whether lanes go as they should.
fn goes(rt: &impl Host, alloc: Global, trial: Trial) -> bool {
    let Ok((to_sender, senders)) = lane(alloc, 1) else {
        return false;
    };
    let (dropping, sent) = (AtomicBool::new(false), AtomicU32::new(0));
    let (to_drop, to_add) = (&dropping, &sent);
    let taken = thread::scope(thread::scope_env(), rt, move |scope| {
        let started = scope.spawn(move || send_over_each(rt, senders, trial, to_drop, to_add));
        if started.is_ok() {
            take_over_each(rt, alloc, to_sender, trial, to_drop)
        } else {
            0
        }
    });
    trial.is_met(taken, sent.load(Ordering::SeqCst))
}

/// How many lanes give an item that is sent just before the sender is dropped, while the receiver waits.
const LANES: u32 = 10_000;

/// A name, the lanes, but one where an end is slow, how many items are sent and are taken at most, and how.
static TRIALS: [(&str, u32, u32, u32, Way); 7] = [
    ("all are seen", 1, ITEMS, ITEMS + 1, Way::Look),
    ("all are tried", 1, ITEMS, ITEMS + 1, Way::Try),
    ("all are taken", 1, ITEMS, ITEMS + 1, Way::Take),
    ("few are taken", 1, ITEMS, FEW, Way::Take),
    // The item may come after a look at the ring, and the sender leave before the look at the sender.
    ("the last is seen", LANES, 1, 2, Way::Look),
    ("the last is tried", LANES, 1, 2, Way::Try),
    ("the last is taken", LANES, 1, 2, Way::Take),
];

#[test]
fn an_end_is_gone_only_when_it_is_dropped(rt: HostRuntime) {
    for (name, lanes, sent, taken, way) in &TRIALS {
        for (slow_sender, slow_receiver) in [(false, false), (true, false), (false, true)] {
            let is_slow = slow_sender || slow_receiver;
            let trial = Trial {
                lanes: if is_slow { 1 } else { *lanes },
                sent: *sent,
                taken: *taken,
                way: *way,
                slow_sender,
                slow_receiver,
            };
            assert!(rt;
                goes(&rt, rt.alloc(), trial),
                "{name}, {slow_sender}, {slow_receiver}"
            );
        }
    }
}
