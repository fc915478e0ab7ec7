//! How a thread waits for another one.

use std::time::{Clock, CpuClock, Duration, Instant};
use std::{hint, thread};

/// How often a thread looks again at once before it begins to yield: on another processor the other thread needs no
/// longer for an item or two.
const LOOKS: u32 = 8;

/// A yield of more microseconds let others go first: while nobody else is at work it takes some microseconds, and
/// beside a busy loop 4000, a tick of the system's clock.
const LONG_YIELD: u64 = 2500;

/// Where this process had less than so many parts of the processors, of [`PARTS_OF_A_SHARE`], others are at work. The
/// threads of a run that is alone make a yield long too, now and then, but only where they fill the processors
/// themselves.
const SHARE_OF_ONE_ALONE: u32 = 7;

/// How many parts make all the processors.
const PARTS_OF_A_SHARE: u32 = 8;

/// How many times as many naps follow each time. Each short yield takes one off. So a single stray long yield costs
/// little, and beside others that stay the thread seldom tries a yield, which costs it a slice of theirs.
const TIMES_AS_MANY: u32 = 4;

/// How many times as many as the first time follow at most.
const TIMES_AT_MOST: u32 = 64;

/// From this many sources on a run has many more threads than a machine has processors.
const MANY_SOURCES: usize = 5;

/// With so many processors the reader, a converter and the thread that writes have one each.
const ONE_FOR_EACH_THREAD: u32 = 3;

/// A wait of more microseconds is one for something outside, as a slow source: the threads of a run answer one another
/// sooner.
const LONG_WAIT: u64 = 5000;

/// Such a wait sleeps this part of the time that it has lasted, and so comes late by no more than this part of itself.
const PART_OF_A_WAIT: u32 = 8;

/// The longest such sleep in microseconds, and so the most by which an item comes late.
const LONGEST_SLEEP: u64 = 1000;

/// A wait of so many microseconds is a silence: what brings a line each tenth of a second has none.
const SILENCE: u64 = 250_000;

/// A silence sleeps this part of itself: at first about [`LONGEST_SLEEP`].
const PART_OF_A_SILENCE: u32 = 256;

/// The longest sleep of a silence in microseconds: with all its threads a run then takes next to no processor time.
const LONGEST_SLEEP_OF_A_SILENCE: u64 = 10_000;

/// Naps of one kind.
#[derive(Clone, Copy, Debug)]
struct Naps {
    // How long one is, in microseconds.
    micros: u64,
    // By how many microseconds one is longer one lane downstream of the reader, where threads share processors. The system
    // ends naps that end near one another together, and the one that is due first runs first: so the threads run in the
    // order of their lanes, and each finds what the one before it has left.
    longer: u64,
    // How many follow where others are at work, the first time.
    fewest: u32,
}

/// Those of a run of few sources. A shorter one often ends before the thread that it waits for has had its turn. The system
/// ends it five microseconds late where the program asked for that, and else fifty; so many take 4 milliseconds.
const SHORT_NAPS: Naps = Naps {
    micros: 12,
    longer: 5,
    fewest: 256,
};

/// Those of a run of many: short naps of so many threads would take the processors from those that have something to do.
const LONG_NAPS: Naps = Naps {
    micros: 100,
    longer: 15,
    fewest: 64,
};

/// What the clocks showed at the end of a long yield.
#[derive(Clone, Copy, Debug)]
struct YieldEnd {
    time: Instant,
    // The processor time that the process had used.
    used: Duration,
}

/// What a thread that waits does between two looks, kept from one wait to the next.
///
/// It looks again at once for a short while, and then yields the processor between looks. Where a yield took long, and
/// this process had less than seven eighths of the processors since the long yield before it, others are at work, who
/// go before a thread that yields, but not before one that wakes: so it naps between its next looks, and then tries a
/// yield again. Where nothing comes for long, it sleeps, for longer the longer it has waited, up to a millisecond, and
/// in a silence up to ten. Each thread goes by its own yields and waits. A clock that cannot be read, or that stands
/// still, shows neither, and the thread yields.
#[derive(Clone, Copy, Debug)]
pub struct Patience {
    processors: u32,
    kind: Naps,
    // The looks of this wait that were followed by the next one at once.
    looks: u32,
    // When this wait came to its first yield.
    since: Option<Instant>,
    // The end of the last long yield.
    last_long: Option<YieldEnd>,
    // The naps that are left, and how many come next time.
    naps: u32,
    next_naps: u32,
}

impl Patience {
    /// For the readers of a run with so many sources, on so many processors.
    pub fn for_run(sources: usize, processors: usize) -> Patience {
        let kind = if sources < MANY_SOURCES {
            SHORT_NAPS
        } else {
            LONG_NAPS
        };
        Patience {
            processors: u32::try_from(processors).unwrap_or(u32::MAX),
            kind,
            looks: 0,
            since: None,
            last_long: None,
            naps: 0,
            next_naps: kind.fewest,
        }
    }

    /// For the thread one lane downstream.
    pub fn one_lane_downstream(self) -> Patience {
        let share = self.processors < ONE_FOR_EACH_THREAD;
        let longer = if share { self.kind.longer } else { 0 };
        let micros = self.kind.micros.saturating_add(longer);
        Patience {
            kind: Naps {
                micros,
                ..self.kind
            },
            ..self
        }
    }

    /// A new wait begins.
    #[inline(always)]
    pub fn renew(&mut self) {
        self.looks = 0;
        self.since = None;
    }

    /// Lets time pass before the next look: at first none, and then as [`rest`](Self::rest) does.
    #[inline(always)]
    pub fn pause(&mut self, clock: &(impl Clock + CpuClock)) {
        if self.looks < LOOKS {
            self.looks += 1;
            hint::spin_loop();
        } else {
            self.rest(clock);
        }
    }

    /// Lets others have the processor before the next look.
    pub fn rest(&mut self, clock: &(impl Clock + CpuClock)) {
        if self.naps > 0 {
            self.naps -= 1;
            thread::sleep(clock, Duration::from_micros(self.kind.micros));
            return;
        }
        let Ok(now) = Instant::now(clock) else {
            thread::yield_now();
            return;
        };
        let waited = now.duration_since(*self.since.get_or_insert(now));
        if waited > Duration::from_micros(LONG_WAIT) {
            thread::sleep(clock, sleep_after(waited));
        } else {
            self.give_way(clock, now);
        }
    }

    /// Yields, and goes by how long that took.
    fn give_way(&mut self, clock: &(impl Clock + CpuClock), begun: Instant) {
        thread::yield_now();
        let Ok(now) = Instant::now(clock) else {
            return;
        };
        if now.duration_since(begun) <= Duration::from_micros(LONG_YIELD) {
            self.next_naps = self.next_naps.saturating_sub(1).max(self.kind.fewest);
        } else if self.are_others_at_work(clock, now) {
            let most = self.kind.fewest.saturating_mul(TIMES_AT_MOST);
            self.naps = self.next_naps;
            self.next_naps = self.next_naps.saturating_mul(TIMES_AS_MANY).min(most);
        }
    }

    /// At the end of a long yield: whether others had the processors since the one before it.
    fn are_others_at_work(&mut self, clock: &impl CpuClock, now: Instant) -> bool {
        let Ok(used) = clock.process_cpu_time() else {
            return false;
        };
        let Some(last) = self.last_long.replace(YieldEnd { time: now, used }) else {
            return false;
        };
        let own = used.saturating_sub(last.used);
        let all = now
            .duration_since(last.time)
            .saturating_mul(self.processors);
        !own.is_zero()
            && own.saturating_mul(PARTS_OF_A_SHARE) < all.saturating_mul(SHARE_OF_ONE_ALONE)
    }
}

/// The sleep that follows in a long wait that has lasted so long.
fn sleep_after(waited: Duration) -> Duration {
    if waited < Duration::from_micros(SILENCE) {
        (waited / PART_OF_A_WAIT).min(Duration::from_micros(LONGEST_SLEEP))
    } else {
        (waited / PART_OF_A_SILENCE).min(Duration::from_micros(LONGEST_SLEEP_OF_A_SILENCE))
    }
}
