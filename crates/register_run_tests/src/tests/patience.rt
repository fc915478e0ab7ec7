//! How a thread waits, by clocks that cannot be read, stand still, go back, jump or run.

use lane_rings::{Gone, Patience, Sender, patient_lane};
use std::alloc::Global;
use std::cell::Cell;
use std::io;
use std::io::ErrorKind;
use std::sync::Wait;
use std::time::{Clock, CpuClock, Duration};

// What a clock does each time it is read, in microseconds.
#[derive(Clone, Copy)]
enum Step {
    Fails,
    Forward(u64),
    Back(u64),
}

const HOUR: u64 = 3_600_000_000;

// Clocks by which a thread yields.
static NO_CLOCK: [(&str, Step); 3] = [
    ("cannot be read", Step::Fails),
    ("stands still", Step::Forward(0)),
    ("goes back", Step::Back(1000)),
];

// By readings of the clock that are so far apart each yield is long, and six milliseconds lie between the ends of two.
const BETWEEN_READINGS: u64 = 3000;

// What a step makes of what a clock shows.
fn read(step: Step, shown: &Cell<u64>) -> io::Result<Duration> {
    let now = match step {
        Step::Fails => return Err(io::Error::from(ErrorKind::Unsupported)),
        Step::Forward(micros) => shown.get().wrapping_add(micros),
        Step::Back(micros) => shown.get().wrapping_sub(micros),
    };
    shown.set(now);
    Ok(Duration::from_micros(now))
}

// The clock and that of the process, and how often the clock was slept by, and the longest of these sleeps in
// microseconds.
#[derive(Drop)]
struct StepClock {
    step: Step,
    now: Cell<u64>,
    process: Step,
    used: Cell<u64>,
    sleeps: Cell<u64>,
    longest: Cell<u64>,
}

impl StepClock {
    // The process uses next to nothing: others are at work.
    fn new(step: Step) -> StepClock {
        StepClock::with_process(step, Step::Forward(1))
    }

    fn with_process(step: Step, process: Step) -> StepClock {
        StepClock {
            step,
            now: Cell::new(100 * HOUR),
            process,
            used: Cell::new(100 * HOUR),
            sleeps: Cell::new(0),
            longest: Cell::new(0),
        }
    }

    // By this clock each yield is long.
    fn of_long_yields(process: Step) -> StepClock {
        StepClock::with_process(Step::Forward(BETWEEN_READINGS), process)
    }

    // Rests so often: the sleeps that came of it, and the longest of them.
    fn rest(&self, patience: &mut Patience, rests: u32) -> (u64, u64) {
        self.sleeps.set(0);
        self.longest.set(0);
        for _ in 0..rests {
            patience.rest(self);
        }
        (self.sleeps.get(), self.longest.get())
    }

    // The sleeps of so many waits that rest once each.
    fn rest_anew(&self, patience: &mut Patience, waits: u32) -> (u64, u64) {
        self.sleeps.set(0);
        self.longest.set(0);
        for _ in 0..waits {
            patience.renew();
            patience.rest(self);
        }
        (self.sleeps.get(), self.longest.get())
    }
}

impl Clock for StepClock {
    fn monotonic(&self) -> io::Result<Duration> {
        read(self.step, &self.now)
    }

    fn since_1970(&self) -> io::Result<Duration> {
        self.monotonic()
    }

    fn sleep(&self, duration: Duration) {
        let micros = u64::from(duration.subsec_micros());
        self.sleeps.set(self.sleeps.get().wrapping_add(1));
        self.longest.set(self.longest.get().max(micros));
        self.now.set(self.now.get().wrapping_add(micros));
    }
}

impl CpuClock for StepClock {
    fn thread_cpu_time(&self) -> io::Result<Duration> {
        self.process_cpu_time()
    }

    fn process_cpu_time(&self) -> io::Result<Duration> {
        read(self.process, &self.used)
    }
}

// Whether a thread never sleeps by such a clock, in one wait and in many, and yields that are all long never lead to a
// nap by such a clock of the process.
fn never_sleeps(step: Step) -> bool {
    let mut patience = Patience::for_run(1, 4);
    let clock = StepClock::new(step);
    clock.rest(&mut patience, 1000) == (0, 0)
        && clock.rest_anew(&mut patience, 1000) == (0, 0)
        && never_naps(step)
}

// Whether, by a clock that jumps an hour a reading, the second long yield leads to naps, and a wait that lasted hours
// to a sleep of ten milliseconds.
fn naps_and_sleeps_by_jumps() -> bool {
    let clock = StepClock::new(Step::Forward(HOUR));
    let mut patience = Patience::for_run(1, 4);
    clock.rest_anew(&mut patience, 2) == (0, 0)
        && clock.rest(&mut patience, 256) == (256, 12)
        && clock.rest(&mut patience, 1) == (1, 10_000)
}

// Whether a wait by a clock that runs a millisecond a reading yields three times, and then sleeps an eighth of the six
// milliseconds that it has lasted, and a millisecond at most later on; a new wait yields again.
fn sleeps_longer_in_a_long_wait() -> bool {
    let clock = StepClock::new(Step::Forward(1000));
    let mut patience = Patience::for_run(1, 4);
    clock.rest(&mut patience, 3) == (0, 0)
        && clock.rest(&mut patience, 1) == (1, 750)
        && clock.rest(&mut patience, 10) == (10, 1000)
        && clock.rest_anew(&mut patience, 1) == (0, 0)
}

// What a wait that has lasted so long sleeps, 0 where it yields: an eighth of itself up to a millisecond, and in a
// silence less of itself, up to ten milliseconds.
static SLEEPS: [(u64, u64); 10] = [
    (5000, 0),
    (5008, 626),
    (8000, 1000),
    (100_000, 1000),
    (249_999, 1000),
    (250_000, 976),
    (512_000, 2000),
    (1_024_000, 4000),
    (2_560_000, 10_000),
    (HOUR, 10_000),
];

// The sleep of a wait that has lasted so long.
fn sleep_after(waited: u64) -> u64 {
    let clock = StepClock::new(Step::Forward(0));
    let mut patience = Patience::for_run(1, 4);
    clock.rest(&mut patience, 1);
    clock.now.set(clock.now.get().wrapping_add(waited));
    clock.rest(&mut patience, 1).1
}

// The first wait that does not sleep so.
fn wrong_sleep() -> Option<u64> {
    for (waited, sleep) in &SLEEPS {
        if sleep_after(*waited) != *sleep {
            return Some(*waited);
        }
    }
    None
}

// Whether yields that are all long never lead to a nap by such a clock of the process.
fn never_naps(process: Step) -> bool {
    let mut patience = Patience::for_run(1, 4);
    StepClock::of_long_yields(process).rest_anew(&mut patience, 1000) == (0, 0)
}

// The nap after two long yields of a run with so many sources on so many processors, between which the process had so
// many microseconds, 0 where there is none: one follows a share under seven eighths of six milliseconds of one
// processor or of four, which are 5250 microseconds, and 21,000.
static NAPS: [(usize, usize, u64, u64); 9] = [
    (1, 1, 5249, 12),
    (1, 1, 5250, 0),
    (1, 1, 6000, 0),
    (4, 4, 20_999, 12),
    (4, 4, 21_000, 0),
    (4, 4, 24_000, 0),
    (5, 4, 20_999, 100),
    (5, 4, 21_000, 0),
    (5, 4, 24_000, 0),
];

// The nap after two long yields.
fn nap_after(sources: usize, processors: usize, used: u64) -> u64 {
    let mut patience = Patience::for_run(sources, processors);
    StepClock::of_long_yields(Step::Forward(used))
        .rest_anew(&mut patience, 3)
        .1
}

// The first share that is not followed so.
fn wrong_nap() -> Option<(usize, u64)> {
    for (sources, processors, used, nap) in &NAPS {
        if nap_after(*sources, *processors, *used) != *nap {
            return Some((*sources, *used));
        }
    }
    None
}

// Whether so many naps of a run with so many sources follow the first time, and so many the next time.
fn naps_grow(sources: usize, naps: [u32; 2], nap: u64) -> bool {
    let clock = StepClock::of_long_yields(Step::Forward(1));
    let mut patience = Patience::for_run(sources, 4);
    clock.rest_anew(&mut patience, 2) == (0, 0)
        && clock.rest_anew(&mut patience, naps[0]) == (u64::from(naps[0]), nap)
        && clock.rest_anew(&mut patience, 1) == (0, 0)
        && clock.rest_anew(&mut patience, naps[1]) == (u64::from(naps[1]), nap)
        && clock.rest_anew(&mut patience, 1) == (0, 0)
}

// The nap of a thread.
fn nap_of(patience: Patience) -> u64 {
    let mut patience = patience;
    StepClock::of_long_yields(Step::Forward(1))
        .rest_anew(&mut patience, 3)
        .1
}

// Whether these are the naps of the reader's thread and of those one and two lanes downstream.
fn naps_by_lane(sources: usize, processors: usize, naps: [u64; 3]) -> bool {
    let reader = Patience::for_run(sources, processors);
    let converter = reader.one_lane_downstream();
    let writer = converter.one_lane_downstream();
    [nap_of(reader), nap_of(converter), nap_of(writer)] == naps
}

// The runtime of a lane by a clock at whose first reading the sender leaves the lane.
#[derive(Drop)]
struct LeavingClock<'a, R> {
    rt: &'a R,
    clock: StepClock,
    sender: Cell<Option<Sender<u32>>>,
}

impl<'a, R: Wait> Wait for LeavingClock<'a, R> {}

impl<'a, R> Clock for LeavingClock<'a, R> {
    fn monotonic(&self) -> io::Result<Duration> {
        drop(self.sender.take());
        self.clock.monotonic()
    }

    fn since_1970(&self) -> io::Result<Duration> {
        self.monotonic()
    }

    fn sleep(&self, duration: Duration) {
        self.clock.sleep(duration);
    }
}

impl<'a, R> CpuClock for LeavingClock<'a, R> {
    fn thread_cpu_time(&self) -> io::Result<Duration> {
        self.clock.thread_cpu_time()
    }

    fn process_cpu_time(&self) -> io::Result<Duration> {
        self.clock.process_cpu_time()
    }
}

// Whether a receiver whose last wait was so long that it slept begins the next one anew: it yields before it looks
// again, and finds the sender gone.
fn waits_anew(rt: &impl Wait, alloc: Global) -> bool {
    let clock = StepClock::new(Step::Forward(1000));
    let mut patience = Patience::for_run(1, 4);
    let slept = clock.rest(&mut patience, 4);
    clock.sleeps.set(0);
    let Ok((sender, mut receiver)) = patient_lane(alloc, 1, patience) else {
        return false;
    };
    let clock = LeavingClock {
        rt,
        clock,
        sender: Cell::new(Some(sender)),
    };
    let is_gone = receiver.wait(&clock) == Err(Gone { value: () });
    is_gone && slept == (1, 750) && clock.clock.sleeps.get() == 0
}

// What a thread does that waits, and whether it does it.
fn deeds(rt: &impl Wait, alloc: Global) -> [(&'static str, bool); 8] {
    [
        (
            "naps and sleeps by a clock that jumps",
            naps_and_sleeps_by_jumps(),
        ),
        (
            "yields by a clock of the process that jumps",
            never_naps(Step::Forward(HOUR)),
        ),
        ("sleeps where nothing comes", sleeps_longer_in_a_long_wait()),
        (
            "naps more often beside others that stay, on its own",
            naps_grow(4, [256, 1024], 12),
        ),
        (
            "naps more often beside others that stay, with many",
            naps_grow(5, [64, 256], 100),
        ),
        (
            "naps longer downstream where threads share processors",
            naps_by_lane(1, 2, [12, 17, 22]) && naps_by_lane(5, 2, [100, 115, 130]),
        ),
        (
            "naps no longer downstream on many processors",
            naps_by_lane(1, 4, [12; 3]) && naps_by_lane(5, 4, [100; 3]),
        ),
        ("waits anew each time", waits_anew(rt, alloc)),
    ]
}

#[test]
fn a_thread_waits_by_its_clocks(rt: HostRuntime) {
    for (name, step) in &NO_CLOCK {
        assert!(rt; never_sleeps(*step), "by a clock that {name}");
    }
    for (deed, is_done) in deeds(&rt, rt.alloc()) {
        assert!(rt; is_done, "a thread {deed}");
    }
    let wrong = (wrong_sleep(), wrong_nap());
    assert!(rt; wrong == (None, None), "{wrong:?}");
}
