//! A lane: a ring from one thread to another that says how it ended, and whether all that was sent was taken.
//!
//! A lane has two lists of items, those sent and those taken, and each call says what it does to them. A sender ends
//! its lane by `close`, with a count, or by `stop`, and is then gone. When its thread has been joined, `confirm`
//! compares the two lists. An end that waits does so as [`Patience`] says. The receiver can also look at the next item
//! where it lies, and take it later.
//!
//! The machine of striped lanes stands in specs/, with no code: a reader gives entries to converters by turns, each over
//! a lane, each converter gives the rows of its entries to a writer over another lane, and the writer takes the rows by
//! the same turns. Lemmas say what holds of it whatever its schedule is. `register_run` runs such lanes over threads.
#![tactic(auto)]

ghost use Rattle.std.specs.Prelude.{◌≡◌, ◌≤◌, [], IfOk};
ghost use Rattle.lane_rings.specs.Lane.{sender_lane, receiver_lane, lane_capacity, sent, taken};

mod item;
mod receiver;
mod sender;
mod wait;

pub use item::{Gone, Item};
pub use receiver::{Confirmed, Receiver, Unconfirmed};
use rtrb::RingBuffer;
pub use sender::{Closed, Sender};
use std::alloc::{AllocError, Global};
pub use wait::Patience;

/// A lane with room for `capacity` items, from 1 to 4096, for a run of one source on one processor. It takes all its
/// memory here.
///
/// # Errors
///
/// Running out of memory alone; there is then no lane.
pub fn lane<T: Drop>(alloc: Global, capacity: usize) -> Result<(Sender<T>, Receiver<T>), AllocError>
    requires { (1 ≤ capacity) × (capacity ≤ 4096) }
    ensures lane { IfOk result (λ ends. receiver_lane ends.1 ≡ sender_lane ends.0) }
    ensures capacity { IfOk result (λ ends. lane_capacity (sender_lane ends.0) ≡ capacity) }
    ensures empty { IfOk result (λ ends. (sent ends.0 ≡ []) × (taken ends.1 ≡ [])) }
{
    patient_lane(alloc, capacity, Patience::for_run(1, 1))
}

/// A lane as [`lane`] makes it, whose sender waits with this patience, and whose receiver with that of a thread one
/// lane downstream.
///
/// # Errors
///
/// As those of [`lane`].
pub fn patient_lane<T: Drop>(
    alloc: Global,
    capacity: usize,
    patience: Patience,
) -> Result<(Sender<T>, Receiver<T>), AllocError>
    requires { (1 ≤ capacity) × (capacity ≤ 4096) }
    ensures lane { IfOk result (λ ends. receiver_lane ends.1 ≡ sender_lane ends.0) }
    ensures capacity { IfOk result (λ ends. lane_capacity (sender_lane ends.0) ≡ capacity) }
    ensures empty { IfOk result (λ ends. (sent ends.0 ≡ []) × (taken ends.1 ≡ [])) }
{
    let (producer, consumer) = RingBuffer::new(alloc, capacity)?;
    Ok((
        Sender { producer, patience },
        Receiver {
            consumer,
            last: None,
            patience: patience.one_lane_downstream(),
        },
    ))
}
