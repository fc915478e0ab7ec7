//! Lanes on one thread.

ghost use Rattle.std.specs.Prelude.{◌≡◌};
ghost use Rattle.lane_rings.specs.Lane.{receiver_lane, sender_lane};

use lane_rings::{Closed, Confirmed, Gone, Item, Receiver, Sender, Unconfirmed, lane};
use std::alloc::{AllocError, Global};
use std::rc::Rc;
use std::sync::Wait;
use std::time::{Clock, CpuClock};

// The runtime of a lane: its ends wait and tell the time.
trait Host: Wait + Clock + CpuClock {}

impl<T: Wait + Clock + CpuClock> Host for T {}

// The functions below return whether all is as it is wanted, and promise no more than that a lane stays the same: a
// test that asserted each value itself would be long to prove.

// How a sender leaves its lane.
#[derive(Clone, Copy)]
enum Leave {
    Close(u64),
    Stop,
}

impl Leave {
    ghost use Rattle.std.specs.Prelude.{◌≡◌, Some};
    ghost use Rattle.lane_rings.specs.Lane.{sender_lane, closed_lane, HasConfirmation};

    fn leave<T: Drop>(self, rt: &impl Host, sender: Sender<T>) -> Closed<T>
        ensures { HasConfirmation result → closed_lane result ≡ Some (sender_lane sender) }
    {
        match self {
            Leave::Close(count) => sender.close(rt, count),
            Leave::Stop => sender.stop(rt),
        }
    }
}

impl Leave {
    // The last item of the lane.
    fn last(self) -> Item<u32> {
        match self {
            Leave::Close(count) => Item::End(count),
            Leave::Stop => Item::Stop,
        }
    }

    // The count that the lane is closed with.
    fn count(self) -> Option<u64> {
        match self {
            Leave::Close(count) => Some(count),
            Leave::Stop => None,
        }
    }
}

// Whether the next item is taken, and is this one.
fn takes(receiver: &mut Receiver<u32>, wanted: &Item<u32>) -> bool
    ensures { receiver_lane receiver.new ≡ receiver_lane receiver.old }
{
    match receiver.try_take() {
        Ok(Some(item)) => item == *wanted,
        _ => false,
    }
}

// Whether the lane is confirmed, and ended with this count, or with a stop where there is none.
fn has_ended(confirmed: Result<Confirmed<u32>, Unconfirmed>, count: Option<u64>) -> bool {
    match confirmed {
        Ok(confirmed) => confirmed.ended() == count,
        Err(_) => false,
    }
}

// Whether a lane with one entry lives, on one thread, and ends as its sender leaves it.
fn lives(rt: &impl Host, alloc: Global, leave: Leave) -> Result<bool, AllocError> {
    let (mut sender, mut receiver) = lane(alloc, 1)?;
    let mut lives = sender.send(rt, 7).is_ok();
    lives &= takes(&mut receiver, &Item::Entry(7));
    lives &= receiver.try_take() == Ok(None);
    let closed = leave.leave(rt, sender);
    lives &= takes(&mut receiver, &leave.last());
    Ok(has_ended(receiver.confirm(closed), leave.count()) && lives)
}

// The one test that passes whichever allocation is refused.
#[test]
fn a_lane_is_refused_its_memory_or_lives(rt: HostRuntime) {
    let lived = lives(&rt, rt.alloc(), Leave::Close(1));
    assert!(rt; lived.unwrap_or(true));
}

// Whether a lane is confirmed of which nothing was taken.
fn is_confirmed_unread(rt: &impl Host, alloc: Global) -> bool {
    let Ok((sender, receiver)) = lane::<u32>(alloc, 1) else {
        return false;
    };
    let closed = sender.stop(rt);
    receiver.confirm(closed).is_ok()
}

// Whether a lane is refused of which all but its end was taken.
fn is_refused_without_end(rt: &impl Host, alloc: Global) -> bool {
    let Ok((mut sender, mut receiver)) = lane::<u32>(alloc, 2) else {
        return false;
    };
    let mut goes = sender.send(rt, 7).is_ok();
    let closed = sender.close(rt, 1);
    goes &= takes(&mut receiver, &Item::Entry(7));
    receiver.confirm(closed).is_err() && goes
}

// Whether `take` gives what was sent, and `Gone` behind it.
fn gives_what_was_sent(rt: &impl Host, alloc: Global) -> bool {
    let Ok((mut sender, mut receiver)) = lane::<u32>(alloc, 1) else {
        return false;
    };
    let mut gives = sender.send(rt, 7).is_ok();
    gives &= receiver.take(rt) == Ok(Item::Entry(7));
    gives &= sender.send_copy(rt, &8).is_ok();
    gives &= receiver.take(rt) == Ok(Item::Entry(8));
    let closed = sender.close(rt, 2);
    gives &= receiver.take(rt) == Ok(Item::End(2));
    gives &= receiver.take(rt) == Err(Gone { value: () });
    has_ended(receiver.confirm(closed), Some(2)) && gives
}

// Whether a look finds this item, which is then passed.
fn passes(receiver: &mut Receiver<u32>, wanted: &Item<u32>) -> bool
    ensures { receiver_lane receiver.new ≡ receiver_lane receiver.old }
{
    if receiver.look() != Ok(true) {
        return false;
    }
    match receiver.next() {
        Some(item) => {
            let is_wanted = item == wanted;
            receiver.pass();
            is_wanted
        }
        None => false,
    }
}

// Whether a look finds nothing.
fn sees_nothing(receiver: &mut Receiver<u32>) -> bool
    ensures { receiver_lane receiver.new ≡ receiver_lane receiver.old }
{
    receiver.look() == Ok(false) && receiver.next().is_none()
}

// Whether looks and waits find what is sent and leave it to be passed, and find `Gone` behind it.
fn finds_what_was_sent(rt: &impl Host, alloc: Global) -> bool {
    let Ok((mut sender, mut receiver)) = lane::<u32>(alloc, 2) else {
        return false;
    };
    let mut finds = sees_nothing(&mut receiver);
    finds &= sender.send(rt, 7).is_ok();
    let closed = sender.close(rt, 1);
    finds &= receiver.wait(rt) == Ok(());
    finds &= passes(&mut receiver, &Item::Entry(7));
    finds &= passes(&mut receiver, &Item::End(1));
    finds &= receiver.look() == Err(Gone { value: () });
    finds &= receiver.wait(rt) == Err(Gone { value: () });
    has_ended(receiver.confirm(closed), Some(1)) && finds
}

// Whether a lane is refused whose end was seen and not passed.
fn is_refused_with_seen_end(rt: &impl Host, alloc: Global) -> bool {
    let Ok((sender, mut receiver)) = lane::<u32>(alloc, 1) else {
        return false;
    };
    let closed = sender.close(rt, 0);
    let sees = receiver.look() == Ok(true);
    receiver.confirm(closed).is_err() && sees
}

// Whether a sender sees that its receiver was dropped, and leaves all the same.
fn sees_dropped_receiver(rt: &impl Host, alloc: Global, leave: Leave) -> bool {
    let Ok((mut sender, receiver)) = lane::<u32>(alloc, 2) else {
        return false;
    };
    let mut sees = sender.send(rt, 7).is_ok();
    drop(receiver);
    sees &= sender.send(rt, 8) == Err(Gone { value: 8 });
    sees &= sender.send_copy(rt, &9) == Err(Gone { value: () });
    let _closed = leave.leave(rt, sender);
    sees
}

// Whether a receiver takes what is left in the lane and then sees that its sender was dropped, by each of its calls.
fn sees_dropped_sender(rt: &impl Host, alloc: Global) -> bool {
    let Ok((mut sender, mut receiver)) = lane::<u32>(alloc, 2) else {
        return false;
    };
    let mut sees = sender.send(rt, 7).is_ok();
    drop(sender);
    sees &= takes(&mut receiver, &Item::Entry(7));
    sees &= receiver.try_take() == Err(Gone { value: () });
    sees &= receiver.take(rt) == Err(Gone { value: () });
    sees &= receiver.try_take() == Err(Gone { value: () });
    sees
}

// Which end of a lane goes first, with an item left in it.
#[derive(Clone, Copy)]
enum First {
    Receiver,
    Sender,
    ClosedSender,
    Neither,
}

// Items that a lane is given too: one that is taken, one that is left in it, and one that it refuses where the
// receiver goes first.
#[derive(Drop)]
struct Shared {
    taken: Rc<u32>,
    left: Rc<u32>,
    refused: Rc<u32>,
}

impl Shared {
    fn new(alloc: Global) -> Result<Shared, AllocError> {
        Ok(Shared {
            taken: Rc::new(alloc, 1)?,
            left: Rc::new(alloc, 2)?,
            refused: Rc::new(alloc, 3)?,
        })
    }

    // Whether no lane has any of them.
    fn are_alone(&self) -> bool {
        Rc::strong_count(&self.taken) == 1
            && Rc::strong_count(&self.left) == 1
            && Rc::strong_count(&self.refused) == 1
    }
}

// Lets the ends of a lane go. Whether it refuses what comes too late.
fn leave_ends(
    rt: &impl Host,
    first: First,
    sender: Sender<Rc<u32>>,
    receiver: Receiver<Rc<u32>>,
    refused: Rc<u32>,
) -> bool
    requires { receiver_lane receiver ≡ sender_lane sender }
{
    let mut sender = sender;
    match first {
        First::Receiver => {
            drop(receiver);
            sender.send(rt, refused).is_err()
        }
        First::Sender => {
            drop(sender);
            drop(receiver);
            true
        }
        First::ClosedSender => {
            let closed = sender.close(rt, 2);
            drop(receiver);
            drop(closed);
            true
        }
        First::Neither => receiver.confirm(sender.close(rt, 2)).is_err(),
    }
}

// Whether the items go into a lane, one is taken and one is left, and the ends then go.
fn go_through(
    rt: &impl Host,
    alloc: Global,
    first: First,
    items: &Shared,
) -> Result<bool, AllocError> {
    let taken = items.taken.clone()?;
    let left = items.left.clone()?;
    let refused = items.refused.clone()?;
    let (mut sender, mut receiver) = lane(alloc, 4)?;
    let mut go = sender.send(rt, taken).is_ok();
    go &= sender.send(rt, left).is_ok();
    go &= receiver.try_take().is_ok();
    go &= Rc::strong_count(&items.left) == 2;
    Ok(leave_ends(rt, first, sender, receiver, refused) && go)
}

// Whether items go through a lane, and each drops out of it.
fn are_dropped(rt: &impl Host, alloc: Global, first: First) -> Result<bool, AllocError> {
    let items = Shared::new(alloc)?;
    let go = go_through(rt, alloc, first, &items)?;
    Ok(go && items.are_alone())
}

// Whether all items that are second owners of memory of their own drop out of a lane once, whichever end goes first.
fn each_item_is_dropped_once(rt: &impl Host, alloc: Global) -> bool {
    for first in [
        First::Receiver,
        First::Sender,
        First::ClosedSender,
        First::Neither,
    ] {
        if are_dropped(rt, alloc, first) != Ok(true) {
            return false;
        }
    }
    true
}

// What lanes do, and whether they do it.
fn deeds(rt: &impl Host, alloc: Global) -> [(&'static str, bool); 8] {
    [
        (
            "lives to its confirmation",
            lives(rt, alloc, Leave::Close(1)) == Ok(true),
        ),
        ("lives to a stop", lives(rt, alloc, Leave::Stop) == Ok(true)),
        (
            "is not confirmed with items left",
            !is_confirmed_unread(rt, alloc)
                && is_refused_without_end(rt, alloc)
                && is_refused_with_seen_end(rt, alloc),
        ),
        ("gives what was sent", gives_what_was_sent(rt, alloc)),
        (
            "leaves what a look finds to a pass",
            finds_what_was_sent(rt, alloc),
        ),
        (
            "sees that its receiver was dropped",
            sees_dropped_receiver(rt, alloc, Leave::Close(1))
                && sees_dropped_receiver(rt, alloc, Leave::Stop),
        ),
        (
            "sees that its sender was dropped",
            sees_dropped_sender(rt, alloc),
        ),
        ("drops each item once", each_item_is_dropped_once(rt, alloc)),
    ]
}

#[test]
fn a_lane_lives_from_its_first_item_to_its_confirmation(rt: HostRuntime) {
    for (deed, is_done) in deeds(&rt, rt.alloc()) {
        assert!(rt; is_done, "a lane {deed}");
    }
}
