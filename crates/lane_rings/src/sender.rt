//! How items are sent through a lane, and how a lane is closed or stopped.

ghost use Rattle.std.specs.Prelude.{◌≡◌, ◌<◌, [], ◌∷◌, ◌++◌, IsTrue, OnErr, OnOk, IfErr, Some};
ghost use Rattle.rtrb.specs.Ring.{known_free};
ghost use Rattle.lane_rings.specs.Lane.{sender_lane, sent, HasConfirmation, closed_lane, all_sent};
ghost use Rattle.lane_rings.specs.declared.item.Item.TheVariants.{Entry, End, Stop};

use crate::item::{Gone, Item};
use crate::wait::Patience;
use rtrb::{Finished, Producer};
use std::sync::Wait;
use std::time::{Clock, CpuClock};

/// The end of a lane that sends. It can move to another thread.
#[derive(Drop)]
pub struct Sender<T> {
    pub(crate) producer: Producer<Item<T>>,
    pub(crate) patience: Patience,
}

/// What is left of the sender of a closed or stopped lane: the ring's confirmation of all that was sent, unless the
/// ring gave none, as where the receiver was dropped before. It can move to the receiver's thread.
#[derive(Drop)]
pub struct Closed<T> {
    pub(crate) finished: Option<Finished<Item<T>>>,
}

impl<T> Sender<T> {
    /// Waits for room and sends an entry.
    ///
    /// While the ring is full it waits as [`Patience`] does. Where the receiver was dropped it returns `Gone` with the
    /// entry, also where the ring has room.
    pub fn send(&mut self, rt: &(impl Wait + Clock + CpuClock), entry: T) -> Result<(), Gone<T>>
        ensures lane { sender_lane self.new ≡ sender_lane self.old }
        ensures ok { OnOk result (sent self.new ≡ sent self.old ++ Entry entry ∷ []) }
        ensures gone { IfErr result (λ g. (g.value ≡ entry) × (sent self.new ≡ sent self.old)) }
    {
        if !self.wait_for_room(rt) {
            return Err(Gone { value: entry });
        }
        self.producer.push_reserved(Item::Entry(entry));
        Ok(())
    }

    /// Waits for a free slot. `false` where the receiver was dropped.
    fn wait_for_room(&mut self, rt: &(impl Wait + Clock + CpuClock)) -> bool
        ensures lane { sender_lane self.new ≡ sender_lane self.old }
        ensures unsent { sent self.new ≡ sent self.old }
        ensures room { IsTrue result → 0 < known_free self.new.producer }
    {
        self.patience.renew();
        for _ in rt.forever() {
            if self.producer.is_abandoned() {
                return false;
            }
            if !self.producer.is_full() {
                return true;
            }
            self.patience.pause(rt);
        }
        unreachable!()
    }
}

impl<T: Copy> Sender<T> {
    /// Waits for room and sends a copy of an entry, which is made once, where it goes to: an entry may be large.
    ///
    /// It waits as `send` does. Where the receiver was dropped it returns `Gone`, also where the ring has room.
    pub fn send_copy(
        &mut self,
        rt: &(impl Wait + Clock + CpuClock),
        entry: &T,
    ) -> Result<(), Gone<()>>
        ensures lane { sender_lane self.new ≡ sender_lane self.old }
        ensures ok { OnOk result (sent self.new ≡ sent self.old ++ Entry entry.now ∷ []) }
        ensures gone { OnErr result (sent self.new ≡ sent self.old) }
    {
        if !self.wait_for_room(rt) {
            return Err(Gone { value: () });
        }
        self.producer.push_reserved(Item::Entry(*entry));
        Ok(())
    }
}

impl<T: Drop> Sender<T> {
    /// Waits for room and ends the lane: `count` goes with the end, and nothing follows it.
    ///
    /// It waits as `send` does. Where the receiver was dropped the `Closed` has no confirmation.
    pub fn close(self, rt: &(impl Wait + Clock + CpuClock), count: u64) -> Closed<T>
        ensures lane { HasConfirmation result → closed_lane result ≡ Some (sender_lane self) }
        ensures sent { HasConfirmation result → all_sent result ≡ sent self ++ End count ∷ [] }
    {
        self.finish(rt, Item::End(count))
    }

    /// Waits for room and ends the lane of a sender that gives up: nothing follows.
    ///
    /// It waits as `send` does. Where the receiver was dropped the `Closed` has no confirmation.
    pub fn stop(self, rt: &(impl Wait + Clock + CpuClock)) -> Closed<T>
        ensures lane { HasConfirmation result → closed_lane result ≡ Some (sender_lane self) }
        ensures sent { HasConfirmation result → all_sent result ≡ sent self ++ Stop ∷ [] }
    {
        self.finish(rt, Item::Stop)
    }

    /// Sends the last item.
    fn finish(self, rt: &(impl Wait + Clock + CpuClock), last: Item<T>) -> Closed<T>
        ensures lane { HasConfirmation result → closed_lane result ≡ Some (sender_lane self) }
        ensures sent { HasConfirmation result → all_sent result ≡ sent self ++ last ∷ [] }
    {
        let mut sender = self;
        if !sender.wait_for_room(rt) {
            return Closed { finished: None };
        }
        sender.producer.push_reserved(last);
        let Sender {
            producer,
            patience: _,
        } = sender;
        Closed {
            finished: producer.finish(),
        }
    }
}
