//! How items are taken from a lane, and how it is confirmed that all were.

ghost use Rattle.std.specs.Prelude.{◌≡◌, ◌<◌, ◌+◌, ◌↔◌, [], ◌∷◌, ◌++◌, length, Some};
ghost use Rattle.std.specs.Prelude.{IfOk, IsOk, IsSome, IsTrue, OnErr, OnOk, MatchOption};
ghost use mathlib.Core.List.{IsPrefix};
ghost use Rattle.rtrb.specs.Ring.{received};
ghost use Rattle.lane_rings.specs.Items.{last_mark};
ghost use Rattle.lane_rings.specs.declared.item.Mark.TheVariants.{Counted, Stopped};

use crate::item::{Gone, Item, Mark};
use crate::sender::Closed;
use crate::wait::Patience;
use rtrb::Consumer;
use std::sync::Wait;
use std::time::{Clock, CpuClock};

/// The end of a lane that takes. It can move to another thread.
#[derive(Drop)]
pub struct Receiver<T> {
    pub(crate) consumer: Consumer<Item<T>>,
    pub(crate) last: Option<Mark>,
    pub(crate) patience: Patience,
    ghost marked: { last ≡ last_mark (received consumer) },
}

/// A lane of which all that was ever sent was taken, and whose last item is an `End` or a `Stop`.
#[derive(Drop)]
pub struct Confirmed<T> {
    pub(crate) receiver: Receiver<T>,
    mark: Mark,
    ghost ends: { last_mark (received receiver.consumer) ≡ Some mark },
}

/// The ring gave no confirmation, or items are left, or the last item taken is neither an `End` nor a `Stop`.
#[derive(Clone, Copy, Debug, Eq, PartialEq)]
pub struct Unconfirmed;

/// The mark that an item is, if it is no entry.
fn mark_of<T>(item: &Item<T>) -> Option<Mark>
    ensures { result ≡ Rattle.lane_rings.specs.Items.mark_of item.now }
{
    match item {
        Item::Entry(_) => None,
        Item::End(count) => Some(Mark::Counted(*count)),
        Item::Stop => Some(Mark::Stopped),
    }
}

impl<T> Receiver<T> {
    ghost use Rattle.lane_rings.specs.Lane.{receiver_lane, taken, waiting};

    /// Takes the next item, if one is there now, and never waits.
    ///
    /// It returns `Gone` where the sender is no more and all that it sent was taken, also after an `End` or a `Stop`.
    pub fn try_take(&mut self) -> Result<Option<Item<T>>, Gone<()>>
        ensures lane { receiver_lane self.new ≡ receiver_lane self.old }
        ensures ok { IfOk result (λ found.
            MatchOption found (taken self.new ≡ taken self.old)
            (λ item. taken self.new ≡ taken self.old ++ item ∷ [])) }
        ensures gone { OnErr result (taken self.new ≡ taken self.old) }
    {
        if !self.look()? {
            return Ok(None);
        }
        Ok(Some(self.take_next()))
    }

    /// Waits for the next item and takes it.
    ///
    /// While nothing is there it waits as [`Patience`] does. It returns `Gone` where `try_take` does.
    pub fn take(&mut self, rt: &(impl Wait + Clock + CpuClock)) -> Result<Item<T>, Gone<()>>
        ensures lane { receiver_lane self.new ≡ receiver_lane self.old }
        ensures ok { IfOk result (λ item. taken self.new ≡ taken self.old ++ item ∷ []) }
        ensures gone { OnErr result (taken self.new ≡ taken self.old) }
    {
        self.wait(rt)?;
        Ok(self.take_next())
    }

    /// Waits until an item is next, and leaves it in the lane: [`next`](Self::next) lends it and [`pass`](Self::pass)
    /// takes it.
    ///
    /// It waits as `take` does, and returns `Gone` where `try_take` does.
    pub fn wait(&mut self, rt: &(impl Wait + Clock + CpuClock)) -> Result<(), Gone<()>>
        ensures lane { receiver_lane self.new ≡ receiver_lane self.old }
        ensures taken { taken self.new ≡ taken self.old }
        ensures waiting { IsPrefix (waiting self.old) (waiting self.new) }
        ensures there { OnOk result (0 < length (waiting self.new)) }
    {
        self.patience.renew();
        for _ in rt.forever() {
            if self.look()? {
                return Ok(());
            }
            self.patience.pause(rt);
        }
        unreachable!()
    }

    /// Looks whether an item is next, and never waits.
    ///
    /// It returns `Gone` where `try_take` does.
    pub fn look(&mut self) -> Result<bool, Gone<()>>
        ensures lane { receiver_lane self.new ≡ receiver_lane self.old }
        ensures taken { taken self.new ≡ taken self.old }
        ensures waiting { IsPrefix (waiting self.old) (waiting self.new) }
        ensures there { IfOk result (λ there. IsTrue there → 0 < length (waiting self.new)) }
    {
        if !self.consumer.is_empty() {
            return Ok(true);
        }
        if !self.consumer.is_abandoned() {
            return Ok(false);
        }
        // What was sent between the first look and the sender's leaving is still there.
        if self.consumer.is_empty() {
            return Err(Gone { value: () });
        }
        Ok(true)
    }

    /// The next item, left in the lane, where a look has shown that there is one.
    pub fn next(&self) -> Option<&Item<T>>
        ensures next { MatchOption result (waiting self.now ≡ [])
            (λ item. IsPrefix (item.now ∷ []) (waiting self.now)) }
        ensures there { IsSome result → 0 < length (waiting self.now) }
    {
        if self.consumer.cached_slots() == 0 {
            return None;
        }
        Some(self.consumer.peek_known())
    }

    /// Takes the next item, which a look has shown. It is copied once from where it lies, since it may be large.
    #[inline(always)]
    #[tactic(auto, using(crate::proofs::EndLemmas::last_mark_append))]
    fn take_next(&mut self) -> Item<T>
        requires { 0 < length (waiting self.old) }
        ensures lane { receiver_lane self.new ≡ receiver_lane self.old }
        ensures taken { taken self.new ≡ taken self.old ++ result ∷ [] }
    {
        let next = self.consumer.pop_known();
        self.last = mark_of(&next);
        next
    }
}

impl<T: Drop> Receiver<T> {
    ghost use Rattle.lane_rings.specs.Lane.{receiver_lane, taken, waiting, IsClosedOf, IsWhole, items};

    /// Takes the next item, which a look has shown, and drops it.
    #[tactic(auto, using(crate::proofs::EndLemmas::last_mark_append))]
    pub fn pass(&mut self)
        requires { 0 < length (waiting self.old) }
        ensures lane { receiver_lane self.new ≡ receiver_lane self.old }
        ensures taken { taken self.new ++ waiting self.new ≡ taken self.old ++ waiting self.old }
        ensures one { length (taken self.new) ≡ length (taken self.old) + 1 }
    {
        let item = self.consumer.pop_known();
        self.last = mark_of(&item);
    }

    /// Whether what was taken is all that was ever sent, up to an `End` or a `Stop`. `closed` is what is left of the
    /// sender that was made with this receiver. The lane is spent either way.
    #[tactic(auto, using(crate::proofs::EndLemmas::none_before))]
    pub fn confirm(self, closed: Closed<T>) -> Result<Confirmed<T>, Unconfirmed>
        requires { IsClosedOf closed self }
        ensures whole { IsOk result ↔ IsWhole closed self }
        ensures items { IfOk result (λ c. items c ≡ taken self) }
        ensures none_waits { IsOk result → waiting self ≡ [] }
    {
        let mut receiver = self;
        let Some(mut finished) = closed.finished else {
            return Err(Unconfirmed);
        };
        if receiver.consumer.slots_after(&mut finished) != 0 {
            return Err(Unconfirmed);
        }
        let Some(mark) = receiver.last else {
            return Err(Unconfirmed);
        };
        Ok(Confirmed { receiver, mark })
    }
}

impl<T> Confirmed<T> {
    ghost use Rattle.lane_rings.specs.Lane.{items};

    /// The count of the lane's `End`, or `None` where it ended with `Stop`.
    pub fn ended(&self) -> Option<u64>
        ensures { MatchOption result (last_mark (items self.now) ≡ Some Stopped)
            (λ n. last_mark (items self.now) ≡ Some (Counted n)) }
    {
        match self.mark {
            Mark::Counted(count) => Some(count),
            Mark::Stopped => None,
        }
    }
}
