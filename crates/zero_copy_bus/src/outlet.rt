//! The publisher's end of a lane.
ghost use Rattle.std.specs.Option.{ForSome};
ghost use Rattle.std.specs.Prelude.{◌≡◌, ◌<◌, ◌⊎◌, ◌&&◌, ℕ, List, true, false, None, IsTrue, IsFalse, IfNone, IfSome};
ghost use Rattle.history.specs.Views.{first_view};
ghost use Rattle.history.specs.Passes.{Goes};
ghost use Rattle.lock_free_queues.specs.Queues.Overflowing.{consumer_queue, consumer_view, PushAdded, PushHandedBack};
ghost use Rattle.lock_free_queues.specs.Queues.Rings.{producer_queue, queue_id, queue_of, view, IsPassOf};
ghost use Rattle.lock_free_queues.specs.Queues.Contracts.{FoundNone};
ghost use Rattle.zero_copy_bus.specs.Books.{GainsNone, GainsOnly, HasNone, KeepsAllOrNone, KeepsLoans, KeepsOthers, KeepsSlots};
ghost use Rattle.zero_copy_bus.specs.Holders.{bit_of};
ghost use Rattle.zero_copy_bus.specs.Pools.{slots_of, table_of, IsSame};
ghost use Rattle.zero_copy_bus.specs.Words.{slot_back, TakesOn};
ghost use Rattle.zero_copy_loans.specs.Words.{word_of, IsWord};
ghost use Rattle.zero_copy_slots.specs.Slots.{lying_number, lying_slot};

use crate::holders::Holder;
use crate::lane::Inlet;
use crate::pool::Pool;
use crate::roll::Roll;
use lock_free_queues::spsc::safely_overflowing_index_queue::SafelyOverflowingIndexQueue;
use lock_free_queues::spsc::{index_queue, safely_overflowing_index_queue as overflow};
use std::sync::Wait;
use zero_copy_loans::words::Layout;
use zero_copy_slots::Lying;

/// What the publisher knows of the subscriber of a lane.
#[derive(Clone, Copy, Debug, PartialEq, Eq)]
pub enum Tenancy {
    /// Nobody has the subscriber's end of the lane.
    Free,
    /// Somebody was given the subscriber's end, and the publisher has not seen that it takes part, or has
    /// seen that it takes part no more.
    Closed,
    /// Somebody takes part.
    Open,
    /// A pass of the lane was refused or is gone, so nobody gets the subscriber's end any more.
    Lost,
}

/// The publisher's end of a lane. It has a pass of the queue by which slots go out and a handle of the one by
/// which they come back, of which passes are split off for subscribers. It has the guard that pushes from
/// when the lane is let until its passes are taken in.
pub struct Outlet<'a> {
    holder: Holder,
    tenancy: Tenancy,
    sends: Option<overflow::Producer<'a>>,
    takes: index_queue::Consumer<'a>,
    submission: &'a SafelyOverflowingIndexQueue,
    waits: overflow::Pass,
    completion: index_queue::Handle<'a>,
    ghost subscribes: { 0 < bit_of holder },
    ghost of: { IsPassOf submission.now waits },
    ghost sending: { ForSome sends (λ p. producer_queue p ≡ queue_id submission.now) },
}

impl<'a> Drop for Outlet<'a> {
    fn drop(self) {
        let Self {
            holder: _,
            tenancy: _,
            sends: _sends,
            takes: _takes,
            submission: _,
            waits: _waits,
            completion: _completion,
        } = self;
    }
}

impl<'a> Outlet<'a> {
    ghost use Rattle.zero_copy_bus.specs.declared.outlet.Tenancy.TheVariants as tenancies;
    ghost use Rattle.zero_copy_bus.specs.Outlets.{closes, has_end, has_gained, holder_of, is_lost, is_open, place_of, sends_view, takes_view};
    ghost use Rattle.zero_copy_bus.specs.Outlets.{waits_queue, waits_view};
    ghost use Rattle.zero_copy_bus.specs.Outlets.{AreShown, FoundEmpty, IsFree, IsNew, IsServed, IsSettled, IsStill, IsTakenBack, SamePasses};
    ghost use Rattle.zero_copy_bus.specs.Outlets.{StaysOrLost, WasDrained, WasJoined, WasLet, WasEnded, WasTakenIn};
    ghost use Rattle.zero_copy_bus.specs.Rolls.{IsShown};

    /// The publisher's end of a lane of these two queues. None where the role that takes slots back is held,
    /// or no further pass can be counted.
    pub fn of(
        holder: Holder,
        submission: &'a SafelyOverflowingIndexQueue,
        waits: overflow::Pass,
        mut completion: index_queue::Handle<'a>,
    ) -> Option<Outlet<'a>>
        requires subscribes { 0 < bit_of holder }
        requires of { IsPassOf submission.now waits }
        requires fresh { view waits ≡ first_view (queue_id submission.now).capacity }
        ensures holder { IfSome result (λ o. holder_of o ≡ holder) }
        ensures closed { IfSome result (λ o. is_open o ≡ false) }
        ensures fresh { IfSome result IsNew }
    {
        let takes = completion.split()?.acquire_consumer().ok()?;
        Some(Outlet {
            holder,
            tenancy: Tenancy::Free,
            sends: None,
            takes,
            submission,
            waits,
            completion,
        })
    }

    /// Lets the lane: makes the subscriber's end, and a new guard that pushes for this end. None where the
    /// lane is not Free, where a role is held, or where no further pass can be counted.
    pub fn inlet(&mut self) -> Option<Inlet<'a>>
        ensures holder { holder_of self.new ≡ holder_of self.old }
        ensures taking { is_open self.new ≡ is_open self.old }
        ensures leased { IfSome result (λ i. WasLet (consumer_view i.receives) self.old self.new) }
        ensures queue { IfSome result (λ i. consumer_queue i.receives ≡ waits_queue self.old) }
        ensures none { IfNone result (StaysOrLost self.old self.new) }
    {
        match self.tenancy {
            Tenancy::Free => {}
            Tenancy::Closed => return None,
            Tenancy::Open => return None,
            Tenancy::Lost => return None,
        }
        let returns = self.completion.split()?.acquire_producer().ok()?;
        self.take_in();
        // (until all has gone well)
        self.tenancy = Tenancy::Lost;
        let ours = self.waits.split()?;
        let Ok(sends) = self.submission.acquire_producer(ours) else {
            return None;
        };
        let theirs = self.waits.split()?;
        let Ok(receives) = self.submission.acquire_consumer(theirs) else {
            return None;
        };
        self.sends = Some(sends);
        self.tenancy = Tenancy::Closed;
        Some(Inlet { receives, returns })
    }

    /// Releases the guard that pushes, if there is one, and joins its pass into the lane's.
    fn take_in(&mut self)
        ensures holder { holder_of self.new ≡ holder_of self.old }
        ensures tenancy { self.new.tenancy ≡ self.old.tenancy }
        ensures queue { waits_queue self.new ≡ waits_queue self.old }
        ensures takes { self.new.takes ≡ self.old.takes }
        ensures none { self.new.sends ≡ None }
        ensures ended { IsTrue (has_end self.old) → WasEnded self.old (waits_view self.new) }
        ensures still { self.old.sends ≡ None → self.new.waits ≡ self.old.waits }
    {
        if let Some(sends) = self.sends.take() {
            self.waits.join(sends.release());
        }
    }

    /// Joins the pass of a subscriber that has left into the lane's, and before it that of the guard that
    /// pushes, if there is one. If no pass of the queue was dropped, the lane's pass then knows all that went
    /// out. Nothing more is sent until the lane is let again. The lane is not free until it is settled, and
    /// slots that the subscriber gave back still wait.
    pub fn rejoin(&mut self, other: overflow::Pass)
        requires { queue_of other ≡ waits_queue self.old }
        ensures holder { holder_of self.new ≡ holder_of self.old }
        ensures closed { is_open self.new ≡ false }
        ensures tenancy { self.new.tenancy ≡ closes self.old.tenancy }
        ensures queue { waits_queue self.new ≡ waits_queue self.old }
        ensures takes { self.new.takes ≡ self.old.takes }
        ensures taken_in { IsTrue (has_end self.old) → WasTakenIn (view other) self.old self.new }
        ensures joined { self.old.sends ≡ None → WasJoined (view other) self.old self.new }
    {
        self.take_in();
        self.waits.join(other);
        self.waits.history();
        match self.tenancy {
            Tenancy::Free => {}
            Tenancy::Closed => {}
            Tenancy::Open => self.tenancy = Tenancy::Closed,
            Tenancy::Lost => {}
        }
    }

    /// Whether the lane's subscriber takes part and the guard that pushes is there.
    pub fn is_open(&self) -> bool
        ensures { result ≡ is_open self.now }
    {
        match self.tenancy {
            Tenancy::Free => false,
            Tenancy::Closed => false,
            Tenancy::Open => self.sends.is_some(),
            Tenancy::Lost => false,
        }
    }

    /// Pushes the word of a record that lies in a slot, and returns the word that the queue handed back, if it did.
    fn push(&mut self, layout: &Layout, lying: &Lying<'_>) -> Option<u64>
        requires end { IsTrue (has_end self.old) }
        requires word { IsWord layout.now.room layout.now.places (lying_number lying.now) (lying_slot lying.now) }
        ensures holder { holder_of self.new ≡ holder_of self.old }
        ensures tenancy { self.new.tenancy ≡ self.old.tenancy }
        ensures end { has_end self.new ≡ true }
        ensures waits { self.new.waits ≡ self.old.waits }
        ensures goes { 0 < (waits_queue self.old).capacity → Goes (sends_view self.old) (sends_view self.new) }
        ensures added { IfNone result (PushAdded (word_of layout.now.room (lying_number lying.now) (lying_slot lying.now))
            (sends_view self.old) (sends_view self.new)) }
        ensures handed_back { IfSome result (λ y. PushHandedBack (waits_queue self.old).capacity
            (word_of layout.now.room (lying_number lying.now) (lying_slot lying.now)) y (sends_view self.old) (sends_view self.new)) }
    {
        let word = layout.word(lying);
        match &mut self.sends {
            Some(sends) => sends.push(word),
            None => unreachable!(),
        }
    }

    /// Sends a slot that is on loan, with its number, if the subscriber takes part and does not hold the
    /// slot. A full queue hands its oldest word back, and the subscriber holds that slot no more. Answers
    /// whether the subscriber gained the slot: it did not if the queue handed this very slot back, since it
    /// has no room at all.
    pub fn send(&mut self, pool: &mut Pool<'_>, layout: &Layout, lying: &Lying<'_>) -> bool
        requires { IsWord layout.now.room layout.now.places (lying_number lying.now) (lying_slot lying.now) }
        ensures holder { holder_of self.new ≡ holder_of self.old }
        ensures taking { is_open self.new ≡ is_open self.old }
        ensures served { IsServed layout.now.room (lying_number lying.now) (lying_slot lying.now)
            (table_of pool.old) (table_of pool.new) self.old self.new }
        ensures gained { result ≡ has_gained (lying_slot lying.now) (table_of pool.old) (table_of pool.new) self.old }
        ensures others { KeepsOthers (holder_of self.old) (table_of pool.old) (table_of pool.new) }
        ensures gains { GainsOnly (lying_slot lying.now) (table_of pool.old) (table_of pool.new) }
        ensures loans { KeepsLoans (table_of pool.old) (table_of pool.new) }
        ensures refused { IsFalse result → table_of pool.new ≡ table_of pool.old }
        ensures pool { IsSame pool.old pool.new }
    {
        let slot = lying.slot();
        if !self.is_open() || !pool.can_send(slot, self.holder) {
            return false;
        }
        let back = self.push(layout, lying);
        pool.exchange(slot, self.holder, slot_back(layout, back))
    }

    /// Pops the slots that the subscriber has given back, until none is left, but at most as many as the pool
    /// has slots. The subscriber holds them no more.
    pub fn take_back(&mut self, pool: &mut Pool<'_>)
        ensures holder { holder_of self.new ≡ holder_of self.old }
        ensures taking { is_open self.new ≡ is_open self.old }
        ensures taken { IsTakenBack (slots_of pool.old) (table_of pool.old) (table_of pool.new) self.old self.new }
        ensures others { KeepsOthers (holder_of self.old) (table_of pool.old) (table_of pool.new) }
        ensures gains { GainsNone (table_of pool.old) (table_of pool.new) }
        ensures loans { KeepsLoans (table_of pool.old) (table_of pool.new) }
        ensures pool { IsSame pool.old pool.new }
    {
        let holder = self.holder;
        for _ in 0..pool.slots() {
            let Some(back) = self.takes.pop() else {
                break;
            };
            pool.put_back(back, holder);
        }
    }

    /// Sets the tenancy by whether the registry shows the lane's subscriber. If it does not, and both queues
    /// could be emptied (`drain`), the lane is Free and the slots that the subscriber held are back in the
    /// pool. If they could not, the lane is Closed.
    fn settle(&mut self, rt: &impl Wait, pool: &mut Pool<'_>, takes_part: bool)
        ensures holder { holder_of self.new ≡ holder_of self.old }
        ensures taking { is_open self.new ≡ (takes_part && has_end self.old) }
        ensures passes { IsTrue takes_part → SamePasses self.old self.new }
        ensures end { self.new.sends ≡ self.old.sends }
        ensures queue { waits_queue self.new ≡ waits_queue self.old }
        ensures lost { is_lost self.new.tenancy ≡ false }
        ensures free { IsFree self.new → HasNone (holder_of self.old) (table_of pool.new) × FoundEmpty self.old self.new × WasDrained self.old self.new }
        ensures kept { ¬ IsFree self.new → table_of pool.new ≡ table_of pool.old }
        ensures popped { (takes_view self.new ≡ takes_view self.old) ⊎ WasDrained self.old self.new }
        ensures all { KeepsAllOrNone (table_of pool.old) (table_of pool.new) }
        ensures others { KeepsOthers (holder_of self.old) (table_of pool.old) (table_of pool.new) }
        ensures loans { KeepsLoans (table_of pool.old) (table_of pool.new) }
        ensures pool { IsSame pool.old pool.new }
    {
        if takes_part {
            self.tenancy = Tenancy::Open;
        } else if self.drain(rt, pool) {
            self.tenancy = Tenancy::Free;
        } else {
            self.tenancy = Tenancy::Closed;
        }
    }

    /// Settles a lane that is neither Free nor Lost by what the roll shows. If the roll has not changed, an
    /// Open lane stays as it is.
    pub fn settle_by(
        &mut self,
        rt: &impl Wait,
        pool: &mut Pool<'_>,
        roll: &Roll<'_>,
        has_changed: bool,
    )
        requires { IsFalse has_changed → IsTrue (is_open self.old) → IsShown roll.now (place_of self.old) }
        ensures holder { holder_of self.new ≡ holder_of self.old }
        ensures settled { IsSettled roll.now (table_of pool.old) (table_of pool.new) self.old self.new }
        ensures all { KeepsAllOrNone (table_of pool.old) (table_of pool.new) }
        ensures others { KeepsOthers (holder_of self.old) (table_of pool.old) (table_of pool.new) }
        ensures loans { KeepsLoans (table_of pool.old) (table_of pool.new) }
        ensures pool { IsSame pool.old pool.new }
    {
        match self.tenancy {
            Tenancy::Free => return,
            Tenancy::Closed => {}
            Tenancy::Open => {
                if !has_changed {
                    return;
                }
            }
            Tenancy::Lost => return,
        }
        self.settle(rt, pool, roll.has(self.holder.place()));
    }

    /// Empties both queues of a subscriber that is gone, and takes all slots that it held back into the pool.
    /// True if each queue was found empty. If its end of the lane is still there, or a queue could not be
    /// emptied, the table is unchanged: false.
    fn drain(&mut self, rt: &impl Wait, pool: &mut Pool<'_>) -> bool
        ensures holder { holder_of self.new ≡ holder_of self.old }
        ensures none { IsTrue result → HasNone (holder_of self.old) (table_of pool.new) }
        ensures empty { IsTrue result → FoundEmpty self.old self.new }
        ensures drained { IsTrue result → WasDrained self.old self.new }
        ensures popped { (takes_view self.new ≡ takes_view self.old) ⊎ WasDrained self.old self.new }
        ensures end { self.new.sends ≡ self.old.sends }
        ensures queue { waits_queue self.new ≡ waits_queue self.old }
        ensures others { KeepsOthers (holder_of self.old) (table_of pool.old) (table_of pool.new) }
        ensures refused { IsFalse result → table_of pool.new ≡ table_of pool.old }
        ensures pool { IsSame pool.old pool.new }
    {
        if !self.empty_submitted(rt) || !self.empty_returned(pool.slots()) {
            return false;
        }
        pool.put_all_back(self.holder);
        true
    }

    /// Pops all words that wait for a subscriber that is gone. True if the queue was found empty. False if
    /// the subscriber still has its end of the lane, or no further pass can be counted.
    fn empty_submitted(&mut self, rt: &impl Wait) -> bool
        ensures holder { holder_of self.new ≡ holder_of self.old }
        ensures queue { waits_queue self.new ≡ waits_queue self.old }
        ensures takes { takes_view self.new ≡ takes_view self.old }
        ensures end { self.new.sends ≡ self.old.sends }
        ensures empty { IsTrue result → 0 < (waits_queue self.old).capacity → FoundNone (waits_view self.old) (waits_view self.new) }
        ensures drained { IsTrue result → WasDrained self.old self.new }
    {
        let Some(pass) = self.waits.split() else {
            return false;
        };
        match self.submission.acquire_consumer(pass) {
            Ok(mut receives) => {
                let is_empty = empty(rt, &mut receives);
                self.waits.join(receives.release());
                self.waits.history();
                is_empty
            }
            Err(pass) => {
                self.waits.join(pass);
                false
            }
        }
    }

    /// Pops all slots that were given back, at most `slots` of them. True if the queue was found empty.
    fn empty_returned(&mut self, slots: u32) -> bool
        ensures holder { holder_of self.new ≡ holder_of self.old }
        ensures queue { waits_queue self.new ≡ waits_queue self.old }
        ensures waits { waits_view self.new ≡ waits_view self.old }
        ensures end { self.new.sends ≡ self.old.sends }
        ensures empty { IsTrue result → FoundNone (takes_view self.old) (takes_view self.new) }
    {
        for _ in 0..slots as u64 + 1 {
            match self.takes.pop() {
                Some(_) => {}
                None => return true,
            }
        }
        false
    }
}

/// Pops all words that wait, and answers whether the queue was found empty. No push is under way, so at most
/// the capacity waits.
fn empty(rt: &impl Wait, receives: &mut overflow::Consumer<'_>) -> bool
    ensures queue { consumer_queue receives.new ≡ consumer_queue receives.old }
    ensures empty { 0 < (consumer_queue receives.old).capacity → IsTrue result
        → FoundNone (consumer_view receives.old) (consumer_view receives.new) }
    ensures taken { 0 < (consumer_queue receives.old).capacity
        → (words : List ℕ) × TakesOn words (consumer_view receives.old) (consumer_view receives.new) }
{
    for _ in 0..receives.capacity().saturating_add(1) {
        match receives.pop(rt) {
            Some(_) => {}
            None => return true,
        }
    }
    false
}

/// The slot in the word that a push handed back, if it handed one back.
fn slot_back(layout: &Layout, back: Option<u64>) -> Option<u32>
    ensures { result ≡ slot_back layout.now.room back }
{
    match back {
        Some(word) => Some(layout.parts(word).1),
        None => None,
    }
}
