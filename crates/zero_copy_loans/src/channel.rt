//! A loan channel for values (`Channel`): the set of places, the two queues and the slots that its sender and
//! its receiver share, and how both ends are made and taken in.
ghost use Rattle.std.specs.Prelude.{◌≡◌, ◌≤◌, ◌+◌, ◌-◌, ◌^◌, None, IfOk, IfSome, OnOk, List, [], ℕ, replicate};
ghost use Rattle.steps.specs.Enums.{capacity_refusal};
ghost use Rattle.lock_free_loans.specs.Loan.Sender.{completion_of, submission_of};
ghost use Rattle.lock_free_loans.specs.declared.spsc.loan.places.Place.TheVariants.{Free};
ghost use Rattle.lock_free_queues.specs.Queues.Rings as queues;
ghost use Rattle.lock_free_sets.specs.Unique.Held.{HoldsNothing};
ghost use Rattle.lock_free_sets.specs.UniqueIndexSet.{capacity_of, made, set_refusal, IsPassOf};
ghost use Rattle.zero_copy_loans.specs.Ends as ends;
ghost use Rattle.zero_copy_loans.specs.declared.receiver.ReceiverParts.{ReceiverParts};
ghost use Rattle.zero_copy_loans.specs.declared.sender.SenderParts.{SenderParts};
ghost use Rattle.zero_copy_loans.specs.Numbers.{IsPassedOn};
ghost use Rattle.zero_copy_loans.specs.Words.{IsRoomFor};
ghost use Rattle.zero_copy_slots.specs.Slots.{slots_in};

use crate::receiver::{Receiver, ReceiverParts};
use crate::sender::{Sender, SenderParts};
use crate::words::Layout;
use lock_free_loans::spsc::loan::LoanSender;
use lock_free_queues::spsc::index_queue::IndexQueue;
use lock_free_queues::spsc::safely_overflowing_index_queue::SafelyOverflowingIndexQueue;
use lock_free_queues::spsc::{index_queue, safely_overflowing_index_queue as overflow};
use lock_free_sets::mpmc::unique_index_set::{Pass, UniqueIndexSet};
use lock_free_sets::mpmc::unique_index_set_enums::UniqueIndexCreationError;
use std::alloc::Global;
use zero_copy_slots::{Anything, Keeps, Slots};

/// A channel of places, each with a slot for a value, and of two queues: one by which places are sent, and
/// one, with room for all places, by which they come back. A value lies in its slot until a loan of the place
/// is sent, given up or dropped, the place is regained, or the channel is dropped.
///
/// The channel keeps its queues to itself, so its sender cannot `reclaim`. A place that is Loaned or Sent
/// when the sender ends is out for good, and a value that waits then comes to the next receiver with its old
/// number. If a sender is to outlive its receivers, its user makes the parts, and the ends over them
/// (`Sender::new`, `Receiver::new`), so that `reclaim` frees what was Sent.
///
/// `ends` makes both ends at once. A caller who wants to know in the end what went through calls `open` and
/// `ends_with`, and then `relayed` with what both ends leave: the channel then knows all values that went
/// through, and the numbers go on with its next ends.
pub struct Channel<X: Drop, K: Keeps<X> = Anything> {
    set: UniqueIndexSet,
    pass: Pass,
    submission: SafelyOverflowingIndexQueue,
    sending: overflow::Pass,
    completion: IndexQueue,
    returning: index_queue::Pass,
    slots: Slots<X, K>,
    layout: Layout,
    next: u64,
    ghost of: { IsPassOf set pass },
    ghost submits: { queues.IsPassOf submission sending },
    ghost completes: { queues.IsPassOf completion returning },
    ghost sized: { slots_in slots ≡ capacity_of set },
    ghost fits: { layout.places ≡ capacity_of set },
}

impl<X: Drop, K: Keeps<X>> Drop for Channel<X, K> {
    fn drop(self) {
        let Self {
            set: _set,
            pass: _pass,
            submission: _submission,
            sending: _sending,
            completion: _completion,
            returning: _returning,
            slots: _slots,
            layout: _,
            next: _,
        } = self;
    }
}

impl<X: Drop, K: Keeps<X>> Channel<X, K> {
    ghost use Rattle.zero_copy_loans.specs.Channels.{completion_in, layout_of, next_in, places_of, sending_view, set_in};
    ghost use Rattle.zero_copy_loans.specs.Channels.{shape_of, steps_in, steps_of, submission_in};
    ghost use Rattle.zero_copy_loans.specs.Channels.{HasOpened, HasPassedOn, HasRejoined, IsReceiverOf, IsSameChannel, IsSenderOf};
    ghost use Rattle.zero_copy_loans.specs.Relays.{GoesOn};

    /// Makes `places` places, from 1 to 2^24 - 2, of which at most `queue` wait, up to 2^32 - 1. Refused as
    /// `UniqueIndexSet::new` of the places, then as the queues are, and where there is no memory. No atomic step.
    pub fn new(
        alloc: Global,
        places: usize,
        queue: usize,
    ) -> Result<Channel<X, K>, UniqueIndexCreationError>
        ensures places { IfOk result (λ c. places_of c ≡ places) }
        ensures rooms { IfOk result
            (λ c. ((submission_in c).capacity ≡ queue) × ((completion_in c).capacity ≡ places)) }
        ensures fresh { IfOk result (HasPassedOn [] [] []) }
        ensures next { IfOk result (λ c. next_in c ≡ 0) }
        ensures room { IfOk result (λ c. IsRoomFor places (shape_of c).room) }
        ensures admitted { OnOk result (set_refusal places ≡ None) }
        ensures queue { OnOk result (capacity_refusal 0 (2 ^ 32 - 1) queue ≡ None) }
    {
        let (set, pass) = UniqueIndexSet::new(alloc, places)?;
        let (submission, sending) = SafelyOverflowingIndexQueue::new(alloc, queue)?;
        let (completion, returning) = IndexQueue::new(alloc, places)?;
        let Ok(slots) = Slots::new(alloc, set.capacity()) else {
            return Err(UniqueIndexCreationError::NoMemory);
        };
        let layout = Layout::new(set.capacity());
        Ok(Channel {
            set,
            pass,
            submission,
            sending,
            completion,
            returning,
            slots,
            layout,
            next: 0,
        })
    }

    /// The two ends, with the values that are to be written, which need not keep the rule yet: one more than there are places,
    /// and one more for each further loan that is in hand at a time. None where an earlier end was forgotten, where no further
    /// pass can be counted, or where there is no memory, and then the values are dropped. Numbers begin at 0 again, also where
    /// values of earlier ends still wait; with `open` and `relayed` they go on. Two atomic steps for each end, and those of the
    /// splits.
    pub fn ends(
        &mut self,
        alloc: Global,
        spares: Vec<X>,
    ) -> Option<(Sender<'_, X, K>, Receiver<'_, X, K>)>
        ensures free { IfSome result (λ e. ends.places_of e.0 ≡ replicate (places_of self.old) Free) }
        ensures next { IfSome result (λ e. ends.next_of e.0 ≡ 0) }
        ensures places { IfSome result (λ e. ends.places_in e.1 ≡ places_of self.old) }
        ensures submission { IfSome result
            (λ e. ends.receives_queue e.1 ≡ submission_of (ends.sender_of e.0)) }
        ensures completion { IfSome result
            (λ e. ends.returns_queue e.1 ≡ completion_of (ends.sender_of e.0)) }
    {
        self.next = 0;
        let (sends, receives) = self.open()?;
        self.ends_with(alloc, spares, sends, receives)
    }

    /// What the two ends are made of, by `ends_with`. None where no further pass can be counted.
    pub fn open(&mut self) -> Option<(SenderParts, ReceiverParts)>
        ensures sends { IfSome result (λ p. IsSenderOf self.old p.0) }
        ensures nothing { IfSome result (λ p. HoldsNothing (made p.0.pass)) }
        ensures receives { IfSome result (λ p. IsReceiverOf self.old p.1) }
        ensures opened { IfSome result (λ p. HasOpened self.old self.new p.0 p.1) }
        ensures same { IsSameChannel self.old self.new }
        ensures next { next_in self.new ≡ next_in self.old }
    {
        let pass = self.pass.split()?;
        let sends = self.sending.split()?;
        let receives = self.sending.split()?;
        let takes = self.returning.split()?;
        let returns = self.returning.split()?;
        let sends = SenderParts {
            pass,
            submission: sends,
            completion: takes,
            next: self.next,
        };
        let receives = ReceiverParts {
            submission: receives,
            completion: returns,
        };
        Some((sends, receives))
    }

    /// The two ends of these parts. The values to write are given as to `ends`. The numbers go on from the
    /// one in the parts.
    pub fn ends_with(
        &self,
        alloc: Global,
        spares: Vec<X>,
        sends: SenderParts,
        receives: ReceiverParts,
    ) -> Option<(Sender<'_, X, K>, Receiver<'_, X, K>)>
        requires sends { IsSenderOf self.now sends }
        requires nothing { HoldsNothing (made sends.pass) }
        requires receives { IsReceiverOf self.now receives }
        ensures free { IfSome result (λ e. ends.places_of e.0 ≡ replicate (places_of self.now) Free) }
        ensures next { IfSome result (λ e. ends.next_of e.0 ≡ sends.next) }
        ensures places { IfSome result (λ e. ends.places_in e.1 ≡ places_of self.now) }
        ensures submission { IfSome result
            (λ e. ends.receives_queue e.1 ≡ submission_of (ends.sender_of e.0)) }
        ensures completion { IfSome result
            (λ e. ends.returns_queue e.1 ≡ completion_of (ends.sender_of e.0)) }
        ensures sender { IfSome result
            (λ e. (left : SenderParts) → ends.IsOfSender e.0 left → IsSenderOf self.now left) }
        ensures receiver { IfSome result
            (λ e. (left : ReceiverParts) → ends.IsOfReceiver e.1 left → IsReceiverOf self.now left) }
        ensures begun { IfSome result (λ e. ends.HasBegun sends e.0) }
        ensures waits { IfSome result (λ e. ends.HasWaited receives e.1) }
        ensures shapes { IfSome result
            (λ e. (ends.sends_shape e.0 ≡ shape_of self.now) × (ends.receives_shape e.1 ≡ shape_of self.now)) }
    {
        let sender = self.sender_with(alloc, spares, sends)?;
        let receiver = self.receiver_with(receives)?;
        Some((sender, receiver))
    }

    /// The sender of its parts, so that a thread may make its own end. None where there is no memory, and then the values are
    /// dropped. Two atomic steps.
    pub fn sender_with(
        &self,
        alloc: Global,
        spares: Vec<X>,
        sends: SenderParts,
    ) -> Option<Sender<'_, X, K>>
        requires sends { IsSenderOf self.now sends }
        requires nothing { HoldsNothing (made sends.pass) }
        ensures free { IfSome result (λ s. ends.places_of s ≡ replicate (places_of self.now) Free) }
        ensures next { IfSome result (λ s. ends.next_of s ≡ sends.next) }
        ensures queues { IfSome result
            (λ s. (ends.sends_queue s ≡ submission_in self.now) × (completion_of (ends.sender_of s) ≡ completion_in self.now)) }
        ensures left { IfSome result (λ s. (left : SenderParts) → ends.IsOfSender s left → IsSenderOf self.now left) }
        ensures begun { IfSome result (λ s. ends.HasBegun sends s) }
        ensures shape { IfSome result (λ s. ends.sends_shape s ≡ shape_of self.now) }
    {
        let SenderParts {
            pass,
            submission: sends,
            completion: takes,
            next,
        } = sends;
        let Ok(producer) = self.submission.acquire_producer(sends) else {
            return None;
        };
        let Ok(consumer) = self.completion.acquire_consumer(takes) else {
            return None;
        };
        let Ok(loans) = LoanSender::new(alloc, &self.set, pass, producer, consumer) else {
            return None;
        };
        Some(Sender::of(loans, &self.slots, spares, self.layout, next))
    }

    /// The receiver of its parts, so that a thread may make its own end. Two atomic steps.
    pub fn receiver_with(&self, receives: ReceiverParts) -> Option<Receiver<'_, X, K>>
        requires { IsReceiverOf self.now receives }
        ensures places { IfSome result (λ r. ends.places_in r ≡ places_of self.now) }
        ensures queues { IfSome result
            (λ r. (ends.receives_queue r ≡ submission_in self.now) × (ends.returns_queue r ≡ completion_in self.now)) }
        ensures left { IfSome result (λ r. (left : ReceiverParts) → ends.IsOfReceiver r left → IsReceiverOf self.now left) }
        ensures waits { IfSome result (λ r. ends.HasWaited receives r) }
        ensures shape { IfSome result (λ r. ends.receives_shape r ≡ shape_of self.now) }
    {
        let ReceiverParts {
            submission: receives,
            completion: returns,
        } = receives;
        let Ok(receives) = self.submission.acquire_consumer(receives) else {
            return None;
        };
        let Ok(returns) = self.completion.acquire_producer(returns) else {
            return None;
        };
        Some(Receiver::of(receives, returns, &self.slots, self.layout))
    }

    /// Takes in what both ends leave (`finish_all`, `finish`). The channel then knows all that went through it, if no other end of
    /// it was dropped (`relayed` of `proofs/Ends.antt` says it), and its next sender's numbers go on. What is Loaned or Sent stays
    /// out. At most two atomic steps for each of five passes.
    pub fn relayed(&mut self, sends: SenderParts, receives: ReceiverParts)
        requires sends { IsSenderOf self.old sends }
        requires receives { IsReceiverOf self.old receives }
        ensures rejoined { HasRejoined self.old self.new sends receives }
        ensures steps { steps_in self.new ≤ steps_in self.old + steps_of sends receives + 10 }
        ensures same { IsSameChannel self.old self.new }
    {
        self.next = sends.next;
        self.pass.join(sends.pass);
        self.sending.join(sends.submission);
        self.sending.join(receives.submission);
        self.returning.join(sends.completion);
        self.returning.join(receives.completion);
        self.sending.history();
    }

    /// The law of the channel, end to end. It does nothing at run time. A new channel knows that nothing was sent (`new`). What it
    /// knew before it opened two ends, and what these sent, got back and received until it took them in again, it then knows
    /// (`goes_on`). And of what it knows the values that were received and those that came back merge, each once and in its order,
    /// to a beginning of what was sent (`tells`).
    pub fn passes_on(&self)
        ensures goes_on { GoesOn self.now }
        ensures tells { (sent back received : List ℕ) → HasPassedOn sent back received self.now → IsPassedOn sent received back }
    {}
}
