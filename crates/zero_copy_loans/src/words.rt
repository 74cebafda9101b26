//! What is sent: the number of a value and its place, in one number, and the sender of places that sends no other number.
ghost use Rattle.std.specs.Prelude.{◌≡◌, ◌⊎◌, ◌+◌, ◌*◌, ◌<◌, ◌≤◌, ◌^◌, ◌↔◌, IsTrue, IsFalse};
ghost use Rattle.std.specs.Prelude.{IfErr, IfNone, IfOk, IfSome, slice_set};
ghost use Rattle.lock_free_loans.specs.Loan.Calls.{LoanDone, LoanKeeps, ReclaimDone, ReclaimKeeps, SendKeeps};
ghost use Rattle.lock_free_loans.specs.Loan.Calls.{SettleKeeps, TakeBackDone, TakeBackKeeps, TakeBackNone};
ghost use Rattle.lock_free_loans.specs.Loan.Contracts.{HasEmptied};
ghost use Rattle.lock_free_loans.specs.Loan.Places.{returned};
ghost use Rattle.lock_free_loans.specs.Loan.Sender.{completion_of, completion_view, pass_view, places_of};
ghost use Rattle.lock_free_loans.specs.Loan.Sender.{set_of_sender, submission_of, submission_view, IsLoaned};
ghost use Rattle.lock_free_loans.specs.declared.spsc.loan.places.Place.TheVariants.{Free, Sent};
ghost use Rattle.lock_free_queues.specs.Queues.Calls as returns;
ghost use Rattle.lock_free_queues.specs.Queues.Overflowing as sends;
ghost use Rattle.lock_free_queues.specs.Queues.Overflowing.{PushAdded, PushHandedBack, SameConsumerByCapacity};
ghost use Rattle.lock_free_sets.specs.Unique.Contracts.{WasRefused};
ghost use Rattle.lock_free_sets.specs.UniqueIndexSet.{set_of, view};
ghost use Rattle.zero_copy_loans.specs.Words.{sender_in, word_of, IsRoomFor, IsWord};

use lock_free_loans::spsc::loan::LoanSender;
use lock_free_queues::spsc::{index_queue, safely_overflowing_index_queue as overflow};
use lock_free_sets::mpmc::unique_index_set::Pass;
use lock_free_sets::mpmc::unique_index_set_enums::UniqueIndexSetAcquireFailure;
use std::sync::Wait;
use zero_copy_slots::Lying;

/// How numbers and places are put together: the number stands above the place, which has just as many bits as all places need.
/// Both come out by a shift.
#[derive(Debug, Clone, Copy)]
pub struct Layout {
    places: u32,
    bits: u32,
    room: u64,
    ghost power: { room ≡ 2 ^ bits },
    ghost few: { bits ≤ 32 },
    ghost small: { room ≤ 2 ^ 32 },
    ghost fits: { places ≤ room },
    ghost least: { 2 < room → room < 2 * places },
    ghost some: { 2 ≤ room },
}

impl Layout {
    ghost use Rattle.zero_copy_slots.specs.Slots.{lying_number, lying_slot};

    /// The layout for `places` places: a word has at least one bit for the place. No atomic step.
    pub fn new(places: u32) -> Layout
        ensures places { result.places ≡ places }
        ensures room { IsRoomFor places result.room }
    {
        let mut room = 2u64;
        for bits in 1..32u32 {
            if places as u64 <= room {
                return Layout { places, bits, room };
            }
            room *= 2;
        }
        Layout {
            places,
            bits: 32,
            room,
        }
    }

    /// How many places the layout is for.
    pub fn places(&self) -> u32
        ensures { result ≡ self.now.places }
    {
        self.places
    }

    /// Whether a word of this number and this place can be made: there is such a place, and
    /// the word is below 2^64.
    pub fn has(&self, number: u64, place: u32) -> bool
        ensures yes { IsTrue result → IsWord self.now.room self.now.places number place }
        ensures no { IsFalse result → (self.now.places ≤ place) ⊎ (2 ^ 64 ≤ word_of self.now.room number place) }
    {
        if place >= self.places {
            return false;
        }
        match number.checked_mul(self.room) {
            Some(first) => first.checked_add(place as u64).is_some(),
            None => false,
        }
    }

    /// The word of a value that lies in a slot, of its number and its place. No atomic step.
    pub fn word(&self, lying: &Lying<'_>) -> u64
        requires { IsWord self.now.room self.now.places (lying_number lying.now) (lying_slot lying.now) }
        ensures { result ≡ word_of self.now.room (lying_number lying.now) (lying_slot lying.now) }
    {
        lying.number() * self.room + lying.slot() as u64
    }

    /// The number and the place in a word.
    pub fn parts(&self, word: u64) -> (u64, u32)
        ensures is { word_of self.now.room result.0 result.1 ≡ word }
        ensures within { result.1 < self.now.room }
    {
        let number = word >> self.bits;
        let place = word - number * self.room;
        (number, place as u32)
    }
}

/// A `LoanSender` that sends a place only with the word of a value that lies there: it has no other call that sends.
pub struct Loans<'a> {
    loans: LoanSender<'a>,
}

impl<'a> Drop for Loans<'a> {
    fn drop(self) {
        let Self { loans: _loans } = self;
    }
}

impl<'a> Loans<'a> {
    ghost use Rattle.zero_copy_slots.specs.Slots.{lying_number, lying_slot};

    /// Sends nothing by a word made by hand from here on.
    pub(crate) fn of(loans: LoanSender<'a>) -> Loans<'a>
        ensures { sender_in result ≡ loans.entry }
    {
        Loans { loans }
    }

    /// Sends the word of a value that lies in a slot, by `LoanSender::send_as`. The value lies there at that step, since its writer
    /// has taken no slot since it laid it there.
    pub(crate) fn send(&mut self, layout: &Layout, lying: &Lying<'_>) -> Option<u64>
        requires word { IsWord layout.now.room layout.now.places (lying_number lying.now) (lying_slot lying.now) }
        requires loaned { IsLoaned (lying_slot lying.now) (sender_in self.old) }
        ensures same { SendKeeps (sender_in self.old) (sender_in self.new) }
        ensures sent { places_of (sender_in self.new) ≡ slice_set (places_of (sender_in self.old)) (lying_slot lying.now) Sent }
        ensures kept { pass_view (sender_in self.new) ≡ pass_view (sender_in self.old) }
        ensures added { IfNone result (PushAdded (word_of layout.now.room (lying_number lying.now) (lying_slot lying.now))
            (submission_view (sender_in self.old)) (submission_view (sender_in self.new))) }
        ensures handed_back { IfSome result (λ y. PushHandedBack (submission_of (sender_in self.old)).capacity
            (word_of layout.now.room (lying_number lying.now) (lying_slot lying.now)) y
            (submission_view (sender_in self.old)) (submission_view (sender_in self.new))) }
    {
        self.loans.send_as(lying.slot(), layout.word(lying))
    }

    /// As `LoanSender::loan`.
    pub(crate) fn loan(&mut self, rt: &impl Wait) -> Result<u32, UniqueIndexSetAcquireFailure>
        ensures same { LoanKeeps (sender_in self.old) (sender_in self.new) }
        ensures loaned { IfOk result (λ i. LoanDone i (sender_in self.old) (sender_in self.new)) }
        ensures refused { IfErr result (λ e. (places_of (sender_in self.new) ≡ places_of (sender_in self.old))
            × WasRefused e (pass_view (sender_in self.old)) (pass_view (sender_in self.new))) }
    {
        self.loans.loan(rt)
    }

    /// As `LoanSender::is_loaned`.
    pub(crate) fn is_loaned(&self, place: u32) -> bool
        ensures { IsTrue result ↔ IsLoaned place (sender_in self.now) }
    {
        self.loans.is_loaned(place)
    }

    /// As `LoanSender::give_up`.
    pub(crate) fn give_up(&mut self, place: u32)
        requires { IsLoaned place (sender_in self.old) }
        ensures same { LoanKeeps (sender_in self.old) (sender_in self.new) }
        ensures places { places_of (sender_in self.new) ≡ slice_set (places_of (sender_in self.old)) place Free }
    {
        self.loans.give_up(place)
    }

    /// As `LoanSender::settle`.
    pub(crate) fn settle(&mut self, value: u64)
        ensures same { SettleKeeps (sender_in self.old) (sender_in self.new) }
        ensures places { places_of (sender_in self.new) ≡ returned value (places_of (sender_in self.old)) }
    {
        self.loans.settle(value)
    }

    /// As `LoanSender::take_back`.
    pub(crate) fn take_back(&mut self) -> Option<u64>
        ensures same { TakeBackKeeps (sender_in self.old) (sender_in self.new) }
        ensures back { IfSome result (λ y. TakeBackDone y (sender_in self.old) (sender_in self.new)) }
        ensures none { IfNone result (TakeBackNone (sender_in self.old) (sender_in self.new)) }
    {
        self.loans.take_back()
    }

    /// As `LoanSender::reclaim`.
    pub(crate) fn reclaim(&mut self, rt: &impl Wait, receiver: &mut overflow::Consumer<'_>) -> usize
        requires { sends.consumer_queue receiver.old ≡ submission_of (sender_in self.old) }
        ensures same { ReclaimKeeps (sender_in self.old) (sender_in self.new) }
        ensures reclaimed { ReclaimDone result (sender_in self.old) (sender_in self.new) }
        ensures receiver { SameConsumerByCapacity receiver.old receiver.new }
        ensures receiver_emptied { 0 < (sends.consumer_queue receiver.old).capacity
            → HasEmptied (sends.consumer_view receiver.old) (sends.consumer_view receiver.new) }
    {
        self.loans.reclaim(rt, receiver)
    }

    /// As `LoanSender::finish`.
    pub(crate) fn finish(self) -> Pass
        ensures view { view result ≡ pass_view (sender_in self.entry) }
        ensures set { set_of result ≡ set_of_sender (sender_in self.entry) }
    {
        let Self { loans } = self;
        loans.finish()
    }

    /// As `LoanSender::into_parts`.
    pub(crate) fn into_parts(self) -> (Pass, overflow::Producer<'a>, index_queue::Consumer<'a>)
        ensures view { view result.0 ≡ pass_view (sender_in self.entry) }
        ensures set { set_of result.0 ≡ set_of_sender (sender_in self.entry) }
        ensures submission { (sends.producer_queue result.1 ≡ submission_of (sender_in self.entry))
            × (sends.producer_view result.1 ≡ submission_view (sender_in self.entry)) }
        ensures completion { (returns.consumer_queue result.2 ≡ completion_of (sender_in self.entry))
            × (returns.consumer_view result.2 ≡ completion_view (sender_in self.entry)) }
    {
        let Self { loans } = self;
        loans.into_parts()
    }
}
