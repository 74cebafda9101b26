//! The calls of a sender. The contract of each gives the sender's table after the call as a function of the
//! table before it.
ghost use Rattle.std.specs.Prelude.{◌≡◌, ◌↔◌, ◌+◌, ◌*◌, ◌<◌, max, IsTrue};
ghost use Rattle.std.specs.Prelude.{IfOk, IfErr, IfSome, IfNone, slice_set, replicate};
ghost use Rattle.lock_free_sets.specs.UniqueIndexSet.{view, made, set_of, capacity_of, IsPassOf};
ghost use Rattle.steps.specs.declared.indices.enums.ReleaseState.TheVariants.{Unlocked};
ghost use Rattle.lock_free_sets.specs.Unique.Held.{HoldsNothing};
ghost use Rattle.lock_free_sets.specs.Unique.Contracts.{WasRefused, HasGiven};
ghost use Rattle.model.specs.declared.turn.Kind.TheVariants as kinds;
ghost use Rattle.model.specs.Coding.{one_word};
ghost use Rattle.history.specs.History.{IsHistory, Knows};
ghost use Rattle.history.specs.Passes.{Goes};
ghost use Rattle.history.specs.Steps.{TakesAtMost, TakesAlone};
ghost use Rattle.lock_free_queues.specs.Queues.Calls as returns;
ghost use Rattle.lock_free_queues.specs.Queues.Overflowing as sends;
ghost use Rattle.lock_free_queues.specs.Queues.Overflowing.{PushAdded, PushHandedBack, SameConsumerByCapacity};
ghost use Rattle.lock_free_loans.specs.declared.spsc.loan.places.Place.TheVariants.{Free, Sent};
ghost use Rattle.lock_free_loans.specs.Loan.Places.{is_sent, place_at, returned, IsBookOf};
ghost use Rattle.lock_free_loans.specs.Loan.Sender.{places_of, pass_view, share_of, submission_view, completion_view};
ghost use Rattle.lock_free_loans.specs.Loan.Sender.{submission_of, completion_of, KeepsQueues, set_of_sender, IsSame};
ghost use Rattle.lock_free_loans.specs.Loan.Sender.{IsSenderOf, IsLoaned};
ghost use Rattle.lock_free_loans.specs.Loan.Contracts.{InTurn, HasFreed, HasEmptied, sent_back};
ghost use Rattle.lock_free_loans.specs.Loan.Calls.{LoanKeeps, SettleKeeps, SendKeeps, TakeBackKeeps, ReclaimKeeps};
ghost use Rattle.lock_free_loans.specs.Loan.Calls.{LoanDone, SendDone, SendHandedBack, TakeBackDone, TakeBackNone, ReclaimDone};

use super::places::Place;
use super::{LoanError, LoanSender};
use lock_free_queues::spsc::{index_queue, safely_overflowing_index_queue as overflow};
use lock_free_sets::mpmc::unique_index_set::{Pass, UniqueIndexSet};
use lock_free_sets::mpmc::unique_index_set_enums::UniqueIndexSetAcquireFailure;
use std::alloc::Global;
use std::sync::Wait;

/// Pops from the queue of what was sent until a pop finds nothing.
fn empty_submission(rt: &impl Wait, receiver: &mut overflow::Consumer<'_>)
    ensures same { SameConsumerByCapacity receiver.old receiver.new }
    ensures emptied { 0 < (sends.consumer_queue receiver.old).capacity
        → HasEmptied (sends.consumer_view receiver.old) (sends.consumer_view receiver.new) }
{
    for _ in rt.forever() {
        if receiver.pop(rt).is_none() {
            return;
        }
    }
    unreachable!()
}

/// Pops from the queue of what was given back until a pop finds nothing.
fn empty_completion(rt: &impl Wait, consumer: &mut index_queue::Consumer<'_>)
    ensures queue { returns.consumer_queue consumer.new ≡ returns.consumer_queue consumer.old }
    ensures goes { Goes (returns.consumer_view consumer.old) (returns.consumer_view consumer.new) }
    ensures emptied { HasEmptied (returns.consumer_view consumer.old) (returns.consumer_view consumer.new) }
{
    for _ in rt.forever() {
        if consumer.pop().is_none() {
            return;
        }
    }
    unreachable!()
}

impl<'a> LoanSender<'a> {
    /// Makes a sender with nothing loaned, of a pass that holds nothing and the guards of two queues.
    ///
    /// Refused is memory alone (`NoMemory`): then the guards are dropped, so that both roles are free, and the pass
    /// comes back as it was.
    pub fn new(
        alloc: Global,
        set: &'a UniqueIndexSet,
        pass: Pass,
        submission: overflow::Producer<'a>,
        completion: index_queue::Consumer<'a>,
    ) -> Result<LoanSender<'a>, (LoanError, Pass)>
        requires pass { IsPassOf set.now pass }
        requires nothing { HoldsNothing (made pass) }
        ensures free { IfOk result (λ s. places_of s ≡ replicate (capacity_of set.now) Free) }
        ensures set { IfOk result (λ s. IsSenderOf set.now s) }
        ensures pass { IfOk result (λ s. pass_view s ≡ view pass) }
        ensures queues { IfOk result (λ s. (submission_of s ≡ sends.producer_queue submission.entry)
            × (completion_of s ≡ returns.consumer_queue completion.entry)) }
        ensures submission { IfOk result
            (λ s. submission_view s ≡ sends.producer_view submission.entry) }
        ensures completion { IfOk result
            (λ s. completion_view s ≡ returns.consumer_view completion.entry) }
        ensures refused { IfErr result
            (λ r. (set_of r.1 ≡ set_of pass) × (view r.1 ≡ view pass)) }
    {
        set.sizes(&pass);
        match vec![in alloc; Place::Free; set.capacity() as usize] {
            Ok(places) => Ok(LoanSender {
                set,
                pass,
                submission,
                completion,
                places,
            }),
            Err(_) => Err((LoanError::NoMemory, pass)),
        }
    }

    /// What its pass and its guards have seen are histories, as `history` of each says. It does nothing.
    pub fn history(&self)
        ensures set { Knows one_word kinds.Indices (set_of_sender self.now).capacity (pass_view self.now) }
        ensures submission { Knows one_word kinds.Overflow (submission_of self.now).capacity (submission_view self.now) }
        ensures completion { Knows one_word kinds.IndexQueue (completion_of self.now).capacity (completion_view self.now) }
        ensures seen { IsHistory one_word kinds.Indices (set_of_sender self.now).capacity (pass_view self.now).seen }
        ensures sent { sends.HasHistory (submission_of self.now).capacity (submission_view self.now) }
        ensures returned { returns.HasHistory (completion_of self.now).capacity (completion_view self.now) }
    {
        self.pass.history();
        self.submission.history();
        self.completion.history();
    }

    /// Takes an index that was Free: it is Loaned. Refused as `acquire_raw_index` of the set: `OutOfIndices` or
    /// `IsLocked`, and the table stays. Four atomic steps where nobody else steps in between and no release has fallen
    /// back to a subtraction; else it may try again for as long as others step.
    pub fn loan(&mut self, rt: &impl Wait) -> Result<u32, UniqueIndexSetAcquireFailure>
        ensures same { LoanKeeps self.old self.new }
        ensures loaned { IfOk result (λ i. LoanDone i self.old self.new) }
        ensures refused { IfErr result (λ e. (places_of self.new ≡ places_of self.old)
            × WasRefused e (pass_view self.old) (pass_view self.new)) }
        ensures steps { TakesAlone (4 + (set_of_sender self.old).capacity) (max 2 (set_of_sender self.old).capacity)
            (pass_view self.old) (pass_view self.new) }
    {
        let index = self.set.acquire_raw_index(rt, &mut self.pass)?;
        self.places[index as usize] = Place::Loaned;
        Ok(index)
    }

    /// Returns whether the index is Loaned, which `send` and `give_up` ask for. No atomic step.
    pub fn is_loaned(&self, index: u32) -> bool
        ensures { IsTrue result ↔ IsLoaned index self.now }
    {
        match self.places.get(index as usize) {
            Some(place) => *place == Place::Loaned,
            None => false,
        }
    }

    /// Gives a Loaned index back unsent: it is Free. At most 5 atomic steps.
    pub fn give_up(&mut self, index: u32)
        requires { IsLoaned index self.old }
        ensures same { LoanKeeps self.old self.new }
        ensures places { places_of self.new ≡ slice_set (places_of self.old) index Free }
        ensures given { HasGiven index Unlocked (pass_view self.old) (pass_view self.new) }
        ensures steps { TakesAtMost 5 (pass_view self.old) (pass_view self.new) }
    {
        self.places[index as usize] = Place::Free;
        self.set.release_raw_index(index, &mut self.pass);
    }

    /// Returns whether the index is Sent. No atomic step.
    fn has_sent(&self, index: u32) -> bool
        ensures { result ≡ is_sent (place_at (places_of self.now) index) }
    {
        match self.places.get(index as usize) {
            Some(place) => *place == Place::Sent,
            None => false,
        }
    }

    /// Gives an index that is Sent back to the set, and makes it Free in the table.
    fn free(&mut self, sent: u32)
        requires { IsTrue (is_sent (place_at (places_of self.old) sent)) }
        ensures places { places_of self.new ≡ slice_set (places_of self.old) sent Free }
        ensures freed { HasFreed sent (pass_view self.old) (pass_view self.new) }
        ensures queues { KeepsQueues self.old self.new }
        ensures same { IsSame self.old self.new }
        ensures share { share_of self.new ≡ share_of self.old }
        ensures steps { TakesAtMost 5 (pass_view self.old) (pass_view self.new) }
    {
        self.places[sent as usize] = Place::Free;
        self.set.release_raw_index(sent, &mut self.pass);
    }

    /// Gives an index that came back to the set if it is Sent. Any other value changes nothing. `send`
    /// and `take_back` settle what comes back to them; after `send_as` the caller does, by this call.
    /// At most 5 atomic steps.
    pub fn settle(&mut self, value: u64)
        ensures same { SettleKeeps self.old self.new }
        ensures places { places_of self.new ≡ returned value (places_of self.old) }
        ensures freed { InTurn HasFreed (sent_back value (places_of self.old)) (pass_view self.old) (pass_view self.new) }
        ensures steps { TakesAtMost 5 (pass_view self.old) (pass_view self.new) }
    {
        if value >= self.set.capacity() as u64 {
            return;
        }
        let index = value as u32;
        if self.has_sent(index) {
            self.free(index);
        }
    }

    /// Sends a Loaned index: it is Sent. The answer is that of the push. Where the queue is full, that is the oldest value,
    /// and where it takes none (it has no capacity, or is at its last position) the index itself: Free again where it is an
    /// index that is Sent, while any other value changes nothing. At most 11 atomic steps.
    pub fn send(&mut self, index: u32) -> Option<u64>
        requires { IsLoaned index self.old }
        ensures same { SendKeeps self.old self.new }
        ensures sent { IfNone result (SendDone index self.old self.new) }
        ensures handed_back { IfSome result (λ y. SendHandedBack index y self.old self.new) }
        ensures steps { TakesAtMost 5 (pass_view self.old) (pass_view self.new) }
        ensures queue_steps { TakesAtMost 6 (submission_view self.old) (submission_view self.new) }
    {
        let answer = self.submission.push(index as u64);
        self.places[index as usize] = Place::Sent;
        if let Some(oldest) = answer {
            self.settle(oldest);
        }
        answer
    }

    /// Sends a Loaned index as a number of the caller's, and makes it Sent. The receiver pops this number in place of the
    /// index. The answer is that of the push, as of `send`. It gives no index back, which `settle` does. At most 6 atomic
    /// steps.
    pub fn send_as(&mut self, index: u32, number: u64) -> Option<u64>
        requires { IsLoaned index self.old }
        ensures same { SendKeeps self.old self.new }
        ensures sent { places_of self.new ≡ slice_set (places_of self.old) index Sent }
        ensures kept { pass_view self.new ≡ pass_view self.old }
        ensures added { IfNone result (PushAdded number (submission_view self.old) (submission_view self.new)) }
        ensures handed_back { IfSome result (λ y. PushHandedBack (submission_of self.old).capacity number y
            (submission_view self.old) (submission_view self.new)) }
        ensures steps { TakesAtMost 6 (submission_view self.old) (submission_view self.new) }
    {
        let answer = self.submission.push(number);
        self.places[index as usize] = Place::Sent;
        answer
    }

    /// Takes the oldest value that the receiver gave back, and makes the index Free if it is Sent. Any other value
    /// changes nothing. None where nothing waits, and then nothing changes. At most 9 atomic steps.
    pub fn take_back(&mut self) -> Option<u64>
        ensures same { TakeBackKeeps self.old self.new }
        ensures back { IfSome result (λ y. TakeBackDone y self.old self.new) }
        ensures none { IfNone result (TakeBackNone self.old self.new) }
        ensures steps { TakesAtMost 5 (pass_view self.old) (pass_view self.new) }
        ensures queue_steps { TakesAtMost 4 (completion_view self.old) (completion_view self.new) }
    {
        let back = self.completion.pop()?;
        self.settle(back);
        Some(back)
    }

    /// Empties both queues, frees each index that is Sent, in ascending order, and returns how many it freed. It is for
    /// a sender whose receiver is gone, with the receiver's guard of the same queue. What is Loaned stays, and the set
    /// is never locked by it.
    ///
    /// Both queues are popped until nothing waits, so no bound stands where another thread gives back at the same time.
    /// At most 5 atomic steps for each index that is freed.
    pub fn reclaim(&mut self, rt: &impl Wait, receiver: &mut overflow::Consumer<'_>) -> usize
        requires { sends.consumer_queue receiver.old ≡ submission_of self.old }
        ensures same { ReclaimKeeps self.old self.new }
        ensures reclaimed { ReclaimDone result self.old self.new }
        ensures receiver { SameConsumerByCapacity receiver.old receiver.new }
        ensures receiver_emptied { 0 < (sends.consumer_queue receiver.old).capacity
            → HasEmptied (sends.consumer_view receiver.old) (sends.consumer_view receiver.new) }
        ensures steps { TakesAtMost (5 * result) (pass_view self.old) (pass_view self.new) }
    {
        empty_submission(rt, receiver);
        empty_completion(rt, &mut self.completion);
        let mut number = 0;
        for index in 0..self.set.capacity() {
            if self.has_sent(index) {
                self.free(index);
                number += 1;
            }
        }
        number
    }

    /// Hands out the pass, which holds what is Loaned or Sent, and gives both roles back.
    pub fn finish(self) -> Pass
        ensures view { view result ≡ pass_view self.entry }
        ensures set { set_of result ≡ set_of_sender self.entry }
    {
        let LoanSender {
            set: _,
            pass,
            submission: _,
            completion: _,
            places: _,
        } = self;
        pass
    }

    /// Hands out the pass, which holds what is Loaned or Sent, and the guards of both queues. No atomic step.
    pub fn into_parts(self) -> (Pass, overflow::Producer<'a>, index_queue::Consumer<'a>)
        ensures view { view result.0 ≡ pass_view self.entry }
        ensures set { set_of result.0 ≡ set_of_sender self.entry }
        ensures submission { (sends.producer_queue result.1 ≡ submission_of self.entry)
            × (sends.producer_view result.1 ≡ submission_view self.entry) }
        ensures completion { (returns.consumer_queue result.2 ≡ completion_of self.entry)
            × (returns.consumer_view result.2 ≡ completion_view self.entry) }
    {
        let LoanSender {
            set: _,
            pass,
            submission,
            completion,
            places: _places,
        } = self;
        (pass, submission, completion)
    }

    /// Tells a caller's proof that the pass holds exactly the indices that are Loaned or Sent, each once. It does
    /// nothing.
    pub fn holds(&self)
        ensures { IsBookOf (pass_view self.now) (places_of self.now) }
    {}
}
