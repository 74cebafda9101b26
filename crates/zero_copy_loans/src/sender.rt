//! The end of the channel that loans places, writes values and sends them, and takes places back.
ghost use Rattle.std.specs.Prelude.{◌≡◌, ◌+◌, ◌-◌, ◌^◌, ◌<◌, ◌↔◌, IsTrue, IfOk, IfErr, IfSome, IsSomeAnd, IfNone};
ghost use Rattle.std.specs.Prelude.{[], ◌++◌, count_by, map, slice_set, vec_len};
ghost use Rattle.lock_free_loans.specs.Loan.Contracts.{HasEmptied};
ghost use Rattle.lock_free_loans.specs.Loan.Places.{is_sent, place_at, reclaimed, returned};
ghost use Rattle.lock_free_loans.specs.Loan.Sender.{completion_of, completion_view, pass_view, set_of_sender, submission_of, IsLoaned, IsSame};
ghost use Rattle.lock_free_loans.specs.declared.spsc.loan.places.Place.TheVariants.{Free, Loaned, Sent};
ghost use Rattle.model.specs.declared.event.Item.TheVariants.{Index};
ghost use Rattle.history.specs.Passes.{Goes};
ghost use Rattle.lock_free_queues.specs.Queues.Overflowing.{consumer_queue, consumer_view, PushAdded, SameConsumerByCapacity};
ghost use Rattle.lock_free_queues.specs.Queues.Contracts.{HasReleased, PopDone, PopEmpty};
ghost use Rattle.model.specs.Families.Queues.Reading.{published};
ghost use Rattle.lock_free_queues.specs.Queues.Rings as queues;
ghost use Rattle.steps.specs.declared.queues.roles.Role.TheVariants as roles;
ghost use Rattle.lock_free_sets.specs.UniqueIndexSet.{set_of, view};
ghost use Rattle.zero_copy_loans.specs.Words.{IsRoomFor};
ghost use Rattle.zero_copy_slots.specs.Slots.{slots_in, slot_of};
ghost use Rattle.zero_copy_slots.specs.Words.{emptied_slot};

use crate::error::LoanFailure;
use crate::words::{Layout, Loans};
use lock_free_loans::spsc::loan::LoanSender;
use lock_free_queues::spsc::{index_queue, safely_overflowing_index_queue as overflow};
use lock_free_sets::mpmc::unique_index_set::Pass;
use std::alloc::Global;
use std::ops::Deref;
use std::sync::Wait;
use std::thread;
use zero_copy_slots::words::Emptied;
use zero_copy_slots::{Anything, Keeps, Slots, Writer, Writing};

/// A place that is Loaned, and a value for it that is written in plain memory, until it is sent or given up. It stays in its
/// thread. Where it is dropped, its value and what lay in its slot are dropped for good, and its place stays Loaned until it is
/// regained. Where it is forgotten, its place stays Loaned for good.
pub struct Loan<'a, X: Drop, K: Keeps<X> = Anything> {
    place: u32,
    /// The value to write. At first it is a value that was sent or given up before, or a spare as the sender was given it.
    pub value: X,
    writing: Writing<'a, X, K>,
    ghost at: { slot_of writing ≡ place },
}

impl<'a, X: Drop, K: Keeps<X>> Drop for Loan<'a, X, K> {
    fn drop(self) {
        let Self {
            place: _,
            value: _value,
            writing: _writing,
        } = self;
    }
}

/// `*loan` is the value, to be read. It is written as `loan.value`.
impl<'a, X: Drop, K: Keeps<X>> Deref for Loan<'a, X, K> {
    type Target = X;

    ghost deref_gives = { λ l x. x ≡ l.value };

    fn deref(&self) -> &X {
        &self.value
    }
}

impl<'a, X: Drop, K: Keeps<X>> Loan<'a, X, K> {
    ghost use Rattle.zero_copy_loans.specs.Ends.{loaned};

    /// The number of the place. No atomic step.
    pub fn place(&self) -> u32
        ensures { result ≡ loaned self.now }
    {
        self.place
    }

    fn into_parts(self) -> (X, Writing<'a, X, K>)
        ensures value { result.0 ≡ self.entry.value }
        ensures at { slot_of result.1 ≡ loaned self.entry }
    {
        let Self {
            place: _,
            value,
            writing,
        } = self;
        (value, writing)
    }
}

/// A value that is not received: its number, and the place that it lay in.
#[derive(Debug, Clone, Copy, PartialEq, Eq)]
pub struct Back {
    pub number: u64,
    pub place: u32,
}

impl Back {
    ghost use Rattle.zero_copy_loans.specs.Ends.{numbers_back};

    /// Appends the number of the value that came back, if one did. None where there is no memory.
    fn note(came: Option<Back>, back: &mut Vec<u64>) -> Option<()>
        ensures { IfSome result (λ _. back.new.items ≡ back.old.items ++ numbers_back came) }
    {
        match came {
            Some(Back { number, place: _ }) => back.push(number).ok(),
            None => Some(()),
        }
    }
}

/// A writer of values: it writes a value so that it keeps its rule with the given number. False where it cannot.
pub trait Writes<X, K: Keeps<X>> {
    fn write(&mut self, number: u64, value: &mut X) -> bool
        ensures { IsTrue result → K.holds number value.new };
}

/// The parts of which a sender of a channel is made: a pass of the set and one of each queue, and the number that comes next.
#[derive(Drop)]
pub struct SenderParts {
    pub pass: Pass,
    pub submission: overflow::Pass,
    pub completion: index_queue::Pass,
    pub next: u64,
}

/// Keeps the value that lay in a slot, if one did, to be written again.
fn keep<X: Drop>(spares: &mut Vec<X>, old: Option<(u64, X)>) {
    if let Some((_, value)) = old {
        let _ = spares.push(value);
    }
}

/// A sender of values: a `LoanSender`, whose table says where each place is, with a slot for each place.
pub struct Sender<'a, X: Drop, K: Keeps<X> = Anything> {
    loans: Loans<'a>,
    writer: Writer<'a, X, K>,
    spares: Vec<X>,
    layout: Layout,
    next: u64,
}

impl<'a, X: Drop, K: Keeps<X>> Drop for Sender<'a, X, K> {
    fn drop(self) {
        let Self {
            loans: _loans,
            writer: _writer,
            spares: _spares,
            layout: _,
            next: _,
        } = self;
    }
}

impl<'a, X: Drop, K: Keeps<X>> Sender<'a, X, K> {
    ghost use Rattle.zero_copy_loans.specs.Ends.{layout_of, loaned, next_of, numbers_back, places_of, sender_of};
    ghost use Rattle.zero_copy_loans.specs.Ends.{sends_queue, sends_view, sent_queue, sent_view};
    ghost use Rattle.zero_copy_loans.specs.Ends.{slots_of, spares_in, word_next, HandsBack, HasSent, HasSentAll, HasWord, IsForeign, IsRefused, KeepsSends};

    /// A sender of values, over slots that are meant to be as many as the set of the `LoanSender` has indices, and with values
    /// to write, which need not keep the rule yet: one more than there are slots, and one more for each further loan that is in
    /// hand at a time. A loan that is dropped takes up to two of them away. Nobody else may write the slots. No atomic step.
    pub fn new(loans: LoanSender<'a>, slots: &'a Slots<X, K>, spares: Vec<X>) -> Sender<'a, X, K>
        ensures loans { sender_of result ≡ loans.entry }
        ensures spares { spares_in result ≡ vec_len spares }
        ensures next { next_of result ≡ 0 }
        ensures slots { slots_of result ≡ slots_in slots.now }
        ensures room { IsRoomFor (slots_in slots.now) (layout_of result).room }
    {
        let layout = Layout::new(slots.number());
        Sender::of(loans, slots, spares, layout, 0)
    }

    /// A sender as by `new`, with this layout of the words and this next number.
    pub(crate) fn of(
        loans: LoanSender<'a>,
        slots: &'a Slots<X, K>,
        spares: Vec<X>,
        layout: Layout,
        next: u64,
    ) -> Sender<'a, X, K>
        ensures loans { sender_of result ≡ loans.entry }
        ensures spares { spares_in result ≡ vec_len spares }
        ensures layout { layout_of result ≡ layout }
        ensures next { next_of result ≡ next }
    {
        Sender {
            loans: Loans::of(loans),
            writer: Writer::new(slots),
            spares,
            layout,
            next,
        }
    }

    /// Loans a place that was Free, with a value to write: the place is Loaned. Refused as follows:
    /// - where no value is left to write (`NoValue`), and then nothing changes;
    /// - where no index is left, or the set is locked (`NoPlace`), and then the table stays;
    /// - where somebody reads the place's slot although the place was Free, or where the place has no slot (`StillRead`, with the
    ///   reason why the slot was not taken). The place stays Loaned, so that the next loan gets another; `regain` tries it again.
    ///
    /// The steps of `LoanSender::loan`, and on the slot a load and at most one compare-exchange.
    pub fn loan(&mut self, rt: &impl Wait) -> Result<Loan<'a, X, K>, LoanFailure>
        ensures loaned { IfOk result (λ l. (place_at (places_of self.old) (loaned l) ≡ Free)
            × (places_of self.new ≡ slice_set (places_of self.old) (loaned l) Loaned)) }
        ensures is { IfOk result (λ l. IsLoaned (loaned l) (sender_of self.new)) }
        ensures spares { IfOk result (λ l. spares_in self.new + 1 ≡ spares_in self.old) }
        ensures refused { IfErr result (IsRefused self.old self.new) }
        ensures next { next_of self.new ≡ next_of self.old }
        ensures same { IsSame (sender_of self.old) (sender_of self.new) }
        ensures sends { KeepsSends self.old self.new }
    {
        if self.spares.is_empty() {
            return Err(LoanFailure::NoValue);
        }
        let place = match self.loans.loan(rt) {
            Ok(place) => place,
            Err(failure) => return Err(LoanFailure::NoPlace(failure)),
        };
        let writing = match self.writer.take(place) {
            Ok(writing) => writing,
            Err(failure) => return Err(LoanFailure::StillRead(place, failure)),
        };
        let Some(value) = self.spares.pop() else {
            unreachable!()
        };
        Ok(Loan {
            place,
            value,
            writing,
        })
    }

    /// Whether the place of the loan's number is Loaned at this sender, as `send` and `give_up` ask. A loan of another channel
    /// whose place has the same number is not told apart. No atomic step.
    pub fn is_loaned(&self, loan: &Loan<'a, X, K>) -> bool
        ensures { IsTrue result ↔ IsLoaned (loaned loan.now) (sender_of self.now) }
    {
        self.loans.is_loaned(loan.place)
    }

    /// A loan, by at most `tries` tries (by no clause). After a try that is refused it takes back a place, or lets another
    /// thread run where no place came. None where each try was refused. A place that is `StillRead` stays Loaned. For each try,
    /// the steps of `loan` and those of `take_back`.
    pub fn loan_within(&mut self, rt: &impl Wait, tries: u64) -> Option<Loan<'a, X, K>>
        ensures is { IfSome result (λ l. IsLoaned (loaned l) (sender_of self.new)) }
        ensures sends { KeepsSends self.old self.new }
    {
        for _ in 0..tries {
            if let Ok(loan) = self.loan(rt) {
                return Some(loan);
            }
            if self.take_back().is_none() {
                thread::yield_now();
            }
        }
        None
    }

    /// A loan, as soon as there is a free place. After a try that is refused it takes back a place, or lets another thread run
    /// where no place came. It waits for good where no place comes back, or no value is left to write, and a place that is
    /// `StillRead` stays Loaned. For each try, the steps of `loan` and those of `take_back`.
    pub fn loan_waiting(&mut self, rt: &impl Wait) -> Loan<'a, X, K>
        ensures is { IsLoaned (loaned result) (sender_of self.new) }
        ensures sends { KeepsSends self.old self.new }
    {
        for _ in rt.forever() {
            if let Ok(loan) = self.loan(rt) {
                return loan;
            }
            if self.take_back().is_none() {
                thread::yield_now();
            }
        }
        unreachable!()
    }

    /// Whether there is a number for this loan. From the one past the last number on `send` sends nothing. No atomic step.
    pub fn has_number(&self, loan: &Loan<'a, X, K>) -> bool
        ensures { IsTrue result ↔ HasWord self.now (loaned loan.now) }
    {
        self.layout.has(self.next, loan.place)
    }

    /// Sends a value, which has to keep its rule with the number that comes next: its place is Sent. If the queue is full, the
    /// oldest value that waited comes back. If the queue takes none (it has no capacity, or is at its last position), the value
    /// itself comes back. The place of what came back is Free again if it was Sent. The numbers of values rise by one with each.
    ///
    /// A number and a place go into one word, so there are 2^64 numbers divided by the places rounded up to a power of two (at
    /// least 2). From the one past the last nothing is sent any more (`IsUnsent`): each value comes back at once, its place
    /// Free. A loan of another channel whose place is not Loaned here is not sent either (`IsForeign`): its place comes back
    /// with the number that comes next, and it is given up as by `give_up`.
    ///
    /// One step on the slot, and those of `LoanSender::send`.
    pub fn send(&mut self, loan: Loan<'a, X, K>) -> Option<Back>
        requires fits { K.holds (next_of self.old) loan.value }
        ensures sent { IfNone result (places_of self.new ≡ slice_set (places_of self.old) (loaned loan.entry) Sent) }
        ensures back { IsLoaned (loaned loan.entry) (sender_of self.old) → IfSome result (λ y. places_of self.new
            ≡ returned y.place (slice_set (places_of self.old) (loaned loan.entry) Sent)) }
        ensures foreign { ¬ IsLoaned (loaned loan.entry) (sender_of self.old) → IsSomeAnd result (λ y. IsForeign (loaned loan.entry) y self.old self.new) }
        ensures added { IfNone result (HasWord self.old (loaned loan.entry)
            × PushAdded (word_next self.old (loaned loan.entry)) (sends_view self.old) (sends_view self.new)) }
        ensures handed_back { IfSome result (λ y. HandsBack (loaned loan.entry) y self.old self.new) }
        ensures goes { IsLoaned (loaned loan.entry) (sender_of self.old) → HasWord self.old (loaned loan.entry)
            → 0 < (sends_queue self.old).capacity → Goes (sends_view self.old) (sends_view self.new) }
        ensures next { IsLoaned (loaned loan.entry) (sender_of self.old) → HasWord self.old (loaned loan.entry) → next_of self.new ≡ next_of self.old + 1 }
        ensures sends { IsLoaned (loaned loan.entry) (sender_of self.old) → HasWord self.old (loaned loan.entry)
            → HasSent 1 (numbers_back result) self.old self.new }
        ensures layout { layout_of self.new ≡ layout_of self.old }
        ensures same { IsSame (sender_of self.old) (sender_of self.new) }
    {
        let place = loan.place;
        let number = self.next;
        if !self.loans.is_loaned(place) {
            self.give_up(loan);
            return Some(Back { number, place });
        }
        if !self.layout.has(number, place) {
            self.give_up(loan);
            return Some(Back { number, place });
        }
        let (value, writing) = loan.into_parts();
        let (lying, before) = self.writer.put(writing, number, value);
        keep(&mut self.spares, before);
        self.next = number + 1;
        let back = self.loans.send(&self.layout, &lying)?;
        let (number, place) = self.layout.parts(back);
        self.loans.settle(place as u64);
        Some(Back { number, place })
    }

    /// A loan whose value is written so that it keeps its rule with the next number, if there is one. Else it is given up.
    fn written(
        &mut self,
        mut loan: Loan<'a, X, K>,
        writer: &mut impl Writes<X, K>,
    ) -> Option<Loan<'a, X, K>>
        requires { IsLoaned (loaned loan) (sender_of self.old) }
        ensures fits { IfSome result (λ l. K.holds (next_of self.new) l.value) }
        ensures is { IfSome result (λ l. IsLoaned (loaned l) (sender_of self.new)) }
        ensures has { IfSome result (λ l. HasWord self.new (loaned l)) }
        ensures sends { KeepsSends self.old self.new }
    {
        if self.has_number(&loan) && writer.write(self.next, &mut loan.value) {
            return Some(loan);
        }
        self.give_up(loan);
        None
    }

    /// Loans, writes and sends `count` values, each loan by at most `tries` tries. Returns the numbers of those that came back.
    /// None where no place came, where a value was not written, or where there is no memory or no further number; the values
    /// before that one are sent. The steps of `loan_within` and of `send` for each.
    pub fn send_each(
        &mut self,
        rt: &impl Wait,
        alloc: Global,
        count: u32,
        tries: u64,
        writer: &mut impl Writes<X, K>,
    ) -> Option<Vec<u64>>
        ensures { IfSome result (λ back. HasSent count back.items self.old self.new) }
    {
        let mut back = Vec::new(alloc);
        for _ in 0..count {
            let loan = self.loan_within(rt, tries)?;
            let written = self.written(loan, writer)?;
            let came = self.send(written);
            Back::note(came, &mut back)?;
        }
        Some(back)
    }

    /// Gives a loan up: its place is Free, and its value and what lay in its slot are kept to be written again (by no clause).
    /// A loan of another channel is given up too: if its place is not Loaned here, no place changes, and at the other channel
    /// it stays Loaned until it is regained. One step on the slot, and those of `LoanSender::give_up`.
    pub fn give_up(&mut self, loan: Loan<'a, X, K>)
        ensures places { IsLoaned (loaned loan.entry) (sender_of self.old) → places_of self.new ≡ slice_set (places_of self.old) (loaned loan.entry) Free }
        ensures foreign { ¬ IsLoaned (loaned loan.entry) (sender_of self.old) → sender_of self.new ≡ sender_of self.old }
        ensures next { next_of self.new ≡ next_of self.old }
        ensures same { IsSame (sender_of self.old) (sender_of self.new) }
        ensures sends { KeepsSends self.old self.new }
    {
        let place = loan.place;
        let (value, writing) = loan.into_parts();
        let _ = self.spares.push(value);
        keep(&mut self.spares, writing.empty());
        if self.loans.is_loaned(place) {
            self.loans.give_up(place);
        }
    }

    /// Tries a place again that is Loaned without a loan, since it was `StillRead` or its loan was dropped. If nobody reads its
    /// slot any more, the slot is left empty and the place is Free. None where the place is not Loaned, where somebody still
    /// reads it, or where its loan is in hand (which of these, no clause says); then no place changes. A load, at most one
    /// compare-exchange and one further step on the slot, and those of `LoanSender::give_up`.
    pub fn regain(&mut self, place: u32) -> Option<Emptied>
        ensures had { IfSome result (λ _. IsLoaned place (sender_of self.old)) }
        ensures emptied { IfSome result (λ e. emptied_slot e ≡ place) }
        ensures free { IfSome result (λ _. places_of self.new ≡ slice_set (places_of self.old) place Free) }
        ensures refused { IfNone result (places_of self.new ≡ places_of self.old) }
        ensures next { next_of self.new ≡ next_of self.old }
        ensures same { IsSame (sender_of self.old) (sender_of self.new) }
        ensures sends { KeepsSends self.old self.new }
    {
        if !self.loans.is_loaned(place) {
            return None;
        }
        let Ok(writing) = self.writer.take(place) else {
            return None;
        };
        let (emptied, before) = writing.clear();
        keep(&mut self.spares, before);
        self.loans.give_up(place);
        Some(emptied)
    }

    /// Takes the oldest number that the receiver gave back. If it is a place that is Sent, the place is Free again, and else no
    /// place changes. None where nothing waits, and then nothing changes. The steps of `LoanSender::take_back`.
    pub fn take_back(&mut self) -> Option<u64>
        ensures back { IfSome result (λ y. places_of self.new ≡ returned y (places_of self.old)) }
        ensures popped { IfSome result (λ y. PopDone (Index y) (completion_view (sender_of self.old)) (completion_view (sender_of self.new))) }
        ensures none { IfNone result (places_of self.new ≡ places_of self.old) }
        ensures empty { IfNone result (PopEmpty (completion_view (sender_of self.old)) (completion_view (sender_of self.new))) }
        ensures next { next_of self.new ≡ next_of self.old }
        ensures spares { spares_in self.new ≡ spares_in self.old }
        ensures same { IsSame (sender_of self.old) (sender_of self.new) }
        ensures sends { KeepsSends self.old self.new }
    {
        self.loans.take_back()
    }

    /// Empties both queues, frees each place that is Sent, and returns how many places it freed. For a sender
    /// whose receiver is gone, with the receiver's guard of the queue. No sample of the former receiver may
    /// be used afterwards. The steps of `LoanSender::reclaim`.
    pub fn reclaim(&mut self, rt: &impl Wait, receiver: &mut overflow::Consumer<'_>) -> usize
        requires { consumer_queue receiver.old ≡ submission_of (sender_of self.old) }
        ensures places { places_of self.new ≡ map reclaimed (places_of self.old) }
        ensures number { result ≡ count_by is_sent (places_of self.old) }
        ensures emptied { HasEmptied (completion_view (sender_of self.old)) (completion_view (sender_of self.new)) }
        ensures receiver { SameConsumerByCapacity receiver.old receiver.new }
        ensures receiver_emptied { 0 < (consumer_queue receiver.old).capacity → HasEmptied (consumer_view receiver.old) (consumer_view receiver.new) }
        ensures next { next_of self.new ≡ next_of self.old }
        ensures spares { spares_in self.new ≡ spares_in self.old }
        ensures same { IsSame (sender_of self.old) (sender_of self.new) }
        ensures sends { KeepsSends self.old self.new }
    {
        self.loans.reclaim(rt, receiver)
    }

    /// The number that the next value to be sent gets: 0 for the first. No atomic step.
    pub fn next_number(&self) -> u64
        ensures { result ≡ next_of self.now }
    {
        self.next
    }

    /// Hands out the pass of the set, which holds the places that are Loaned or Sent, and the values that are not in a slot.
    /// Both roles of the queues are free. Two atomic steps.
    pub fn finish(self) -> (Pass, Vec<X>)
        ensures view { view result.0 ≡ pass_view (sender_of self.entry) }
        ensures set { set_of result.0 ≡ set_of_sender (sender_of self.entry) }
        ensures spares { vec_len result.1 ≡ spares_in self.entry }
    {
        let Sender {
            loans,
            writer: _writer,
            spares,
            layout: _,
            next: _,
        } = self;
        (loans.finish(), spares)
    }

    /// Hands out what `finish` does, with the passes of both queues and the number that comes next, for `Channel::relayed`.
    pub fn finish_all(self) -> (SenderParts, Vec<X>)
        ensures view { view result.0.pass ≡ pass_view (sender_of self.entry) }
        ensures set { set_of result.0.pass ≡ set_of_sender (sender_of self.entry) }
        ensures goes { Goes (sends_view self.entry) (sent_view result.0) }
        ensures released { HasReleased roles.Producer (sends_view self.entry) (sent_view result.0) }
        ensures list { published (sent_view result.0).seen ≡ published (sends_view self.entry).seen }
        ensures queues { (sent_queue result.0 ≡ sends_queue self.entry) × (queues.queue_of result.0.completion ≡ completion_of (sender_of self.entry)) }
        ensures sends { HasSentAll 0 [] self.entry result.0 }
        ensures next { result.0.next ≡ next_of self.entry }
        ensures spares { vec_len result.1 ≡ spares_in self.entry }
    {
        let Sender {
            loans,
            writer: _writer,
            spares,
            layout: _,
            next,
        } = self;
        let (pass, producer, consumer) = loans.into_parts();
        let parts = SenderParts {
            pass,
            submission: producer.release(),
            completion: consumer.release(),
            next,
        };
        (parts, spares)
    }
}
