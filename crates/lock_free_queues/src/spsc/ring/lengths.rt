//! The calls `len`, `is_empty`, `is_full` and `capacity` of a queue, its handles and its guards.
ghost use Rattle.std.specs.Prelude.{◌≡◌, ◌≤◌};
ghost use Rattle.steps.specs.declared.queues.roles.Role.{Role};
ghost use Rattle.model.specs.declared.event.Answer.TheVariants.{Number, Truth};
ghost use Rattle.model.specs.declared.families.queues.calls.LengthOf.TheVariants as measures;
ghost use Rattle.model.specs.Coding.{coding_by};
ghost use Rattle.model.specs.Families.Queues.Calls.{length_answer};
ghost use Rattle.threaded.specs.Seats.{seen, IsSame};
ghost use Rattle.history.specs.Steps.{TakesAlone};
ghost use Rattle.lock_free_queues.specs.Queues.Kinds.{most_waiting};
ghost use Rattle.lock_free_queues.specs.Queues.Measuring.{IsBoard, CountAt, CountEnds, CountNext};
ghost use Rattle.lock_free_queues.specs.Queues.Roles.{Moved};
ghost use Rattle.lock_free_queues.specs.Queues.Rings.{capacity_of, token_queue, token_view, view};
ghost use Rattle.lock_free_queues.specs.Queues.Rings.{producer_queue, producer_view, consumer_queue, consumer_view};
ghost use Rattle.lock_free_queues.specs.Queues.Rings.{IsPassOf, IsSameQueue, SamePass, SameProducer, SameConsumer};
ghost use Rattle.lock_free_queues.specs.Queues.Contracts.{HasMeasured};

use super::drives::{Emptiness, Fullness, Length, Measure, Measures};
use super::rule::{Kind, Origin, RingRule};
use super::{Consumer, Held, Pass, Producer, Ring};
use history::view::View;
use std::sync::Wait;
use steps::ask::After;
use steps::queues::lengths::Len;
use steps::words::Words;
use threaded::driver::seated::Seated;

type Seat<E, T> = Seated<View<T>, Origin, RingRule<E, T>>;

/// Takes one step of a call that counts what waits.
#[inline(always)]
fn step_count<E: Kind, T: Words, W: Measure>(seat: &mut Seat<E, T>, call: Len) -> After<Len, u64>
    requires board { IsBoard T.WORDS E.KIND seat.old }
    requires at { (base : View T) × CountAt (coding_by T.Words) E.KIND W.WHICH base (seen seat.old) call tt }
    ensures same { IsSame seat.old seat.new }
    ensures board { IsBoard T.WORDS E.KIND seat.new }
    ensures goes { (base : View T) → CountAt (coding_by T.Words) E.KIND W.WHICH base (seen seat.old) call tt
        → CountNext (coding_by T.Words) E.KIND W.WHICH base result (seen seat.new) }
{
    seat.step::<Len, Measures<E, W>>(call, &(), &mut ())
}

/// Takes the first four steps of the call, without a loop. If no position moves meanwhile, the
/// call ends by the fourth.
#[inline(always)]
fn count_once<E: Kind, T: Words, W: Measure>(seat: &mut Seat<E, T>, first: Len) -> After<Len, u64>
    requires board { IsBoard T.WORDS E.KIND seat.old }
    requires at { CountAt (coding_by T.Words) E.KIND W.WHICH (seen seat.old) (seen seat.old) first tt }
    ensures same { IsSame seat.old seat.new }
    ensures board { IsBoard T.WORDS E.KIND seat.new }
    ensures goes { CountNext (coding_by T.Words) E.KIND W.WHICH (seen seat.old) result (seen seat.new) }
{
    let one = step_count::<E, T, W>(seat, first);
    let second = match one {
        After::GoOn(next) => next,
        After::Done(number) => return After::Done(number),
    };
    let two = step_count::<E, T, W>(seat, second);
    let third = match two {
        After::GoOn(next) => next,
        After::Done(number) => return After::Done(number),
    };
    let three = step_count::<E, T, W>(seat, third);
    let fourth = match three {
        After::GoOn(next) => next,
        After::Done(number) => return After::Done(number),
    };
    step_count::<E, T, W>(seat, fourth)
}

/// Takes the further steps of a call that did not end by its fourth step, since a position moved.
#[inline(never)]
fn count_on<E: Kind, T: Words, W: Measure>(seat: &mut Seat<E, T>, rt: &impl Wait, first: Len) -> u64
    requires board { IsBoard T.WORDS E.KIND seat.old }
    requires at { (base : View T) × CountAt (coding_by T.Words) E.KIND W.WHICH base (seen seat.old) first tt }
    ensures same { IsSame seat.old seat.new }
    ensures board { IsBoard T.WORDS E.KIND seat.new }
    ensures ends { (base : View T) → CountAt (coding_by T.Words) E.KIND W.WHICH base (seen seat.old) first tt
        → CountEnds (coding_by T.Words) E.KIND W.WHICH base result tt (seen seat.new) }
{
    let mut call = first;
    for _ in rt.forever() {
        match step_count::<E, T, W>(seat, call) {
            After::GoOn(next) => call = next,
            After::Done(number) => return number,
        }
    }
    unreachable!()
}

/// Takes all steps of the call, from its first one on.
#[inline(always)]
fn count_all<E: Kind, T: Words, W: Measure>(
    seat: &mut Seat<E, T>,
    rt: &impl Wait,
    first: Len,
) -> u64
    requires board { IsBoard T.WORDS E.KIND seat.old }
    requires at { CountAt (coding_by T.Words) E.KIND W.WHICH (seen seat.old) (seen seat.old) first tt }
    ensures same { IsSame seat.old seat.new }
    ensures board { IsBoard T.WORDS E.KIND seat.new }
    ensures ends { CountEnds (coding_by T.Words) E.KIND W.WHICH (seen seat.old) result tt (seen seat.new) }
{
    let once = count_once::<E, T, W>(seat, first);
    match once {
        After::GoOn(next) => count_on::<E, T, W>(seat, rt, next),
        After::Done(number) => number,
    }
}

impl<E: Kind, T: Words> Held<E, T, RingRule<E, T>> {
    /// Returns how many values waited at one moment of the call. W says which of the three calls it is for.
    fn measure<W: Measure>(&mut self, rt: &impl Wait) -> u64
        ensures same { IsSameQueue self.old self.new }
        ensures measured { HasMeasured W.WHICH (token_queue self.old).capacity
            (length_answer W.WHICH (token_queue self.old).capacity result) (token_view self.old) (token_view self.new) }
        ensures few { W.WHICH ≡ measures.Len → result ≤ most_waiting E.KIND (token_queue self.old).capacity }
        ensures steps { TakesAlone 4 4 (token_view self.old) (token_view self.new) }
        ensures roles { (r : Role) → Moved r 0 0 (token_view self.old).made (token_view self.new).made }
    {
        let call = Len::new(self.capacity);
        count_all::<E, T, W>(&mut self.seated, rt, call)
    }
}

impl<E: Kind, T: Words> Ring<E, T> {
    /// Returns how many values waited at one moment of the call. At most the capacity, or one more in an overflowing
    /// queue while a push is under way. At most 4 atomic steps, and 4 more for each change of a word of the queue by
    /// others during the call. After `len` of the Rust crate.
    pub fn len(&self, rt: &impl Wait, pass: &mut Pass<E, T>) -> usize
        requires { IsPassOf self.now pass.old }
        ensures same { SamePass pass.old pass.new }
        ensures counted { HasMeasured measures.Len (capacity_of self.now) (Number result)
            (view pass.old) (view pass.new) }
        ensures few { result ≤ most_waiting E.KIND (capacity_of self.now) }
        ensures steps { TakesAlone 4 4 (view pass.old) (view pass.new) }
    {
        pass.token.measure::<Length>(rt) as usize
    }

    /// Returns whether no value waited at one moment of the call. As many atomic steps as `len`. After `is_empty` of
    /// the Rust crate.
    pub fn is_empty(&self, rt: &impl Wait, pass: &mut Pass<E, T>) -> bool
        requires { IsPassOf self.now pass.old }
        ensures same { SamePass pass.old pass.new }
        ensures measured { HasMeasured measures.IsEmpty (capacity_of self.now) (Truth result)
            (view pass.old) (view pass.new) }
        ensures steps { TakesAlone 4 4 (view pass.old) (view pass.new) }
    {
        pass.token.measure::<Emptiness>(rt) == 0
    }

    /// Returns whether as many values as the capacity waited at one moment of the call. In an overflowing queue one more
    /// can wait, and then it returns false. As many atomic steps as `len`. After `is_full` of the Rust crate.
    pub fn is_full(&self, rt: &impl Wait, pass: &mut Pass<E, T>) -> bool
        requires { IsPassOf self.now pass.old }
        ensures same { SamePass pass.old pass.new }
        ensures measured { HasMeasured measures.IsFull (capacity_of self.now) (Truth result)
            (view pass.old) (view pass.new) }
        ensures steps { TakesAlone 4 4 (view pass.old) (view pass.new) }
    {
        pass.token.measure::<Fullness>(rt) == self.capacity as u64
    }

    /// Returns the capacity that it was made with. After `capacity` of the Rust crate.
    pub fn capacity(&self) -> usize
        ensures { result ≡ capacity_of self.now }
    {
        self.capacity as usize
    }
}

impl<'a, E: Kind, T: Words> Producer<'a, E, T> {
    /// Does as `len` of its queue, in as many atomic steps. This project's own.
    pub fn len(&mut self, rt: &impl Wait) -> usize
        ensures same { SameProducer self.old self.new }
        ensures counted { HasMeasured measures.Len (producer_queue self.old).capacity (Number result)
            (producer_view self.old) (producer_view self.new) }
        ensures few { result ≤ most_waiting E.KIND (producer_queue self.old).capacity }
        ensures steps { TakesAlone 4 4 (producer_view self.old) (producer_view self.new) }
    {
        self.token.measure::<Length>(rt) as usize
    }

    /// Does as `is_empty` of its queue, in as many atomic steps. This project's own.
    pub fn is_empty(&mut self, rt: &impl Wait) -> bool
        ensures same { SameProducer self.old self.new }
        ensures measured { HasMeasured measures.IsEmpty (producer_queue self.old).capacity (Truth result)
            (producer_view self.old) (producer_view self.new) }
        ensures steps { TakesAlone 4 4 (producer_view self.old) (producer_view self.new) }
    {
        self.token.measure::<Emptiness>(rt) == 0
    }

    /// Does as `is_full` of its queue, in as many atomic steps. This project's own.
    pub fn is_full(&mut self, rt: &impl Wait) -> bool
        ensures same { SameProducer self.old self.new }
        ensures measured { HasMeasured measures.IsFull (producer_queue self.old).capacity (Truth result)
            (producer_view self.old) (producer_view self.new) }
        ensures steps { TakesAlone 4 4 (producer_view self.old) (producer_view self.new) }
    {
        self.token.measure::<Fullness>(rt) == self.token.capacity as u64
    }

    /// Returns the capacity of its queue. This project's own.
    pub fn capacity(&self) -> usize
        ensures { result ≡ (producer_queue self.now).capacity }
    {
        self.token.capacity as usize
    }
}

impl<'a, E: Kind, T: Words> Consumer<'a, E, T> {
    /// Does as `len` of its queue, in as many atomic steps. This project's own.
    pub fn len(&mut self, rt: &impl Wait) -> usize
        ensures same { SameConsumer self.old self.new }
        ensures counted { HasMeasured measures.Len (consumer_queue self.old).capacity (Number result)
            (consumer_view self.old) (consumer_view self.new) }
        ensures few { result ≤ most_waiting E.KIND (consumer_queue self.old).capacity }
        ensures steps { TakesAlone 4 4 (consumer_view self.old) (consumer_view self.new) }
    {
        self.token.measure::<Length>(rt) as usize
    }

    /// Does as `is_empty` of its queue, in as many atomic steps. This project's own.
    pub fn is_empty(&mut self, rt: &impl Wait) -> bool
        ensures same { SameConsumer self.old self.new }
        ensures measured { HasMeasured measures.IsEmpty (consumer_queue self.old).capacity (Truth result)
            (consumer_view self.old) (consumer_view self.new) }
        ensures steps { TakesAlone 4 4 (consumer_view self.old) (consumer_view self.new) }
    {
        self.token.measure::<Emptiness>(rt) == 0
    }

    /// Does as `is_full` of its queue, in as many atomic steps. This project's own.
    pub fn is_full(&mut self, rt: &impl Wait) -> bool
        ensures same { SameConsumer self.old self.new }
        ensures measured { HasMeasured measures.IsFull (consumer_queue self.old).capacity (Truth result)
            (consumer_view self.old) (consumer_view self.new) }
        ensures steps { TakesAlone 4 4 (consumer_view self.old) (consumer_view self.new) }
    {
        self.token.measure::<Fullness>(rt) == self.token.capacity as u64
    }

    /// Returns the capacity of its queue. This project's own.
    pub fn capacity(&self) -> usize
        ensures { result ≡ (consumer_queue self.now).capacity }
    {
        self.token.capacity as usize
    }
}
