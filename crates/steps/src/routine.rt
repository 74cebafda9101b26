//! A call in the form that drivers run: a small value that changes with each step. Beside it lie what the call was
//! given and the room for the words that it reads.
ghost use Rattle.std.specs.Prelude.{◌≡◌, ℕ, ◌<◌, IsTrue};
ghost use Rattle.steps.specs.Ask.{is_store, CameTo};
ghost use Rattle.steps.specs.Routine.{question_with, want_with, went_on};
ghost use Rattle.steps.specs.declared.ask.Want.{Want};
ghost use Rattle.steps.specs.declared.ask.After.{After};
ghost use Rattle.steps.specs.declared.ask.After.TheVariants.{GoOn};

use crate::ask::{After, Call, Question, Want};
use crate::words::Words;

/// A call, one step after another, as its drivers run it. Any answer is accepted at any time.
///
/// The value itself holds counters, positions and an index: never a value of the structure,
/// nor a list of words. What the call was given lies beside it and stays as it is; the words
/// that it reads go into a room beside both.
pub trait Routine: Copy {
    /// What the call was given: the value that it stores, an owner, an index.
    type Given: Drop;
    /// Where it keeps the words that it reads.
    type Room: Drop;
    /// How it ends. From this, what it was given and the room its answer is made.
    type End: Copy;
    /// What the call's values are.
    type Value: Words;
    /// What the call answers in the end.
    type Answer;

    /// What the call asks for next, which `ask` returns.
    ghost want_of: { Self → Self.Given → Want (Unit {0}) };

    /// The call after the answer to what it asked for, or its end, which `take` returns.
    ghost after: { Self → Self.Given → ℕ → After Self Self.End };

    /// The room after that answer, as `take` leaves it.
    ghost kept: { Self → Self.Room → ℕ → Self.Room };

    /// The value that `value` returns.
    ghost value_of: { Self.Given → Self.Room → Self.Value };

    /// The answer that `answer` returns.
    ghost answer_of: { Self.End → Self.Given → Self.Room → Self.Answer };

    /// What the call wants next. It takes no step. A question about a value names
    /// its index alone; the value is `value`.
    fn ask(self, given: &Self::Given) -> Want<()>
        ensures { result ≡ want_of self given.now };

    /// How the call goes on from an answer. That is the word's old value, or 1 or 0 for yes or no, or 0 after
    /// `Nothing`; after a `Store` it may be any number.
    fn take(self, given: &Self::Given, room: &mut Self::Room, answer: u64) -> After<Self, Self::End>
        ensures goes { result ≡ after self given.now answer }
        ensures keeps { room.new ≡ kept self room.old answer };

    /// The value that the call stores, or the one that it has read.
    fn value(given: &Self::Given, room: &Self::Room) -> Self::Value
        ensures { result ≡ value_of given.now room.now };

    /// What the call answers.
    fn answer(end: Self::End, given: &Self::Given, room: &Self::Room) -> Self::Answer
        ensures { result ≡ answer_of end given.now room.now };

    /// What a store answers changes nothing: neither how the call goes on nor its room.
    ghost store_tells_nothing: { (c : Self) (given : Self.Given) (room : Self.Room) (m n : ℕ)
        → IsTrue (is_store (want_of c given))
        → (after c given m ≡ after c given n) × (kept c room m ≡ kept c room n) };
}

/// A call that ends by itself, whatever it is handed.
pub trait Ends: Routine {
    /// It goes down at each step.
    ghost left: { Self → ℕ };

    ghost fewer: { (c d : Self) (given : Self.Given) (n : ℕ) → Self.after c given n ≡ GoOn d
        → left d < left c };
}

/// A call with what it was given and its room: one value, which is a `Call`.
#[derive(Drop)]
pub struct Running<C, G, M> {
    /// What changes with each step.
    pub call: C,
    /// What the call was given.
    pub given: G,
    /// Room for the words that it reads.
    pub room: M,
}

/// The question, where one about a value is about this one.
fn question_with<V: Words>(question: Question<()>, value: V) -> Question<V>
    ensures { result ≡ question_with value question }
{
    match question {
        Question::Index(index) => Question::Index(index),
        Question::Owned(owner, index) => Question::Owned(owner, index),
        Question::Value(index, ()) => Question::Value(index, value),
    }
}

impl<C: Routine> Running<C, C::Given, C::Room> {
    /// What the call wants next. It takes no step.
    #[inline(always)]
    pub fn want(&self) -> Want<()>
        ensures { result ≡ C.want_of self.now.call self.now.given }
    {
        self.call.ask(&self.given)
    }

    /// Lets the call go on from an answer, where it lies. Where it is done it gives its
    /// answer, and nothing more is said of it.
    #[inline(always)]
    pub fn go_on(&mut self, answer: u64) -> Option<C::Answer>
        ensures { CameTo result self.new (went_on C.answer_of self.old.given
            (C.kept self.old.call self.old.room answer)
            (C.after self.old.call self.old.given answer)) }
    {
        match self.call.take(&self.given, &mut self.room, answer) {
            After::GoOn(call) => {
                self.call = call;
                None
            }
            After::Done(end) => Some(C::answer(end, &self.given, &self.room)),
        }
    }
}

impl<C: Routine> Call for Running<C, C::Given, C::Room> {
    type Value = C::Value;

    type Answer = C::Answer;

    ghost want_of = { λ r. want_with (C.value_of r.given r.room) (C.want_of r.call r.given) };

    ghost after = { λ r old.
        went_on C.answer_of r.given (C.kept r.call r.room old) (C.after r.call r.given old) };

    fn ask(&self) -> Want<C::Value> {
        match self.call.ask(&self.given) {
            Want::Ask(ask) => Want::Ask(ask),
            Want::Question(question) => {
                Want::Question(question_with(question, C::value(&self.given, &self.room)))
            }
            Want::Nothing => Want::Nothing,
        }
    }

    fn take(self, answer: u64) -> After<Running<C, C::Given, C::Room>, C::Answer> {
        let Running {
            call,
            given,
            mut room,
        } = self;
        match call.take(&given, &mut room, answer) {
            After::GoOn(call) => After::GoOn(Running { call, given, room }),
            After::Done(end) => After::Done(C::answer(end, &given, &room)),
        }
    }
}
