//! What a call asks of the shared words, and how it goes on.
ghost use Rattle.std.specs.Prelude.{◌≡◌, ℕ};
ghost use Rattle.steps.specs.Ask.{written};
ghost use Rattle.steps.specs.declared.ask.Want.{Want};
ghost use Rattle.steps.specs.declared.ask.After.{After};

use crate::enums::OwnerId;
use crate::words::Words;

/// One operation on one word. Each answers the word's old value.
#[derive(Clone, Copy, PartialEq, Eq)]
pub enum Op {
    /// Leaves the word.
    Load,
    /// Writes the number.
    Store(u64),
    /// Writes the number, as `Store`; for calls that use the old value.
    Swap(u64),
    /// Adds the number, which wraps.
    Add(u64),
    /// Subtracts the number, which wraps.
    Sub(u64),
    /// Keeps the bits that the number has.
    And(u64),
    /// Sets the bits that the number has.
    Or(u64),
    /// Writes the second number only where the word is the first.
    Exchange(u64, u64),
}

impl Op {
    /// What the operation makes of a word.
    pub fn apply(self, word: u64) -> u64
        ensures { result ≡ written self word }
    {
        match self {
            Op::Load => word,
            Op::Store(new) => new,
            Op::Swap(new) => new,
            Op::Add(by) => word.wrapping_add(by),
            Op::Sub(by) => word.wrapping_sub(by),
            Op::And(bits) => word & bits,
            Op::Or(bits) => word | bits,
            Op::Exchange(from, to) => { if word == from { to } else { word } }
        }
    }
}

/// An operation and the word that it is for.
#[derive(Clone, Copy, PartialEq, Eq)]
pub struct Ask {
    pub word: usize,
    pub op: Op,
}

/// What a call wants decided before it goes on.
#[derive(Clone, Copy)]
pub enum Question<T> {
    /// What to do about this index.
    Index(usize),
    /// What to do about this index of this owner.
    Owned(OwnerId, usize),
    /// What to do about the value at this index.
    Value(usize, T),
}

/// What a call wants next.
#[derive(Clone, Copy)]
pub enum Want<T> {
    /// One operation on one word.
    Ask(Ask),
    /// A yes or a no.
    Question(Question<T>),
    /// Only another turn: no word is touched.
    Nothing,
}

/// A call after it was handed an answer.
#[derive(Clone, Copy)]
pub enum After<C, A> {
    GoOn(C),
    Done(A),
}

/// A call, one step after another. Any answer is accepted at any time.
pub trait Call {
    /// What the call's values are.
    type Value: Words;
    /// What the call answers in the end.
    type Answer;

    ghost want_of: { Self → Want Self.Value };

    ghost after: { Self → ℕ → After Self Self.Answer };

    /// What the call wants next. It takes no step.
    fn ask(&self) -> Want<Self::Value>
        ensures { result ≡ want_of self.now };

    /// How the call goes on from an answer. That is the word's old value, or 1 or 0 for yes or no, or 0 after
    /// `Nothing`.
    fn take(self, answer: u64) -> After<Self, Self::Answer>
        ensures { result ≡ after self answer };
}
