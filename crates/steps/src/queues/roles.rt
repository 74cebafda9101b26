//! The two roles of a structure that has one producer and one consumer at a time.
ghost use Rattle.steps.specs.Queues.Roles.{acquire_want, acquire_after, release_want, release_after, look_want, look_after};

use crate::ask::{After, Ask, Op, Want};
use crate::routine::{Ends, Routine};

/// A role of a queue.
#[derive(Debug, Clone, Copy, PartialEq, Eq)]
pub enum Role {
    Producer,
    Consumer,
}

/// Takes a role: true where it was free, else false and nothing changes. One step, an exchange of 1 to 0.
/// After `acquire_producer` and `acquire_consumer` of the Rust crate's queues.
#[derive(Clone, Copy)]
pub struct AcquireRole {
    /// The role's word, 1 while the role is free and 0 while it is taken.
    pub word: usize,
}

/// Gives a role back. One step, a store of 1. After the drop of the Rust crate's `Producer` and `Consumer`.
#[derive(Clone, Copy)]
pub struct ReleaseRole {
    /// The role's word.
    pub word: usize,
}

/// Answers whether a role is taken, and changes nothing. One step, a load. This project's own.
#[derive(Clone, Copy)]
pub struct LookRole {
    /// The role's word.
    pub word: usize,
}

/// The one step of an acquire of a role: it answers whether the role was free.
impl Routine for AcquireRole {
    ghost use Rattle.steps.specs.Laws.{acquire_tells};

    type Given = ();

    type Room = ();

    type End = bool;

    type Value = u64;

    type Answer = bool;

    ghost want_of = { λ c given. acquire_want c };

    ghost after = { λ c given old. acquire_after c old };

    ghost kept = { λ c room old. room };

    ghost value_of = { λ given room. 0 };

    ghost answer_of = { λ end given room. end };

    ghost store_tells_nothing = { λ c given room m n t. acquire_tells c room m n t };

    /// Exchanges the role's word from 1, which says that it is free, to 0.
    #[inline(always)]
    fn ask(self, _given: &()) -> Want<()> {
        Want::Ask(Ask {
            word: self.word,
            op: Op::Exchange(1, 0),
        })
    }

    /// Ends with whether the word was 1, so that the exchange has taken the role.
    #[inline(always)]
    fn take(self, _given: &(), _room: &mut (), answer: u64) -> After<AcquireRole, bool> {
        After::Done(answer == 1)
    }

    /// 0: the call has no value of the structure to hand out.
    fn value(_given: &(), _room: &()) -> u64 {
        0
    }

    #[inline(always)]
    fn answer(end: bool, _given: &(), _room: &()) -> bool {
        end
    }
}

impl Ends for AcquireRole {
    ghost use Rattle.steps.specs.Laws.{acquire_fewer};

    ghost left = { λ c. 0 };

    ghost fewer = { λ c d given n goes. acquire_fewer c d n goes };
}

/// The one step of a release of a role: it answers nothing.
impl Routine for ReleaseRole {
    ghost use Rattle.steps.specs.Laws.{release_tells};

    type Given = ();

    type Room = ();

    type End = ();

    type Value = u64;

    type Answer = ();

    ghost want_of = { λ c given. release_want c };

    ghost after = { λ c given old. release_after c old };

    ghost kept = { λ c room old. room };

    ghost value_of = { λ given room. 0 };

    ghost answer_of = { λ end given room. end };

    ghost store_tells_nothing = { λ c given room m n t. release_tells c room m n t };

    /// Stores 1 into the role's word, which makes the role free.
    #[inline(always)]
    fn ask(self, _given: &()) -> Want<()> {
        Want::Ask(Ask {
            word: self.word,
            op: Op::Store(1),
        })
    }

    #[inline(always)]
    fn take(self, _given: &(), _room: &mut (), _answer: u64) -> After<ReleaseRole, ()> {
        After::Done(())
    }

    /// 0: the call has no value of the structure to hand out.
    fn value(_given: &(), _room: &()) -> u64 {
        0
    }

    #[inline(always)]
    fn answer(_end: (), _given: &(), _room: &()) {}
}

impl Ends for ReleaseRole {
    ghost use Rattle.steps.specs.Laws.{release_fewer};

    ghost left = { λ c. 0 };

    ghost fewer = { λ c d given n goes. release_fewer c d n goes };
}

/// The one step of a look at a role: it answers whether the role is taken.
impl Routine for LookRole {
    ghost use Rattle.steps.specs.Laws.{look_tells};

    type Given = ();

    type Room = ();

    type End = bool;

    type Value = u64;

    type Answer = bool;

    ghost want_of = { λ c given. look_want c };

    ghost after = { λ c given old. look_after c old };

    ghost kept = { λ c room old. room };

    ghost value_of = { λ given room. 0 };

    ghost answer_of = { λ end given room. end };

    ghost store_tells_nothing = { λ c given room m n t. look_tells c room m n t };

    /// Loads the role's word.
    #[inline(always)]
    fn ask(self, _given: &()) -> Want<()> {
        Want::Ask(Ask {
            word: self.word,
            op: Op::Load,
        })
    }

    /// Ends with whether the word is another than 1, so that the role is taken.
    #[inline(always)]
    fn take(self, _given: &(), _room: &mut (), answer: u64) -> After<LookRole, bool> {
        After::Done(answer != 1)
    }

    /// 0: the call has no value of the structure to hand out.
    fn value(_given: &(), _room: &()) -> u64 {
        0
    }

    #[inline(always)]
    fn answer(end: bool, _given: &(), _room: &()) -> bool {
        end
    }
}

impl Ends for LookRole {
    ghost use Rattle.steps.specs.Laws.{look_fewer};

    ghost left = { λ c. 0 };

    ghost fewer = { λ c d given n goes. look_fewer c d n goes };
}
