//! The calls that look at a unique index set, by a load of its head.
ghost use Rattle.steps.specs.Indices.Unique.{borrowed_after, locked_after};

use crate::ask::{After, Ask, Op, Want};
use crate::indices::head::{HeadDetails, LOCK_ACQUIRE};
use crate::indices::layout::HEAD;
use crate::routine::{Ends, Routine};

/// How many indices are borrowed, 0 where the set is locked. One step, a load of the head. After `borrowed_indices` of
/// the Rust crate's `UniqueIndexSet`.
#[derive(Clone, Copy)]
pub struct BorrowedIndices;

/// Whether the set is locked. One step, a load of the head. After `is_locked` of the Rust crate's `UniqueIndexSet`.
#[derive(Clone, Copy)]
pub struct IsLocked;

/// The one step of a look at the number of borrowed indices: it answers that number.
impl Routine for BorrowedIndices {
    ghost use Rattle.steps.specs.Queues.Ring.{load};
    ghost use Rattle.steps.specs.Indices.UniqueLaws.{load_tells};

    type Given = ();

    type Room = ();

    type End = usize;

    type Value = u64;

    type Answer = usize;

    ghost want_of = { λ c given. load 0 };

    ghost after = { λ c given old. borrowed_after c old };

    ghost kept = { λ c room old. room };

    ghost value_of = { λ given room. 0 };

    ghost answer_of = { λ end given room. end };

    ghost store_tells_nothing = { λ c given room m n t.
        load_tells 0 (borrowed_after c) room m n t };

    /// Loads the head.
    #[inline(always)]
    fn ask(self, _given: &()) -> Want<()> {
        Want::Ask(Ask {
            word: HEAD,
            op: Op::Load,
        })
    }

    /// Ends with the number in the head, or with 0 where the head says that the set is locked.
    #[inline(always)]
    fn take(self, _given: &(), _room: &mut (), answer: u64) -> After<BorrowedIndices, usize> {
        let borrowed = HeadDetails::from(answer).borrowed_indices;
        After::Done(if borrowed == LOCK_ACQUIRE {
            0
        } else {
            borrowed as usize
        })
    }

    /// 0: the call has no value of the structure to hand out.
    fn value(_given: &(), _room: &()) -> u64 {
        0
    }

    #[inline(always)]
    fn answer(end: usize, _given: &(), _room: &()) -> usize {
        end
    }
}

impl Ends for BorrowedIndices {
    ghost use Rattle.steps.specs.Indices.UniqueLaws.{borrowed_fewer};

    ghost left = { λ c. 0 };

    ghost fewer = { λ c d given n goes. borrowed_fewer c d n goes };
}

/// The one step of a look at the lock: it answers whether the set is locked.
impl Routine for IsLocked {
    ghost use Rattle.steps.specs.Queues.Ring.{load};
    ghost use Rattle.steps.specs.Indices.UniqueLaws.{load_tells};

    type Given = ();

    type Room = ();

    type End = bool;

    type Value = u64;

    type Answer = bool;

    ghost want_of = { λ c given. load 0 };

    ghost after = { λ c given old. locked_after c old };

    ghost kept = { λ c room old. room };

    ghost value_of = { λ given room. 0 };

    ghost answer_of = { λ end given room. end };

    ghost store_tells_nothing = { λ c given room m n t.
        load_tells 0 (locked_after c) room m n t };

    /// Loads the head.
    #[inline(always)]
    fn ask(self, _given: &()) -> Want<()> {
        Want::Ask(Ask {
            word: HEAD,
            op: Op::Load,
        })
    }

    /// Ends with whether the number in the head is the one that says locked.
    #[inline(always)]
    fn take(self, _given: &(), _room: &mut (), answer: u64) -> After<IsLocked, bool> {
        After::Done(HeadDetails::from(answer).borrowed_indices == LOCK_ACQUIRE)
    }

    /// 0: the call has no value of the structure to hand out.
    fn value(_given: &(), _room: &()) -> u64 {
        0
    }

    #[inline(always)]
    fn answer(end: bool, _given: &(), _room: &()) -> bool {
        end
    }
}

impl Ends for IsLocked {
    ghost use Rattle.steps.specs.Indices.UniqueLaws.{locked_fewer};

    ghost left = { λ c. 0 };

    ghost fewer = { λ c d given n goes. locked_fewer c d n goes };
}
