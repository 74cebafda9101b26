//! The calls that look at a robust set of indices.
ghost use Rattle.std.specs.Prelude.{◌≡◌};
ghost use Rattle.steps.specs.Indices.Robust.Looks.{first_borrowed, borrowed_want, borrowed_after, borrowed_goes_back, locked_after};

use crate::ask::{After, Ask, Op, Want};
use crate::indices::robust::parts::{COUNTER, Count, Counted, LOCKED};
use crate::routine::{Ends, Routine};

/// How many indices are borrowed, 0 where the set is locked. As many steps as the capacity, and 2 more; as
/// many again for each turn back.
///
/// The call counts the cells that have an owner and then raises the counter. So each counted cell had an
/// owner when it was loaded, and the counter has not moved while the cells were loaded. A counter at its end
/// stays; then the number is that of one pass over the cells, whatever has changed meanwhile. After
/// `borrowed_indices` of the Rust crate's `RobustUniqueIndexSet`.
#[derive(Clone, Copy)]
pub struct BorrowedIndices {
    pub capacity: u32,
    pub count: Count,
}

/// Whether the set is locked. One step, a load of the counter. After `is_locked` of the Rust crate's
/// `RobustUniqueIndexSet`.
#[derive(Clone, Copy)]
pub struct IsLocked;

impl BorrowedIndices {
    /// A call that has taken no step.
    #[inline(always)]
    pub fn new(capacity: u32) -> BorrowedIndices
        ensures { result ≡ first_borrowed capacity }
    {
        BorrowedIndices {
            capacity,
            count: Count::LoadsCounter,
        }
    }

    /// Whether the call begins again once it is handed this answer, since the counter has moved.
    pub fn goes_back(&self, answer: u64) -> bool
        ensures { result ≡ borrowed_goes_back self.now answer }
    {
        self.count.goes_back(answer)
    }
}

/// The steps of a count of the borrowed indices of a robust set: it answers their number.
impl Routine for BorrowedIndices {
    ghost use Rattle.steps.specs.Indices.Robust.Laws.{borrowed_tells};

    type Given = ();

    type Room = ();

    type End = usize;

    type Value = u64;

    type Answer = usize;

    ghost want_of = { λ c given. borrowed_want c };

    ghost after = { λ c given old. borrowed_after c old };

    ghost kept = { λ c room old. room };

    ghost value_of = { λ given room. 0 };

    ghost answer_of = { λ end given room. end };

    ghost store_tells_nothing = { λ c given room m n t. borrowed_tells c c.count room m n t };

    /// Asks for what its count asks for.
    #[inline(always)]
    fn ask(self, _given: &()) -> Want<()> {
        self.count.ask()
    }

    /// Ends with the number of filled cells that the count has found, or with 0 where the set is locked.
    #[inline(always)]
    fn take(self, _given: &(), _room: &mut (), answer: u64) -> After<BorrowedIndices, usize> {
        match self.count.take(self.capacity, answer) {
            After::GoOn(count) => After::GoOn(BorrowedIndices {
                capacity: self.capacity,
                count,
            }),
            After::Done(Counted::Locked) => After::Done(0),
            After::Done(Counted::Filled { filled, .. }) => After::Done(filled),
        }
    }

    /// 0: the call has no value of the structure to hand out.
    fn value(_given: &(), _room: &()) -> u64 {
        0
    }

    #[inline(always)]
    fn answer(end: usize, _given: &(), _room: &()) -> usize {
        end
    }
}

/// The one step of a look at the lock of a robust set: it answers whether the set is locked.
impl Routine for IsLocked {
    ghost use Rattle.steps.specs.Queues.Ring.{load};
    ghost use Rattle.steps.specs.Indices.UniqueLaws.{load_tells};

    type Given = ();

    type Room = ();

    type End = bool;

    type Value = u64;

    type Answer = bool;

    ghost want_of = { λ c given. load 0 };

    ghost after = { λ c given old. locked_after c old };

    ghost kept = { λ c room old. room };

    ghost value_of = { λ given room. 0 };

    ghost answer_of = { λ end given room. end };

    ghost store_tells_nothing = { λ c given room m n t.
        load_tells 0 (locked_after c) room m n t };

    /// Loads the counter.
    #[inline(always)]
    fn ask(self, _given: &()) -> Want<()> {
        Want::Ask(Ask {
            word: COUNTER,
            op: Op::Load,
        })
    }

    /// Ends with whether the counter is the one that says locked.
    #[inline(always)]
    fn take(self, _given: &(), _room: &mut (), answer: u64) -> After<IsLocked, bool> {
        After::Done(answer == LOCKED)
    }

    /// 0: the call has no value of the structure to hand out.
    fn value(_given: &(), _room: &()) -> u64 {
        0
    }

    #[inline(always)]
    fn answer(end: bool, _given: &(), _room: &()) -> bool {
        end
    }
}

impl Ends for IsLocked {
    ghost use Rattle.steps.specs.Indices.Robust.Laws.{locked_fewer};

    ghost left = { λ c. 0 };

    ghost fewer = { λ c d given n goes. locked_fewer c d n goes };
}
