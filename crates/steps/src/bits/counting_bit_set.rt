//! The call of the counting bit set on one place, and what it hands out.
ghost use Rattle.std.specs.Prelude.{◌≡◌, ◌<◌};
ghost use Rattle.steps.specs.Bits.Counts.{set_want, set_after};

use crate::ask::{After, Ask, Op, Want};
use crate::routine::{Ends, Routine};

/// The greatest count.
pub const MAX_COUNT: u64 = u64::MAX;

/// A place with its count. After the Rust crate's `BitState`.
#[derive(Debug, Clone, Copy, PartialEq, Eq)]
pub struct BitState {
    pub bit: usize,
    pub count: u64,
}

impl BitState {
    /// The place.
    pub fn bit(&self) -> usize
        ensures { result ≡ self.now.bit }
    {
        self.bit
    }

    /// Its count.
    pub fn count(&self) -> u64
        ensures { result ≡ self.now.count }
    {
        self.count
    }
}

/// Adds 1 to the count of the place that it is given, and answers what the count was. One step. The count wraps. A place
/// below the capacity is the caller's concern. After `set` of the Rust crate's `CountingBitSet`.
#[derive(Clone, Copy)]
pub struct Set;

/// The one step of `set` of a counting bit set: given the place, it answers what the count was.
impl Routine for Set {
    ghost use Rattle.steps.specs.Bits.Laws.{count_tells};

    type Given = u64;

    type Room = ();

    type End = u64;

    type Value = u64;

    type Answer = u64;

    ghost want_of = { set_want };

    ghost after = { λ c given old. set_after c old };

    ghost kept = { λ c room old. room };

    ghost value_of = { λ given room. 0 };

    ghost answer_of = { λ end given room. end };

    ghost store_tells_nothing = { λ c given room m n t. count_tells c given room m n t };

    /// Adds 1 to the word of the place, which is its count.
    #[inline(always)]
    fn ask(self, given: &u64) -> Want<()> {
        Want::Ask(Ask {
            word: *given as usize,
            op: Op::Add(1),
        })
    }

    /// Ends with the count before the addition.
    #[inline(always)]
    fn take(self, _given: &u64, _room: &mut (), answer: u64) -> After<Set, u64> {
        After::Done(answer)
    }

    /// 0: the call has no value of the structure to hand out.
    fn value(_given: &u64, _room: &()) -> u64 {
        0
    }

    #[inline(always)]
    fn answer(end: u64, _given: &u64, _room: &()) -> u64 {
        end
    }
}

impl Ends for Set {
    ghost use Rattle.steps.specs.Bits.Laws.{count_fewer};

    ghost left = { λ c. 0 };

    ghost fewer = { λ c d given n goes. count_fewer c d n goes };
}
