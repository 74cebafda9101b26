//! The calls of the bit sets that look at one place and change nothing.
ghost use Rattle.std.specs.Prelude.{◌≡◌, ◌<◌};
ghost use Rattle.steps.specs.Bits.Looks.{is_set_want, is_set_after, count_want, count_after};

use super::flags::{element_of, has_flag};
use crate::ask::{After, Ask, Op, Want};
use crate::routine::{Ends, Routine};

/// Answers whether the place that it is given stands in a bit set. One step. A place below the capacity is the caller's
/// concern. This project's own.
#[derive(Clone, Copy)]
pub struct IsSet;

/// Answers the count of the place that it is given in a counting bit set. One step. A place below the capacity is the
/// caller's concern. This project's own.
#[derive(Clone, Copy)]
pub struct Count;

/// The one step of `is_set`: given the place, it answers whether the place stands.
impl Routine for IsSet {
    ghost use Rattle.steps.specs.Bits.Laws.{is_set_tells};

    type Given = u64;

    type Room = ();

    type End = bool;

    type Value = u64;

    type Answer = bool;

    ghost want_of = { is_set_want };

    ghost after = { is_set_after };

    ghost kept = { λ c room old. room };

    ghost value_of = { λ given room. 0 };

    ghost answer_of = { λ end given room. end };

    ghost store_tells_nothing = { λ c given room m n t. is_set_tells c given room m n t };

    /// Loads the element of the place.
    #[inline(always)]
    fn ask(self, given: &u64) -> Want<()> {
        Want::Ask(Ask {
            word: element_of(*given),
            op: Op::Load,
        })
    }

    /// Ends with whether the element has the place's flag.
    #[inline(always)]
    fn take(self, given: &u64, _room: &mut (), answer: u64) -> After<IsSet, bool> {
        After::Done(has_flag(answer, *given))
    }

    /// 0: the call has no value of the structure to hand out.
    fn value(_given: &u64, _room: &()) -> u64 {
        0
    }

    #[inline(always)]
    fn answer(end: bool, _given: &u64, _room: &()) -> bool {
        end
    }
}

impl Ends for IsSet {
    ghost use Rattle.steps.specs.Bits.Laws.{is_set_fewer};

    ghost left = { λ c. 0 };

    ghost fewer = { λ c d given n goes. is_set_fewer c d given n goes };
}

/// The one step of a look at a count: given the place, it answers the count.
impl Routine for Count {
    ghost use Rattle.steps.specs.Bits.Laws.{look_tells};

    type Given = u64;

    type Room = ();

    type End = u64;

    type Value = u64;

    type Answer = u64;

    ghost want_of = { count_want };

    ghost after = { λ c given old. count_after c old };

    ghost kept = { λ c room old. room };

    ghost value_of = { λ given room. 0 };

    ghost answer_of = { λ end given room. end };

    ghost store_tells_nothing = { λ c given room m n t. look_tells c given room m n t };

    /// Loads the word of the place, which is its count.
    #[inline(always)]
    fn ask(self, given: &u64) -> Want<()> {
        Want::Ask(Ask {
            word: *given as usize,
            op: Op::Load,
        })
    }

    /// Ends with the count.
    #[inline(always)]
    fn take(self, _given: &u64, _room: &mut (), answer: u64) -> After<Count, u64> {
        After::Done(answer)
    }

    /// 0: the call has no value of the structure to hand out.
    fn value(_given: &u64, _room: &()) -> u64 {
        0
    }

    #[inline(always)]
    fn answer(end: u64, _given: &u64, _room: &()) -> u64 {
        end
    }
}

impl Ends for Count {
    ghost use Rattle.steps.specs.Bits.Laws.{look_fewer};

    ghost left = { λ c. 0 };

    ghost fewer = { λ c d given n goes. look_fewer c d n goes };
}
