//! The look at the version of the single value.
ghost use Rattle.std.specs.Prelude.{◌≡◌, ◌<◌};
ghost use Rattle.steps.specs.Atomic.{version_want, version_after};

use crate::ask::{After, Ask, Op, Want};
use crate::atomic::VERSION;
use crate::routine::{Ends, Routine};

/// Answers the version, and changes nothing. One step, a load. This project's own.
///
/// Each store makes the version greater by 1.
#[derive(Clone, Copy)]
pub struct Version;

/// The one step of a look at the version: it answers the version.
impl Routine for Version {
    ghost use Rattle.steps.specs.Laws.{version_tells};

    type Given = ();

    type Room = ();

    type End = u64;

    type Value = u64;

    type Answer = u64;

    ghost want_of = { λ c given. version_want c };

    ghost after = { λ c given old. version_after c old };

    ghost kept = { λ c room old. room };

    ghost value_of = { λ given room. 0 };

    ghost answer_of = { λ end given room. end };

    ghost store_tells_nothing = { λ c given room m n t. version_tells c room m n t };

    /// Loads the version.
    #[inline(always)]
    fn ask(self, _given: &()) -> Want<()> {
        Want::Ask(Ask {
            word: VERSION,
            op: Op::Load,
        })
    }

    #[inline(always)]
    fn take(self, _given: &(), _room: &mut (), answer: u64) -> After<Version, u64> {
        After::Done(answer)
    }

    /// 0: the call has no value of the structure to hand out.
    fn value(_given: &(), _room: &()) -> u64 {
        0
    }

    #[inline(always)]
    fn answer(end: u64, _given: &(), _room: &()) -> u64 {
        end
    }
}

impl Ends for Version {
    ghost use Rattle.steps.specs.Laws.{version_fewer};

    ghost left = { λ c. 0 };

    ghost fewer = { λ c d given n goes. version_fewer c d n goes };
}
