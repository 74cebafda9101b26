//! An index that comes back to the sender of a loan channel: it is released, in mode `Default`.
ghost use Rattle.std.specs.Prelude.{◌≡◌};
ghost use Rattle.steps.specs.Loan.Back.{index_in, inner_release};

use crate::indices::unique::{DefaultMode, Release, ReleaseStage};
use std::marker::PhantomData;

/// The index in a word of a queue, which lies in its low half.
#[inline(always)]
pub fn index_in(word: u64) -> u32
    ensures { result ≡ index_in word }
{
    (word % 0x1_0000_0000) as u32
}

/// The release of the set, at this stage.
#[inline(always)]
pub fn inner_release(slots: u32, stage: ReleaseStage) -> Release<DefaultMode>
    ensures { result ≡ inner_release slots stage }
{
    Release {
        capacity: slots,
        stage,
        of: PhantomData,
    }
}
