//! The call that takes an index of a robust set for an owner.
ghost use Rattle.std.specs.Prelude.{◌≡◌};
ghost use Rattle.steps.specs.Indices.Robust.Acquire.{first_acquire, acquire_sees, acquire_tries, acquire_want, acquire_after, acquire_goes_back};

use crate::ask::{After, Ask, Op, Want};
use crate::enums::OwnerId;
use crate::indices::enums::{ReleaseState, UniqueIndexSetAcquireFailure};
use crate::indices::robust::parts::{COUNTER, EMPTY, GREATEST, LOCKED, Raise, cell_word};
use crate::routine::Routine;

/// Takes the lowest index found without an owner for the given owner: the index, `IsLocked`, or `OutOfIndices`. At
/// most 3 steps more than the capacity, and for each turn back at most 1 more, or as many as the capacity and 1.
///
/// After `acquire` of the Rust crate's `RobustUniqueIndexSet`.
#[derive(Clone, Copy)]
pub struct Acquire {
    pub capacity: u32,
    pub stage: AcquireStage,
}

/// What an acquire does next. `counter` is the counter that it has loaded or found.
#[derive(Clone, Copy)]
pub enum AcquireStage {
    /// Loads the counter: `IsLocked` where that says so, `OutOfIndices` where it is at its end.
    LoadsCounter,
    /// Exchanges the cell of the index from empty to the owner; on failure goes on to the next cell.
    FillsCell { counter: u64, index: u32 },
    /// Exchanges the counter for itself: `OutOfIndices`, since each cell was filled. On failure goes back to the
    /// tests, with the counter found.
    ChecksCounter { counter: u64 },
    /// Takes a step of the raise of the counter, and answers the index. Where the set is locked by then: `IsLocked`,
    /// and the cell keeps the owner.
    Raises { index: u32, raise: Raise },
}

impl Acquire {
    /// An acquire that has taken no step.
    #[inline(always)]
    pub fn new(capacity: u32) -> Acquire
        ensures { result ≡ first_acquire capacity }
    {
        Acquire {
            capacity,
            stage: AcquireStage::LoadsCounter,
        }
    }

    /// Goes on from a counter that it has loaded or found.
    #[inline(always)]
    fn sees(self, counter: u64) -> After<Acquire, Result<u32, UniqueIndexSetAcquireFailure>>
        ensures { result ≡ acquire_sees self counter }
    {
        if counter == LOCKED {
            After::Done(Err(UniqueIndexSetAcquireFailure::IsLocked))
        } else if counter == GREATEST {
            After::Done(Err(UniqueIndexSetAcquireFailure::OutOfIndices))
        } else {
            self.tries(counter, 0)
        }
    }

    /// The acquire at this cell, if there is one; after the last cell it checks the counter.
    #[inline(always)]
    fn tries(
        self,
        counter: u64,
        index: u64,
    ) -> After<Acquire, Result<u32, UniqueIndexSetAcquireFailure>>
        ensures { result ≡ acquire_tries self counter index }
    {
        let stage = if index < self.capacity as u64 {
            AcquireStage::FillsCell {
                counter,
                index: index as u32,
            }
        } else {
            AcquireStage::ChecksCounter { counter }
        };
        After::GoOn(Acquire {
            capacity: self.capacity,
            stage,
        })
    }

    /// Whether the call goes back to its tests, or to those of its raise, on this answer. The counter has moved then.
    pub fn goes_back(&self, answer: u64) -> bool
        ensures { result ≡ acquire_goes_back self.now.stage answer }
    {
        match self.stage {
            AcquireStage::LoadsCounter => false,
            AcquireStage::FillsCell { .. } => false,
            AcquireStage::ChecksCounter { counter } => answer != counter,
            AcquireStage::Raises { raise, .. } => raise.goes_back(answer),
        }
    }
}

/// The steps of an acquire of a robust set: given the owner, it answers the index, or why there is none.
impl Routine for Acquire {
    ghost use Rattle.steps.specs.Indices.Robust.Laws.{acquire_tells};

    type Given = OwnerId;

    type Room = ();

    type End = Result<u32, UniqueIndexSetAcquireFailure>;

    type Value = u64;

    type Answer = Result<u32, UniqueIndexSetAcquireFailure>;

    ghost want_of = { acquire_want };

    ghost after = { λ c given old. acquire_after c old };

    ghost kept = { λ c room old. room };

    ghost value_of = { λ given room. 0 };

    ghost answer_of = { λ end given room. end };

    ghost store_tells_nothing = { λ c given room m n t.
        acquire_tells c c.stage given room m n t };

    /// Asks for the counter, exchanges one cell after another from empty to the owner, and in the end raises
    /// the counter or checks it.
    #[inline(always)]
    fn ask(self, given: &OwnerId) -> Want<()> {
        let (word, op) = match self.stage {
            AcquireStage::LoadsCounter => (COUNTER, Op::Load),
            AcquireStage::FillsCell { index, .. } => {
                (cell_word(index), Op::Exchange(EMPTY, given.value()))
            }
            AcquireStage::ChecksCounter { counter } => (COUNTER, Op::Exchange(counter, counter)),
            AcquireStage::Raises { raise, .. } => return raise.ask(),
        };
        Want::Ask(Ask { word, op })
    }

    /// A cell that was empty is filled: it raises the counter and ends with the index, or with `IsLocked`.
    /// After the last cell it ends out of indices where the counter has stayed, and goes on from the counter
    /// as found where that has moved.
    #[inline(always)]
    fn take(
        self,
        _given: &OwnerId,
        _room: &mut (),
        answer: u64,
    ) -> After<Acquire, Result<u32, UniqueIndexSetAcquireFailure>> {
        let stage = match self.stage {
            AcquireStage::LoadsCounter => return self.sees(answer),
            AcquireStage::FillsCell { counter, index } => {
                if answer != EMPTY {
                    return self.tries(counter, index as u64 + 1);
                }
                AcquireStage::Raises {
                    index,
                    raise: Raise::LoadsCounter,
                }
            }
            AcquireStage::ChecksCounter { counter } => {
                if answer != counter {
                    return self.sees(answer);
                }
                return After::Done(Err(UniqueIndexSetAcquireFailure::OutOfIndices));
            }
            AcquireStage::Raises { index, raise } => match raise.take(answer) {
                After::GoOn(raise) => AcquireStage::Raises { index, raise },
                After::Done(ReleaseState::Locked) => {
                    return After::Done(Err(UniqueIndexSetAcquireFailure::IsLocked));
                }
                After::Done(ReleaseState::Unlocked) => return After::Done(Ok(index)),
            },
        };
        After::GoOn(Acquire {
            capacity: self.capacity,
            stage,
        })
    }

    /// 0: the call has no value of the structure to hand out.
    fn value(_given: &OwnerId, _room: &()) -> u64 {
        0
    }

    #[inline(always)]
    fn answer(
        end: Result<u32, UniqueIndexSetAcquireFailure>,
        _given: &OwnerId,
        _room: &(),
    ) -> Result<u32, UniqueIndexSetAcquireFailure> {
        end
    }
}
