//! The call that gives an index of a robust set back.
ghost use Rattle.std.specs.Prelude.{◌≡◌};
ghost use Rattle.steps.specs.Indices.Robust.Release.{first_release, release_want, release_after, release_goes_back};

use crate::ask::{After, Ask, Op, Want};
use crate::enums::OwnerId;
use crate::indices::enums::{ReleaseMode, ReleaseState, RobustUniqueIndexSetReleaseError};
use crate::indices::robust::parts::{EMPTY, Lock, Raise, cell_word};
use crate::routine::Routine;

/// Gives back the index that it is given, where it is that of the given owner. It answers `Unlocked`, or `Locked` in
/// mode `LockIfLastIndex` where the set is locked; else `IndexIsNotOwnedByProvidedOwner`, and nothing changes. In mode
/// `Default` 3 steps; in mode `LockIfLastIndex` at most 6 more than the capacity. Each turn back takes at most 1 more,
/// or as many as the capacity and 3.
///
/// After `release` of the Rust crate's `RobustUniqueIndexSet`.
#[derive(Clone, Copy)]
pub struct Release {
    pub capacity: u32,
    pub stage: ReleaseStage,
}

/// What a release is given.
#[derive(Clone, Copy)]
pub struct GiveBack {
    pub index: u32,
    pub owner: OwnerId,
    pub mode: ReleaseMode,
}

/// What a release does next.
#[derive(Clone, Copy)]
pub enum ReleaseStage {
    /// Exchanges the cell of the index from the owner to empty; on failure the answer is the error.
    EmptiesCell,
    /// Takes a step of the raise of the counter; at its end, in mode `Default`, the answer is `Unlocked`.
    Raises { raise: Raise },
    /// Takes a step of the lock of the set, and answers what that answers: in mode `LockIfLastIndex` alone.
    Locks { lock: Lock },
}

impl Release {
    /// A release that has taken no step.
    #[inline(always)]
    pub fn new(capacity: u32) -> Release
        ensures { result ≡ first_release capacity }
    {
        Release {
            capacity,
            stage: ReleaseStage::EmptiesCell,
        }
    }

    /// Whether the call goes back in its raise or its lock once it is handed this answer. The counter has moved then.
    pub fn goes_back(&self, answer: u64) -> bool
        ensures { result ≡ release_goes_back self.now.stage answer }
    {
        match self.stage {
            ReleaseStage::EmptiesCell => false,
            ReleaseStage::Raises { raise } => raise.goes_back(answer),
            ReleaseStage::Locks { lock } => lock.goes_back(answer),
        }
    }
}

/// The steps of a release of a robust set: given the index, its owner and the mode, it answers the state of
/// the set, or why it gives nothing back.
impl Routine for Release {
    ghost use Rattle.steps.specs.Indices.Robust.Laws.{release_tells};

    type Given = GiveBack;

    type Room = ();

    type End = Result<ReleaseState, RobustUniqueIndexSetReleaseError>;

    type Value = u64;

    type Answer = Result<ReleaseState, RobustUniqueIndexSetReleaseError>;

    ghost want_of = { release_want };

    ghost after = { release_after };

    ghost kept = { λ c room old. room };

    ghost value_of = { λ given room. 0 };

    ghost answer_of = { λ end given room. end };

    ghost store_tells_nothing = { λ c given room m n t.
        release_tells c c.stage given room m n t };

    /// Exchanges the cell of the index from its owner to empty, then asks for what the raise of the counter
    /// asks for, and then the lock.
    #[inline(always)]
    fn ask(self, given: &GiveBack) -> Want<()> {
        match self.stage {
            ReleaseStage::EmptiesCell => Want::Ask(Ask {
                word: cell_word(given.index),
                op: Op::Exchange(given.owner.value(), EMPTY),
            }),
            ReleaseStage::Raises { raise } => raise.ask(),
            ReleaseStage::Locks { lock } => lock.ask(),
        }
    }

    /// Ends with an error where the cell was not the owner's. Otherwise it raises the counter and, in the
    /// mode that locks, tries to lock, and ends with the state of the set.
    #[inline(always)]
    fn take(
        self,
        given: &GiveBack,
        _room: &mut (),
        answer: u64,
    ) -> After<Release, Result<ReleaseState, RobustUniqueIndexSetReleaseError>> {
        let stage = match self.stage {
            ReleaseStage::EmptiesCell => {
                if answer != given.owner.value() {
                    return After::Done(Err(
                        RobustUniqueIndexSetReleaseError::IndexIsNotOwnedByProvidedOwner,
                    ));
                }
                ReleaseStage::Raises {
                    raise: Raise::LoadsCounter,
                }
            }
            ReleaseStage::Raises { raise } => match raise.take(answer) {
                After::GoOn(raise) => ReleaseStage::Raises { raise },
                After::Done(_) => match given.mode {
                    ReleaseMode::LockIfLastIndex => ReleaseStage::Locks { lock: Lock::new() },
                    ReleaseMode::Default => return After::Done(Ok(ReleaseState::Unlocked)),
                },
            },
            ReleaseStage::Locks { lock } => match lock.take(self.capacity, answer) {
                After::GoOn(lock) => ReleaseStage::Locks { lock },
                After::Done(state) => return After::Done(Ok(state)),
            },
        };
        After::GoOn(Release {
            capacity: self.capacity,
            stage,
        })
    }

    /// 0: the call has no value of the structure to hand out.
    fn value(_given: &GiveBack, _room: &()) -> u64 {
        0
    }

    #[inline(always)]
    fn answer(
        end: Result<ReleaseState, RobustUniqueIndexSetReleaseError>,
        _given: &GiveBack,
        _room: &(),
    ) -> Result<ReleaseState, RobustUniqueIndexSetReleaseError> {
        end
    }
}
