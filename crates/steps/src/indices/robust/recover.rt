//! The call that frees the indices of dead owners.
ghost use Rattle.std.specs.Prelude.{◌≡◌};
ghost use Rattle.steps.specs.Indices.Robust.Recover.{first_recover, recover_comes_to, recover_want, recover_after, recover_goes_back, recover_frees};

use crate::ask::{After, Ask, Op, Question, Want};
use crate::enums::OwnerId;
use crate::indices::enums::{ReleaseMode, ReleaseState};
use crate::indices::robust::parts::{COUNTER, EMPTY, LOCKED, Lock, Raise, cell_word};
use crate::routine::Routine;

/// Frees the indices that it is told to free: `Locked` where the set is locked, else `Unlocked`. At most 2 steps more
/// than 4 times the capacity in mode `Default`; in mode `LockIfLastIndex` for each index as many more as the capacity
/// and 3. Each turn back takes at most 1 more, or as many as the capacity and 3.
///
/// That an owner whose index it frees is dead is for whoever answers. After `recover` of the Rust crate's
/// `RobustUniqueIndexSet`.
#[derive(Clone, Copy)]
pub struct Recover {
    pub capacity: u32,
    pub stage: RecoverStage,
}

/// What a recovery does next. `index` is the one that it has come to, and `owner` the owner found there.
#[derive(Clone, Copy)]
pub enum RecoverStage {
    /// Loads the counter; where that says locked, the answer is `Locked`, and it comes to no index.
    LoadsCounter,
    /// Loads the cell of the index, and passes over an empty one.
    LoadsCell { index: u32 },
    /// Asks about the owner and the index, and passes over the index after a no.
    Asks { index: u32, owner: OwnerId },
    /// Exchanges the cell from that owner to empty; on failure goes on to the next index.
    EmptiesCell { index: u32, owner: OwnerId },
    /// Takes a step of the raise of the counter; where the set is locked, the answer is `Locked`.
    Raises { index: u32, raise: Raise },
    /// Takes a step of the lock of the set, in mode `LockIfLastIndex` alone, and goes on whatever that answers.
    Locks { index: u32, lock: Lock },
    /// Loads the counter after the last index: `Locked` where that says so, else `Unlocked`.
    LoadsCounterAgain,
}

impl Recover {
    /// A recovery that has taken no step.
    #[inline(always)]
    pub fn new(capacity: u32) -> Recover
        ensures { result ≡ first_recover capacity }
    {
        Recover {
            capacity,
            stage: RecoverStage::LoadsCounter,
        }
    }

    /// Goes on to this index, if there is one, or to the end.
    #[inline(always)]
    fn comes_to(self, index: u64) -> After<Recover, ReleaseState>
        ensures { result ≡ recover_comes_to self index }
    {
        let stage = if index < self.capacity as u64 {
            RecoverStage::LoadsCell {
                index: index as u32,
            }
        } else {
            RecoverStage::LoadsCounterAgain
        };
        After::GoOn(Recover {
            capacity: self.capacity,
            stage,
        })
    }

    /// The owner and the index that it has freed where it is handed this answer.
    #[inline(always)]
    pub fn frees(&self, answer: u64) -> Option<(OwnerId, u32)>
        ensures { result ≡ recover_frees self.now.stage answer }
    {
        match self.stage {
            RecoverStage::EmptiesCell { index, owner } => {
                if answer == owner.value() {
                    Some((owner, index))
                } else {
                    None
                }
            }
            _ => None,
        }
    }

    /// Whether the call goes back in its raise or its lock once it is handed this answer. The counter has moved then.
    pub fn goes_back(&self, answer: u64) -> bool
        ensures { result ≡ recover_goes_back self.now.stage answer }
    {
        match self.stage {
            RecoverStage::LoadsCounter => false,
            RecoverStage::LoadsCell { .. } => false,
            RecoverStage::Asks { .. } => false,
            RecoverStage::EmptiesCell { .. } => false,
            RecoverStage::Raises { raise, .. } => raise.goes_back(answer),
            RecoverStage::Locks { lock, .. } => lock.goes_back(answer),
            RecoverStage::LoadsCounterAgain => false,
        }
    }
}

/// The steps of a recovery of a robust set: given the mode, it asks a question at each owner that it finds,
/// and answers the state of the set.
impl Routine for Recover {
    ghost use Rattle.steps.specs.Indices.Robust.Laws.{recover_tells};

    type Given = ReleaseMode;

    type Room = ();

    type End = ReleaseState;

    type Value = u64;

    type Answer = ReleaseState;

    ghost want_of = { λ c given. recover_want c };

    ghost after = { recover_after };

    ghost kept = { λ c room old. room };

    ghost value_of = { λ given room. 0 };

    ghost answer_of = { λ end given room. end };

    ghost store_tells_nothing = { λ c given room m n t.
        recover_tells c c.stage given room m n t };

    #[inline(always)]
    fn ask(self, _given: &ReleaseMode) -> Want<()> {
        // A match on the field itself is more than the prover takes today, since a stage holds an owner.
        let now = self.stage;
        let (word, op) = match now {
            RecoverStage::LoadsCounter => (COUNTER, Op::Load),
            RecoverStage::LoadsCell { index } => (cell_word(index), Op::Load),
            RecoverStage::Asks { index, owner } => {
                return Want::Question(Question::Owned(owner, index as usize));
            }
            RecoverStage::EmptiesCell { index, owner } => {
                (cell_word(index), Op::Exchange(owner.value(), EMPTY))
            }
            RecoverStage::Raises { raise, .. } => return raise.ask(),
            RecoverStage::Locks { lock, .. } => return lock.ask(),
            RecoverStage::LoadsCounterAgain => (COUNTER, Op::Load),
        };
        Want::Ask(Ask { word, op })
    }

    /// Asks about the owner of each filled cell. After a yes it empties the cell, raises the counter and, in
    /// the mode that locks, tries to lock. It ends at a locked counter, or after the last cell, with the
    /// state of the set.
    #[inline(always)]
    fn take(
        self,
        given: &ReleaseMode,
        _room: &mut (),
        answer: u64,
    ) -> After<Recover, ReleaseState> {
        let now = self.stage;
        let stage = match now {
            RecoverStage::LoadsCounter => {
                if answer == LOCKED {
                    return After::Done(ReleaseState::Locked);
                }
                return self.comes_to(0);
            }
            RecoverStage::LoadsCell { index } => match OwnerId::new(answer) {
                Ok(owner) => RecoverStage::Asks { index, owner },
                Err(_) => return self.comes_to(index as u64 + 1),
            },
            RecoverStage::Asks { index, owner } => {
                if answer == 0 {
                    return self.comes_to(index as u64 + 1);
                }
                RecoverStage::EmptiesCell { index, owner }
            }
            RecoverStage::EmptiesCell { index, owner } => {
                if answer != owner.value() {
                    return self.comes_to(index as u64 + 1);
                }
                RecoverStage::Raises {
                    index,
                    raise: Raise::LoadsCounter,
                }
            }
            RecoverStage::Raises { index, raise } => match raise.take(answer) {
                After::GoOn(raise) => RecoverStage::Raises { index, raise },
                After::Done(ReleaseState::Locked) => return After::Done(ReleaseState::Locked),
                After::Done(ReleaseState::Unlocked) => match given {
                    ReleaseMode::LockIfLastIndex => RecoverStage::Locks {
                        index,
                        lock: Lock::new(),
                    },
                    ReleaseMode::Default => return self.comes_to(index as u64 + 1),
                },
            },
            RecoverStage::Locks { index, lock } => match lock.take(self.capacity, answer) {
                After::GoOn(lock) => RecoverStage::Locks { index, lock },
                After::Done(_) => return self.comes_to(index as u64 + 1),
            },
            RecoverStage::LoadsCounterAgain => {
                return After::Done(if answer == LOCKED {
                    ReleaseState::Locked
                } else {
                    ReleaseState::Unlocked
                });
            }
        };
        After::GoOn(Recover {
            capacity: self.capacity,
            stage,
        })
    }

    /// 0: the call has no value of the structure to hand out.
    fn value(_given: &ReleaseMode, _room: &()) -> u64 {
        0
    }

    #[inline(always)]
    fn answer(end: ReleaseState, _given: &ReleaseMode, _room: &()) -> ReleaseState {
        end
    }
}
