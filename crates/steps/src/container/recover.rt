//! The call that frees the indices of an owner that has died.
ghost use Rattle.std.specs.Prelude.{◌≡◌};
ghost use Rattle.steps.specs.Copied.{value_in};
ghost use Rattle.steps.specs.Container.Recover.{goes_to, first_recover, recover_comes_to, recover_sees, recover_raises};
ghost use Rattle.steps.specs.Container.Recover.{recover_want, recover_after, recover_kept, recover_goes_back};

use crate::ask::{After, Ask, Op, Question, Want};
use crate::container::layout::{change_word, count_word, element_word};
use crate::copied::Room;
use crate::enums::OwnerId;
use crate::indices::enums::{ReleaseMode, ReleaseState};
use crate::indices::robust::parts::{COUNTER, EMPTY, LOCKED, Lock, Raise, cell_word};
use crate::routine::Routine;
use crate::words::Words;
use std::alloc::AllocError;
use std::marker::PhantomData;

/// Frees the indices of the owner that it is given: `Locked` where the container is locked, else `Unlocked`. At most 3
/// steps and for each index 7 + `T::WORDS` in mode `Default`; in mode `LockIfLastIndex` for each index as many more as
/// the capacity and 3. Each turn back takes at most 1 + `T::WORDS` more, or as many as the capacity and 3.
///
/// That the owner is dead is the caller's concern. After `recover` of the Rust crate's `Container`.
pub struct Recover<T, R> {
    pub capacity: u32,
    pub stage: RecoverStage,
    pub of: PhantomData<(T, R)>,
}

impl<T, R> Clone for Recover<T, R> {
    fn clone(&self) -> Result<Recover<T, R>, AllocError> {
        Ok(*self)
    }
}

impl<T, R> Copy for Recover<T, R> {}

/// What a recovery is given: the owner, and whether it locks the container where no index is left.
#[derive(Clone, Copy)]
pub struct DeadOwner {
    pub owner: OwnerId,
    pub mode: ReleaseMode,
}

/// What a recovery does next. `index` is the one that it has come to, and `count` the number of its element.
#[derive(Clone, Copy)]
pub enum RecoverStage {
    /// Loads the counter; where that says locked, the answer is `Locked`, and it comes to no index.
    LoadsCounter,
    /// Loads the cell of the index, and passes over one that does not hold the owner.
    LoadsCell { index: u32 },
    /// Loads the number of the element. Where it is even, there is no value, and the index is freed without a
    /// question.
    LoadsCount { index: u32 },
    /// Loads the next word of the value into the room R.
    LoadsWord { index: u32, count: u64, at: u8 },
    /// Exchanges the number for itself; if it has moved, goes on with the number found.
    ChecksCount { index: u32, count: u64 },
    /// Asks about the value, and passes over the index after a no.
    Asks { index: u32, count: u64 },
    /// Exchanges the cell from the owner to empty; on failure goes on to the next index.
    EmptiesCell { index: u32, count: u64 },
    /// Exchanges an odd number for the next, which hides the value, and goes on also where that fails.
    Hides { index: u32, count: u64 },
    /// Takes a step of the raise of the counter; where the container is locked, the answer is `Locked`.
    Raises { index: u32, raise: Raise },
    /// Takes a step of the lock of the container, in mode `LockIfLastIndex` alone, and goes on whatever that answers.
    Locks { index: u32, lock: Lock },
    /// Loads the counter after the last index: `Locked` where that says so, else `Unlocked`.
    LoadsCounterAgain,
    /// Adds 1 to the changes, before any answer, and answers.
    AddsChange { state: ReleaseState },
}

impl RecoverStage {
    /// Whether the call goes back once it is handed this answer. It goes to another copy, since the element has
    /// changed, or back in its raise or its lock, since the counter has moved.
    pub fn goes_back(self, answer: u64) -> bool
        ensures { result ≡ recover_goes_back self answer }
    {
        match self {
            RecoverStage::ChecksCount { count, .. } => answer != count,
            RecoverStage::Raises { raise, .. } => raise.goes_back(answer),
            RecoverStage::Locks { lock, .. } => lock.goes_back(answer),
            _ => false,
        }
    }
}

impl<T: Words, R: Room<T>> Recover<T, R> {
    /// A recovery that has taken no step.
    #[inline(always)]
    pub fn new(capacity: u32) -> Recover<T, R>
        ensures { result ≡ first_recover capacity }
    {
        Recover {
            capacity,
            stage: RecoverStage::LoadsCounter,
            of: PhantomData,
        }
    }

    /// The recovery goes on at this stage.
    #[inline(always)]
    fn goes_to(self, stage: RecoverStage) -> After<Recover<T, R>, ReleaseState>
        ensures { result ≡ goes_to self stage }
    {
        After::GoOn(Recover {
            capacity: self.capacity,
            stage,
            of: PhantomData,
        })
    }

    /// Goes on to this index, if there is one, or to the end.
    #[inline(always)]
    fn comes_to(self, index: u64) -> After<Recover<T, R>, ReleaseState>
        ensures { result ≡ recover_comes_to self index }
    {
        self.goes_to(if index < self.capacity as u64 {
            RecoverStage::LoadsCell {
                index: index as u32,
            }
        } else {
            RecoverStage::LoadsCounterAgain
        })
    }

    /// Goes on from the number of an element that it has loaded or found.
    #[inline(always)]
    fn sees(self, index: u32, count: u64) -> After<Recover<T, R>, ReleaseState>
        ensures { result ≡ recover_sees self index count }
    {
        self.goes_to(if count % 2 == 0 {
            RecoverStage::EmptiesCell { index, count }
        } else {
            RecoverStage::LoadsWord {
                index,
                count,
                at: 0,
            }
        })
    }

    /// The recovery goes on to raise the counter.
    #[inline(always)]
    fn raises(self, index: u32) -> After<Recover<T, R>, ReleaseState>
        ensures { result ≡ recover_raises self index }
    {
        self.goes_to(RecoverStage::Raises {
            index,
            raise: Raise::LoadsCounter,
        })
    }
}

/// The steps of a recovery of a container: given the dead owner and the mode, it copies each of the owner's
/// values into a room R, asks about it, and answers the state of the container.
impl<T: Words, R: Room<T> + Drop> Routine for Recover<T, R> {
    ghost use Rattle.steps.specs.Container.Laws.{recover_tells};

    type Given = DeadOwner;

    type Room = R;

    type End = ReleaseState;

    type Value = T;

    type Answer = ReleaseState;

    ghost want_of = { recover_want T.WORDS };

    ghost after = { recover_after T.WORDS };

    ghost kept = { recover_kept R.with_word };

    ghost value_of = { λ given room. value_in T.value_of T.WORDS (R.words_in room) };

    ghost answer_of = { λ end given room. end };

    ghost store_tells_nothing = { λ c given room m n t.
        recover_tells R.with_word T.WORDS c c.stage given room m n t };

    /// Asks for the counter and for one cell after another. At an index of the dead owner it copies the value
    /// that stands, asks about it, empties the cell, hides the value, raises the counter and, in the mode
    /// that locks, locks.
    #[inline(always)]
    fn ask(self, given: &DeadOwner) -> Want<()> {
        let (word, op) = match self.stage {
            RecoverStage::LoadsCounter => (COUNTER, Op::Load),
            RecoverStage::LoadsCell { index } => (cell_word(index), Op::Load),
            RecoverStage::LoadsCount { index } => (count_word(self.capacity, index), Op::Load),
            RecoverStage::LoadsWord { index, at, .. } => (
                element_word(self.capacity, T::WORDS as u8, index, at),
                Op::Load,
            ),
            RecoverStage::ChecksCount { index, count } => {
                (count_word(self.capacity, index), Op::Exchange(count, count))
            }
            RecoverStage::Asks { index, .. } => {
                return Want::Question(Question::Value(index as usize, ()));
            }
            RecoverStage::EmptiesCell { index, .. } => {
                (cell_word(index), Op::Exchange(given.owner.value(), EMPTY))
            }
            RecoverStage::Hides { index, count } => (
                count_word(self.capacity, index),
                Op::Exchange(count, count.wrapping_add(1)),
            ),
            RecoverStage::Raises { raise, .. } => return raise.ask(),
            RecoverStage::Locks { lock, .. } => return lock.ask(),
            RecoverStage::LoadsCounterAgain => (COUNTER, Op::Load),
            RecoverStage::AddsChange { .. } => (change_word(self.capacity), Op::Add(1)),
        };
        Want::Ask(Ask { word, op })
    }

    /// Asks about each value of the dead owner, once it is copied without a change in between. After a yes,
    /// or where no value stands at the index, it empties the cell. It ends at a locked counter, or after the
    /// last cell, once the number of changes is raised.
    #[inline(always)]
    fn take(
        self,
        given: &DeadOwner,
        room: &mut R,
        answer: u64,
    ) -> After<Recover<T, R>, ReleaseState> {
        match self.stage {
            RecoverStage::LoadsCounter => {
                if answer == LOCKED {
                    return self.goes_to(RecoverStage::AddsChange {
                        state: ReleaseState::Locked,
                    });
                }
                self.comes_to(0)
            }
            RecoverStage::LoadsCell { index } => {
                if answer != given.owner.value() {
                    return self.comes_to(index as u64 + 1);
                }
                self.goes_to(RecoverStage::LoadsCount { index })
            }
            RecoverStage::LoadsCount { index } => self.sees(index, answer),
            RecoverStage::LoadsWord { index, count, at } => {
                room.put(at as usize, answer);
                if (at as usize) + 1 < T::WORDS {
                    self.goes_to(RecoverStage::LoadsWord {
                        index,
                        count,
                        at: at + 1,
                    })
                } else {
                    self.goes_to(RecoverStage::ChecksCount { index, count })
                }
            }
            RecoverStage::ChecksCount { index, count } => {
                if answer != count {
                    return self.sees(index, answer);
                }
                self.goes_to(RecoverStage::Asks { index, count })
            }
            RecoverStage::Asks { index, count } => {
                if answer == 0 {
                    return self.comes_to(index as u64 + 1);
                }
                self.goes_to(RecoverStage::EmptiesCell { index, count })
            }
            RecoverStage::EmptiesCell { index, count } => {
                if answer != given.owner.value() {
                    return self.comes_to(index as u64 + 1);
                }
                if count % 2 == 0 {
                    self.raises(index)
                } else {
                    self.goes_to(RecoverStage::Hides { index, count })
                }
            }
            RecoverStage::Hides { index, .. } => self.raises(index),
            RecoverStage::Raises { index, raise } => match raise.take(answer) {
                After::GoOn(raise) => self.goes_to(RecoverStage::Raises { index, raise }),
                After::Done(ReleaseState::Locked) => self.goes_to(RecoverStage::AddsChange {
                    state: ReleaseState::Locked,
                }),
                After::Done(ReleaseState::Unlocked) => match given.mode {
                    ReleaseMode::LockIfLastIndex => self.goes_to(RecoverStage::Locks {
                        index,
                        lock: Lock::new(),
                    }),
                    ReleaseMode::Default => self.comes_to(index as u64 + 1),
                },
            },
            RecoverStage::Locks { index, lock } => match lock.take(self.capacity, answer) {
                After::GoOn(lock) => self.goes_to(RecoverStage::Locks { index, lock }),
                After::Done(_) => self.comes_to(index as u64 + 1),
            },
            RecoverStage::LoadsCounterAgain => self.goes_to(RecoverStage::AddsChange {
                state: if answer == LOCKED {
                    ReleaseState::Locked
                } else {
                    ReleaseState::Unlocked
                },
            }),
            RecoverStage::AddsChange { state } => After::Done(state),
        }
    }

    /// The value that was copied last.
    fn value(_given: &DeadOwner, room: &R) -> T {
        room.value()
    }

    #[inline(always)]
    fn answer(end: ReleaseState, _given: &DeadOwner, _room: &R) -> ReleaseState {
        end
    }
}
