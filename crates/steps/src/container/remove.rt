//! The call that removes a value from a container.
ghost use Rattle.std.specs.Prelude.{◌≡◌};
ghost use Rattle.steps.specs.Container.Remove.{first_remove, remove_want, remove_after, remove_goes_back};

use crate::ask::{After, Ask, Op, Want};
use crate::container::enums::ContainerRemoveError;
use crate::container::layout::{change_word, count_word};
use crate::indices::enums::ReleaseState;
use crate::indices::robust::release::{GiveBack, Release, ReleaseStage};
use crate::routine::Routine;

/// Removes the value at the index that it is given, where that is the given owner's. It answers `Unlocked`, or
/// `Locked` in mode `LockIfLastIndex` where the container is locked; else `ContainerHandleNotOwnedByContainer`, and
/// nothing changes. At most three steps more than a release of the set.
///
/// Between the release and the step that hides the value, it can still be seen. After `remove` of the Rust crate's
/// `Container`.
#[derive(Clone, Copy)]
pub struct Remove {
    pub capacity: u32,
    pub stage: RemoveStage,
}

/// What a remove does next. `count` is the number that it has loaded, and `state` what its release has answered.
#[derive(Clone, Copy)]
pub enum RemoveStage {
    /// Asks for no word, and answers the error: all that happens at an index past the capacity.
    Refuses,
    /// Loads the number of the element.
    LoadsCount,
    /// Takes a step of the release of the index; where that fails, the answer is the error.
    Releases { count: u64, stage: ReleaseStage },
    /// Exchanges an odd number for the next, and goes on also where that fails. An even one is passed over.
    Hides { count: u64, state: ReleaseState },
    /// Adds 1 to the changes, and answers what the release has answered.
    AddsChange { state: ReleaseState },
}

impl RemoveStage {
    /// Whether the call goes back, in its release, once it is handed this answer, since the counter has moved.
    pub fn goes_back(self, capacity: u32, answer: u64) -> bool
        ensures { result ≡ remove_goes_back self answer }
    {
        match self {
            RemoveStage::Releases { stage, .. } => Release { capacity, stage }.goes_back(answer),
            _ => false,
        }
    }
}

impl Remove {
    /// A remove of this index that has taken no step.
    #[inline(always)]
    pub fn new(capacity: u32, index: u32) -> Remove
        ensures { result ≡ first_remove capacity index }
    {
        Remove {
            capacity,
            stage: if index < capacity {
                RemoveStage::LoadsCount
            } else {
                RemoveStage::Refuses
            },
        }
    }
}

/// The steps of a remove: given the index, its owner and the mode, it answers the state of the
/// container, or the error.
impl Routine for Remove {
    ghost use Rattle.steps.specs.Container.Laws.{remove_tells};

    type Given = GiveBack;

    type Room = ();

    type End = Result<ReleaseState, ContainerRemoveError>;

    type Value = u64;

    type Answer = Result<ReleaseState, ContainerRemoveError>;

    ghost want_of = { remove_want };

    ghost after = { remove_after };

    ghost kept = { λ c room old. room };

    ghost value_of = { λ given room. 0 };

    ghost answer_of = { λ end given room. end };

    ghost store_tells_nothing = { λ c given room m n t.
        remove_tells c c.stage given room m n t };

    /// Asks for the number of the index, for what its release asks for, makes the number even where it is
    /// odd, and adds 1 to the number of changes. A handle of another container asks for nothing.
    #[inline(always)]
    fn ask(self, given: &GiveBack) -> Want<()> {
        let (word, op) = match self.stage {
            RemoveStage::Refuses => return Want::Nothing,
            RemoveStage::LoadsCount => (count_word(self.capacity, given.index), Op::Load),
            RemoveStage::Releases { stage, .. } => {
                let release = Release {
                    capacity: self.capacity,
                    stage,
                };
                return release.ask(given);
            }
            RemoveStage::Hides { count, .. } => (
                count_word(self.capacity, given.index),
                Op::Exchange(count, count.wrapping_add(1)),
            ),
            RemoveStage::AddsChange { .. } => (change_word(self.capacity), Op::Add(1)),
        };
        Want::Ask(Ask { word, op })
    }

    /// Ends with the error where the handle is of another container, or the index is not the owner's.
    /// Otherwise it ends with the state of the release, once the change is counted.
    #[inline(always)]
    fn take(
        self,
        given: &GiveBack,
        _room: &mut (),
        answer: u64,
    ) -> After<Remove, Result<ReleaseState, ContainerRemoveError>> {
        let stage = match self.stage {
            RemoveStage::Refuses => {
                return After::Done(Err(ContainerRemoveError::ContainerHandleNotOwnedByContainer));
            }
            RemoveStage::LoadsCount => RemoveStage::Releases {
                count: answer,
                stage: ReleaseStage::EmptiesCell,
            },
            RemoveStage::Releases { count, stage } => {
                let release = Release {
                    capacity: self.capacity,
                    stage,
                };
                match release.take(given, &mut (), answer) {
                    After::GoOn(release) => RemoveStage::Releases {
                        count,
                        stage: release.stage,
                    },
                    After::Done(Ok(state)) => {
                        if count % 2 == 0 {
                            RemoveStage::AddsChange { state }
                        } else {
                            RemoveStage::Hides { count, state }
                        }
                    }
                    After::Done(Err(_)) => {
                        return After::Done(Err(
                            ContainerRemoveError::ContainerHandleNotOwnedByContainer,
                        ));
                    }
                }
            }
            RemoveStage::Hides { state, .. } => RemoveStage::AddsChange { state },
            RemoveStage::AddsChange { state } => return After::Done(Ok(state)),
        };
        After::GoOn(Remove {
            capacity: self.capacity,
            stage,
        })
    }

    /// 0: the call has no value of the structure to hand out.
    fn value(_given: &GiveBack, _room: &()) -> u64 {
        0
    }

    #[inline(always)]
    fn answer(
        end: Result<ReleaseState, ContainerRemoveError>,
        _given: &GiveBack,
        _room: &(),
    ) -> Result<ReleaseState, ContainerRemoveError> {
        end
    }
}
