//! The call that puts another value into the place of one that stands in a container.
ghost use Rattle.std.specs.Prelude.{◌≡◌};
ghost use Rattle.steps.specs.Container.Replace.{first_replace, replace_want, replace_after};

use crate::ask::{After, Ask, Op, Want};
use crate::container::enums::ContainerRemoveError;
use crate::container::layout::{change_word, count_word, element_word};
use crate::enums::OwnerId;
use crate::indices::robust::parts::cell_word;
use crate::routine::{Ends, Routine};
use crate::words::Words;
use std::alloc::AllocError;
use std::marker::PhantomData;

/// Puts the value that it is given into the place of the one at the given index. Where the index is not that of the
/// given owner: `ContainerHandleNotOwnedByContainer`, and nothing changes. At most 5 + `T::WORDS` steps.
///
/// That the index stays the owner's meanwhile, and that no other replace of it is under way, is the caller's concern.
/// The Rust crate's `Container` has no such call.
pub struct Replace<T> {
    pub capacity: u32,
    pub stage: ReplaceStage,
    pub of: PhantomData<T>,
}

impl<T> Clone for Replace<T> {
    fn clone(&self) -> Result<Replace<T>, AllocError> {
        Ok(*self)
    }
}

impl<T> Copy for Replace<T> {}

/// What a replace is given.
#[derive(Clone, Copy)]
pub struct Replacement<T> {
    pub index: u32,
    pub owner: OwnerId,
    pub value: T,
}

/// What a replace does next. `count` is the number of the element, and `at` the word of the value.
#[derive(Clone, Copy)]
pub enum ReplaceStage {
    /// Asks for no word, and answers the error: all that happens at an index past the capacity.
    Refuses,
    /// Loads the cell of the index; where that does not hold the owner, the answer is the error.
    LoadsCell,
    /// Loads the number of the element; where it is even, nothing has to be hidden.
    LoadsCount,
    /// Exchanges an odd number for the next, and goes on also where that fails: from then on nothing stands there.
    Hides { count: u64 },
    /// Stores the next word of the value.
    Stores { at: u8 },
    /// Adds 1 to the number: from then on the value stands.
    AddsCount,
    /// Adds 1 to the changes, and ends.
    AddsChange,
}

impl<T: Words> Replace<T> {
    /// A replace at this index that has taken no step.
    #[inline(always)]
    pub fn new(capacity: u32, index: u32) -> Replace<T>
        ensures { result ≡ first_replace capacity index }
    {
        Replace {
            capacity,
            stage: if index < capacity {
                ReplaceStage::LoadsCell
            } else {
                ReplaceStage::Refuses
            },
            of: PhantomData,
        }
    }
}

/// The steps of a replace: given the index, its owner and the value, it answers nothing, or the error.
impl<T: Words> Routine for Replace<T> {
    ghost use Rattle.steps.specs.Container.Laws.{replace_tells};

    type Given = Replacement<T>;

    type Room = ();

    type End = Result<(), ContainerRemoveError>;

    type Value = T;

    type Answer = Result<(), ContainerRemoveError>;

    ghost want_of = { replace_want T.words_of T.WORDS };

    ghost after = { replace_after T.WORDS };

    ghost kept = { λ c room old. room };

    ghost value_of = { λ given room. given.value };

    ghost answer_of = { λ end given room. end };

    ghost store_tells_nothing = { λ c given room m n t.
        replace_tells T.words_of T.WORDS c c.stage given room m n t };

    /// Loads the cell and the number of the index, makes the number even where it is odd, stores the
    /// words of the value, and adds 1 to the number and to the number of changes. A handle of another
    /// container asks for nothing.
    #[inline(always)]
    fn ask(self, given: &Replacement<T>) -> Want<()> {
        let (word, op) = match self.stage {
            ReplaceStage::Refuses => return Want::Nothing,
            ReplaceStage::LoadsCell => (cell_word(given.index), Op::Load),
            ReplaceStage::LoadsCount => (count_word(self.capacity, given.index), Op::Load),
            ReplaceStage::Hides { count } => (
                count_word(self.capacity, given.index),
                Op::Exchange(count, count.wrapping_add(1)),
            ),
            ReplaceStage::Stores { at } => {
                let new = if (at as usize) < T::WORDS {
                    given.value.word(at as usize)
                } else {
                    0
                };
                (
                    element_word(self.capacity, T::WORDS as u8, given.index, at),
                    Op::Store(new),
                )
            }
            ReplaceStage::AddsCount => (count_word(self.capacity, given.index), Op::Add(1)),
            ReplaceStage::AddsChange => (change_word(self.capacity), Op::Add(1)),
        };
        Want::Ask(Ask { word, op })
    }

    /// Ends with the error where the handle is of another container, or the index is not the owner's.
    /// Otherwise the words follow one another, and it ends once the change is counted.
    #[inline(always)]
    fn take(
        self,
        given: &Replacement<T>,
        _room: &mut (),
        answer: u64,
    ) -> After<Replace<T>, Result<(), ContainerRemoveError>> {
        let stage = match self.stage {
            ReplaceStage::Refuses => {
                return After::Done(Err(ContainerRemoveError::ContainerHandleNotOwnedByContainer));
            }
            ReplaceStage::LoadsCell => {
                if answer != given.owner.value() {
                    return After::Done(Err(
                        ContainerRemoveError::ContainerHandleNotOwnedByContainer,
                    ));
                }
                ReplaceStage::LoadsCount
            }
            ReplaceStage::LoadsCount => {
                if answer % 2 == 0 {
                    ReplaceStage::Stores { at: 0 }
                } else {
                    ReplaceStage::Hides { count: answer }
                }
            }
            ReplaceStage::Hides { .. } => ReplaceStage::Stores { at: 0 },
            ReplaceStage::Stores { at } => {
                if (at as usize) + 1 < T::WORDS {
                    ReplaceStage::Stores { at: at + 1 }
                } else {
                    ReplaceStage::AddsCount
                }
            }
            ReplaceStage::AddsCount => ReplaceStage::AddsChange,
            ReplaceStage::AddsChange => return After::Done(Ok(())),
        };
        After::GoOn(Replace {
            capacity: self.capacity,
            stage,
            of: PhantomData,
        })
    }

    /// The value that is put in place of the old one.
    fn value(given: &Replacement<T>, _room: &()) -> T {
        given.value
    }

    #[inline(always)]
    fn answer(
        end: Result<(), ContainerRemoveError>,
        _given: &Replacement<T>,
        _room: &(),
    ) -> Result<(), ContainerRemoveError> {
        end
    }
}

impl<T: Words> Ends for Replace<T> {
    ghost use Rattle.steps.specs.Container.Replace.{replace_left};
    ghost use Rattle.steps.specs.Container.Laws.{replace_fewer};

    ghost left = { λ c. replace_left T.WORDS c.stage };

    ghost fewer = { λ c d given n goes. replace_fewer T.WORDS c d given n goes };
}
