//! The call that comes to the values of one owner.
ghost use Rattle.std.specs.Prelude.{◌≡◌};
ghost use Rattle.steps.specs.Copied.{value_in};
ghost use Rattle.steps.specs.Container.Find.{first_find, find_comes_to, find_want, find_after, find_kept};

use crate::ask::{After, Ask, Op, Question, Want};
use crate::container::layout::{count_word, element_word};
use crate::copied::Room;
use crate::enums::OwnerId;
use crate::indices::robust::parts::cell_word;
use crate::routine::{Ends, Routine};
use crate::words::Words;
use std::alloc::AllocError;
use std::marker::PhantomData;

/// Comes to the indices of the owner that it is given, ascending: how many it came to. At most 3 + `T::WORDS` steps
/// for each index.
///
/// A value is what stood there when it was copied: where a remove has stopped before it hid the value, and the index
/// was acquired again, it can be that of an earlier owner. After `find` of the Rust crate's `Container`.
pub struct Find<T, R> {
    pub capacity: u32,
    pub stage: FindStage,
    pub of: PhantomData<(T, R)>,
}

impl<T, R> Clone for Find<T, R> {
    fn clone(&self) -> Result<Find<T, R>, AllocError> {
        Ok(*self)
    }
}

impl<T, R> Copy for Find<T, R> {}

/// What a find does next. `found` is how many indices it has come to, and `count` the number of the element that it
/// copies.
#[derive(Clone, Copy)]
pub enum FindStage {
    /// Loads the cell of the index; where that holds the owner, counts one more, else goes on to the next.
    LoadsCell {
        index: u32,
        found: usize,
    },
    /// Loads the number of the element; where it is even, there is no value, and the next index comes.
    LoadsCount {
        index: u32,
        found: usize,
    },
    /// Loads the next word of the value into the room R.
    LoadsWord {
        index: u32,
        found: usize,
        count: u64,
        at: u8,
    },
    /// Exchanges the number for itself; if it has moved, it asks nothing, and goes on to the next index.
    ChecksCount {
        index: u32,
        found: usize,
        count: u64,
    },
    /// Asks about the value; a no stops it there.
    Asks {
        index: u32,
        found: usize,
    },
}

impl<T: Words, R: Room<T>> Find<T, R> {
    /// A find that has taken no step.
    #[inline(always)]
    pub fn new(capacity: u32) -> Find<T, R>
        ensures { result ≡ first_find capacity }
    {
        Find {
            capacity,
            stage: FindStage::LoadsCell { index: 0, found: 0 },
            of: PhantomData,
        }
    }

    /// The find at this cell, if there is one; else its end with the number found.
    #[inline(always)]
    fn comes_to(self, index: u64, found: usize) -> After<Find<T, R>, usize>
        ensures { result ≡ find_comes_to self index found }
    {
        if index < self.capacity as u64 {
            After::GoOn(Find {
                capacity: self.capacity,
                stage: FindStage::LoadsCell {
                    index: index as u32,
                    found,
                },
                of: PhantomData,
            })
        } else {
            After::Done(found)
        }
    }
}

/// The steps of a find of a container: given the owner, it copies each of its values into a room R, asks
/// about it, and answers how many indices it came to.
impl<T: Words, R: Room<T> + Drop> Routine for Find<T, R> {
    ghost use Rattle.steps.specs.Container.Laws.{find_tells};

    type Given = OwnerId;

    type Room = R;

    type End = usize;

    type Value = T;

    type Answer = usize;

    ghost want_of = { λ c given. find_want T.WORDS c };

    ghost after = { find_after T.WORDS };

    ghost kept = { find_kept R.with_word };

    ghost value_of = { λ given room. value_in T.value_of T.WORDS (R.words_in room) };

    ghost answer_of = { λ end given room. end };

    ghost store_tells_nothing = { λ c given room m n t.
        find_tells R.with_word T.WORDS c c.stage given room m n t };

    /// Loads the next cell. At an index of the owner it loads the number and the words of the value,
    /// exchanges the number for itself, and asks about the value.
    #[inline(always)]
    fn ask(self, _given: &OwnerId) -> Want<()> {
        let (word, op) = match self.stage {
            FindStage::LoadsCell { index, .. } => (cell_word(index), Op::Load),
            FindStage::LoadsCount { index, .. } => (count_word(self.capacity, index), Op::Load),
            FindStage::LoadsWord { index, at, .. } => (
                element_word(self.capacity, T::WORDS as u8, index, at),
                Op::Load,
            ),
            FindStage::ChecksCount { index, count, .. } => {
                (count_word(self.capacity, index), Op::Exchange(count, count))
            }
            FindStage::Asks { index, .. } => {
                return Want::Question(Question::Value(index as usize, ()));
            }
        };
        Want::Ask(Ask { word, op })
    }

    /// Counts each index whose cell has the owner. It asks about the value where a value stands and has not
    /// changed during the copy. It ends after a no, or after the last cell.
    #[inline(always)]
    fn take(self, given: &OwnerId, room: &mut R, answer: u64) -> After<Find<T, R>, usize> {
        let stage = match self.stage {
            FindStage::LoadsCell { index, found } => {
                if answer != given.value() {
                    return self.comes_to(index as u64 + 1, found);
                }
                FindStage::LoadsCount {
                    index,
                    found: found.wrapping_add(1),
                }
            }
            FindStage::LoadsCount { index, found } => {
                if answer % 2 == 0 {
                    return self.comes_to(index as u64 + 1, found);
                }
                FindStage::LoadsWord {
                    index,
                    found,
                    count: answer,
                    at: 0,
                }
            }
            FindStage::LoadsWord {
                index,
                found,
                count,
                at,
            } => {
                room.put(at as usize, answer);
                if (at as usize) + 1 < T::WORDS {
                    FindStage::LoadsWord {
                        index,
                        found,
                        count,
                        at: at + 1,
                    }
                } else {
                    FindStage::ChecksCount {
                        index,
                        found,
                        count,
                    }
                }
            }
            FindStage::ChecksCount {
                index,
                found,
                count,
            } => {
                if answer != count {
                    return self.comes_to(index as u64 + 1, found);
                }
                FindStage::Asks { index, found }
            }
            FindStage::Asks { index, found } => {
                if answer == 0 {
                    return After::Done(found);
                }
                return self.comes_to(index as u64 + 1, found);
            }
        };
        After::GoOn(Find {
            capacity: self.capacity,
            stage,
            of: PhantomData,
        })
    }

    /// The value that was copied last.
    fn value(_given: &OwnerId, room: &R) -> T {
        room.value()
    }

    #[inline(always)]
    fn answer(end: usize, _given: &OwnerId, _room: &R) -> usize {
        end
    }
}

impl<T: Words, R: Room<T> + Drop> Ends for Find<T, R> {
    ghost use Rattle.steps.specs.Container.Find.{find_left};
    ghost use Rattle.steps.specs.Container.Laws.{find_fewer};

    ghost left = { λ c. find_left T.WORDS c.capacity c.stage };

    ghost fewer = { λ c d given n goes. find_fewer T.WORDS T.few c d given n goes };
}
