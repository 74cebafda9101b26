//! The call that brings a state of a container up to date.
ghost use Rattle.std.specs.Prelude.{◌≡◌};
ghost use Rattle.steps.specs.Copied.{value_in};
ghost use Rattle.steps.specs.Container.Look.{at_look, first_look, look_comes_to, look_finds, look_want, look_after, look_kept, look_goes_back};

use crate::ask::{After, Ask, Op, Want};
use crate::container::layout::{change_word, count_word, element_word};
use crate::container::state::{Seen, Shown};
use crate::routine::Routine;
use crate::words::Words;
use std::alloc::AllocError;
use std::marker::PhantomData;

/// Brings a state up to date: true, or false where the container has not changed since it was taken. A new state has
/// seen no number: a look of it copies all that stands there, or nothing while no change was counted.
///
/// At most one step and for each index 2 + `T::WORDS`, and for each turn back at most 1 + `T::WORDS` more. After
/// `update_state` and `get_state` of the Rust crate's `Container`.
pub struct Look<T> {
    pub capacity: u32,
    pub stage: LookStage,
    pub of: PhantomData<T>,
}

impl<T> Clone for Look<T> {
    fn clone(&self) -> Result<Look<T>, AllocError> {
        Ok(*self)
    }
}

impl<T> Copy for Look<T> {}

/// What a look does next. `count` is the number of the element that it copies, and `at` the word of its value.
#[derive(Clone, Copy)]
pub enum LookStage {
    /// Loads the number of changes; if the state has seen it, the answer is false, and the state stays.
    LoadsChange,
    /// Loads an element's number; if the state has seen it, or it is even, goes on to the next element. One of an even
    /// number is shown no more.
    LoadsCount { index: u32 },
    /// Loads the next word of the value.
    LoadsWord { index: u32, count: u64, at: u8 },
    /// Exchanges the number for itself, and shows the value; if it has moved, goes on with the number found.
    ChecksCount { index: u32, count: u64 },
}

impl LookStage {
    /// Whether the call goes back to another copy once it is handed this answer, since the element has changed.
    pub fn goes_back(self, answer: u64) -> bool
        ensures { result ≡ look_goes_back self answer }
    {
        match self {
            LookStage::ChecksCount { count, .. } => answer != count,
            _ => false,
        }
    }
}

impl<T: Words> Look<T> {
    /// A look that has taken no step.
    #[inline(always)]
    pub fn new(capacity: u32) -> Look<T>
        ensures { result ≡ first_look capacity }
    {
        Look {
            capacity,
            stage: LookStage::LoadsChange,
            of: PhantomData,
        }
    }

    /// What it wants next, whatever the state has seen.
    #[inline(always)]
    pub fn wants(self) -> Want<()>
        ensures { result ≡ look_want T.WORDS self }
    {
        let (word, op) = match self.stage {
            LookStage::LoadsChange => (change_word(self.capacity), Op::Load),
            LookStage::LoadsCount { index } => (count_word(self.capacity, index), Op::Load),
            LookStage::LoadsWord { index, at, .. } => (
                element_word(self.capacity, T::WORDS as u8, index, at),
                Op::Load,
            ),
            LookStage::ChecksCount { index, count } => {
                (count_word(self.capacity, index), Op::Exchange(count, count))
            }
        };
        Want::Ask(Ask { word, op })
    }

    /// The look goes on at this stage.
    #[inline(always)]
    fn at(self, stage: LookStage) -> After<Look<T>, bool>
        ensures { result ≡ at_look self stage }
    {
        After::GoOn(Look {
            capacity: self.capacity,
            stage,
            of: PhantomData,
        })
    }

    /// Goes on to this element, if there is one.
    #[inline(always)]
    fn comes_to(self, index: u64) -> After<Look<T>, bool>
        ensures { result ≡ look_comes_to self index }
    {
        if index < self.capacity as u64 {
            self.at(LookStage::LoadsCount {
                index: index as u32,
            })
        } else {
            After::Done(true)
        }
    }

    /// Goes on from another number of an element than the state has seen.
    #[inline(always)]
    fn finds(self, index: u32, count: u64) -> After<Look<T>, bool>
        ensures { result ≡ look_finds self index count }
    {
        if count % 2 == 0 {
            self.comes_to(index as u64 + 1)
        } else {
            self.at(LookStage::LoadsWord {
                index,
                count,
                at: 0,
            })
        }
    }
}

/// The steps of a look: given the numbers that a state has seen, it writes into what the state shows, and
/// answers whether the container has changed.
impl<T: Words> Routine for Look<T> {
    ghost use Rattle.steps.specs.Container.Laws.{look_tells};

    type Given = Seen;

    type Room = Shown<T>;

    type End = bool;

    type Value = T;

    type Answer = bool;

    ghost want_of = { λ c given. look_want T.WORDS c };

    ghost after = { look_after T.WORDS };

    ghost kept = { look_kept T.value_of T.WORDS };

    ghost value_of = { λ given room. value_in T.value_of T.WORDS room.copy };

    ghost answer_of = { λ end given room. end };

    ghost store_tells_nothing = { λ c given room m n t.
        look_tells T.value_of T.WORDS c c.stage given room m n t };

    #[inline(always)]
    fn ask(self, _given: &Seen) -> Want<()> {
        self.wants()
    }

    /// Ends with false where the number of changes is the one that was seen. Otherwise it goes
    /// through all indices: it copies the value of each whose number is new, and again where that
    /// changes during the copy.
    #[inline(always)]
    fn take(self, given: &Seen, room: &mut Shown<T>, answer: u64) -> After<Look<T>, bool> {
        match self.stage {
            LookStage::LoadsChange => {
                room.put_change(answer);
                if answer == given.change() {
                    After::Done(false)
                } else {
                    self.comes_to(0)
                }
            }
            LookStage::LoadsCount { index } => {
                room.put_count(index, answer);
                if answer == given.count(index) {
                    self.comes_to(index as u64 + 1)
                } else {
                    self.finds(index, answer)
                }
            }
            LookStage::LoadsWord { index, count, at } => {
                room.put_word(at, answer);
                if (at as usize) + 1 < T::WORDS {
                    self.at(LookStage::LoadsWord {
                        index,
                        count,
                        at: at + 1,
                    })
                } else {
                    self.at(LookStage::ChecksCount { index, count })
                }
            }
            LookStage::ChecksCount { index, count } => {
                if answer == count {
                    room.put_value(index, count);
                    self.comes_to(index as u64 + 1)
                } else {
                    room.put_count(index, answer);
                    self.finds(index, answer)
                }
            }
        }
    }

    /// The value that was copied last.
    fn value(_given: &Seen, room: &Shown<T>) -> T {
        room.copied()
    }

    #[inline(always)]
    fn answer(end: bool, _given: &Seen, _room: &Shown<T>) -> bool {
        end
    }
}
