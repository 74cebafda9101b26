//! The call that adds a value to a container.
ghost use Rattle.std.specs.Prelude.{◌≡◌};
ghost use Rattle.steps.specs.Container.Add.{first_add, add_want, add_after, add_goes_back};

use crate::ask::{After, Ask, Op, Want};
use crate::container::enums::ContainerAddFailure;
use crate::container::layout::{change_word, count_word, element_word};
use crate::enums::OwnerId;
use crate::indices::robust::acquire::{Acquire, AcquireStage};
use crate::routine::Routine;
use crate::words::Words;
use std::alloc::AllocError;
use std::marker::PhantomData;

/// Adds the value that it is given, for its owner: the index, `OutOfSpace` or `IsLocked`. It takes the lowest index
/// that it finds without an owner. At most 7 + `T::WORDS` steps more than the capacity, and for each turn back at most
/// 1 more, or as many as the capacity and 1.
///
/// After `add` of the Rust crate's `Container`.
pub struct Add<T> {
    pub capacity: u32,
    pub stage: AddStage,
    pub of: PhantomData<T>,
}

impl<T> Clone for Add<T> {
    fn clone(&self) -> Result<Add<T>, AllocError> {
        Ok(*self)
    }
}

impl<T> Copy for Add<T> {}

/// A value and its owner: what an add is given.
#[derive(Clone, Copy)]
pub struct Owned<T> {
    pub value: T,
    pub owner: OwnerId,
}

/// What an add does next. `index` is the one that it has acquired, `count` the number of its element, and `at` the
/// word of the value.
#[derive(Clone, Copy)]
pub enum AddStage {
    /// Takes a step of the acquire of an index; where none is handed out, the answer says why.
    Acquires { stage: AcquireStage },
    /// Loads the number of the element; where it is even, nothing has to be hidden.
    LoadsCount { index: u32 },
    /// Exchanges an odd number for the next, and goes on also where that fails.
    Hides { index: u32, count: u64 },
    /// Stores the next word of the value.
    Stores { index: u32, at: u8 },
    /// Adds 1 to the number: from then on the value stands.
    AddsCount { index: u32 },
    /// Adds 1 to the changes, and answers the index.
    AddsChange { index: u32 },
}

impl AddStage {
    /// Whether the call goes back, in its acquire, once it is handed this answer, since the counter has moved.
    pub fn goes_back(self, capacity: u32, answer: u64) -> bool
        ensures { result ≡ add_goes_back self answer }
    {
        match self {
            AddStage::Acquires { stage } => Acquire { capacity, stage }.goes_back(answer),
            _ => false,
        }
    }
}

impl<T: Words> Add<T> {
    /// An add that has taken no step.
    #[inline(always)]
    pub fn new(capacity: u32) -> Add<T>
        ensures { result ≡ first_add capacity }
    {
        Add {
            capacity,
            stage: AddStage::Acquires {
                stage: AcquireStage::LoadsCounter,
            },
            of: PhantomData,
        }
    }
}

/// The steps of an add: given the value and its owner, it answers the index, or why there is none.
impl<T: Words> Routine for Add<T> {
    ghost use Rattle.steps.specs.Container.Laws.{add_tells};

    type Given = Owned<T>;

    type Room = ();

    type End = Result<u32, ContainerAddFailure>;

    type Value = T;

    type Answer = Result<u32, ContainerAddFailure>;

    ghost want_of = { add_want T.words_of T.WORDS };

    ghost after = { λ c given old. add_after T.WORDS c old };

    ghost kept = { λ c room old. room };

    ghost value_of = { λ given room. given.value };

    ghost answer_of = { λ end given room. end };

    ghost store_tells_nothing = { λ c given room m n t.
        add_tells T.words_of T.WORDS c c.stage given room m n t };

    /// Asks for what its acquire asks for, makes the number of the index even where it is odd, stores the
    /// words of the value, and adds 1 to the number and to the number of changes.
    #[inline(always)]
    fn ask(self, given: &Owned<T>) -> Want<()> {
        let (word, op) = match self.stage {
            AddStage::Acquires { stage } => {
                let acquire = Acquire {
                    capacity: self.capacity,
                    stage,
                };
                return acquire.ask(&given.owner);
            }
            AddStage::LoadsCount { index } => (count_word(self.capacity, index), Op::Load),
            AddStage::Hides { index, count } => (
                count_word(self.capacity, index),
                Op::Exchange(count, count.wrapping_add(1)),
            ),
            AddStage::Stores { index, at } => {
                let new = if (at as usize) < T::WORDS {
                    given.value.word(at as usize)
                } else {
                    0
                };
                (
                    element_word(self.capacity, T::WORDS as u8, index, at),
                    Op::Store(new),
                )
            }
            AddStage::AddsCount { index } => (count_word(self.capacity, index), Op::Add(1)),
            AddStage::AddsChange { .. } => (change_word(self.capacity), Op::Add(1)),
        };
        Want::Ask(Ask { word, op })
    }

    /// An acquire that fails ends the add. Otherwise the value goes to the index that it got, and the add
    /// ends with that index.
    #[inline(always)]
    fn take(
        self,
        given: &Owned<T>,
        _room: &mut (),
        answer: u64,
    ) -> After<Add<T>, Result<u32, ContainerAddFailure>> {
        let stage = match self.stage {
            AddStage::Acquires { stage } => {
                let acquire = Acquire {
                    capacity: self.capacity,
                    stage,
                };
                match acquire.take(&given.owner, &mut (), answer) {
                    After::GoOn(acquire) => AddStage::Acquires {
                        stage: acquire.stage,
                    },
                    After::Done(Ok(index)) => AddStage::LoadsCount { index },
                    After::Done(Err(failure)) => {
                        return After::Done(Err(ContainerAddFailure::from(failure)));
                    }
                }
            }
            AddStage::LoadsCount { index } => {
                if answer % 2 == 0 {
                    AddStage::Stores { index, at: 0 }
                } else {
                    AddStage::Hides {
                        index,
                        count: answer,
                    }
                }
            }
            AddStage::Hides { index, .. } => AddStage::Stores { index, at: 0 },
            AddStage::Stores { index, at } => {
                if (at as usize) + 1 < T::WORDS {
                    AddStage::Stores { index, at: at + 1 }
                } else {
                    AddStage::AddsCount { index }
                }
            }
            AddStage::AddsCount { index } => AddStage::AddsChange { index },
            AddStage::AddsChange { index } => return After::Done(Ok(index)),
        };
        After::GoOn(Add {
            capacity: self.capacity,
            stage,
            of: PhantomData,
        })
    }

    /// The value that is added.
    fn value(given: &Owned<T>, _room: &()) -> T {
        given.value
    }

    #[inline(always)]
    fn answer(
        end: Result<u32, ContainerAddFailure>,
        _given: &Owned<T>,
        _room: &(),
    ) -> Result<u32, ContainerAddFailure> {
        end
    }
}
