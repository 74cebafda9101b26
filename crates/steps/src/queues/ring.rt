//! The calls of the bounded queue with one producer and one consumer, over values of any number of words.
//!
//! Its words are the write position, the read position, the producer's role, the consumer's role, and then the cells,
//! `capacity` of them with `T::WORDS` words each. The position p stands in the cell p mod capacity.
ghost use Rattle.std.specs.Prelude.{◌≡◌};
ghost use Rattle.steps.specs.Copied.{value_in};
ghost use Rattle.steps.specs.Queues.Ring.{cell_word, first_push, push_want, push_after, first_pop, pop_want, pop_after, pop_kept, pop_answer};

use crate::ask::{After, Ask, Op, Want};
use crate::copied::Room;
use crate::routine::{Ends, Routine};
use crate::words::Words;
use std::alloc::AllocError;
use std::marker::PhantomData;

/// The word of the write position.
pub const WRITE: usize = 0;
/// The word of the read position.
pub const READ: usize = 1;
/// The word of the producer's role.
pub const PRODUCER: usize = 2;
/// The word of the consumer's role.
pub const CONSUMER: usize = 3;
/// The first word of the first cell.
pub const FIRST_CELL: usize = 4;

/// The first word of the position's cell, where a value takes `words` words. A queue of capacity 0 has no
/// cell, and never asks for one.
#[inline(always)]
pub fn cell_word(capacity: u32, words: u8, position: u64) -> usize
    ensures { result ≡ cell_word capacity words position }
{
    if capacity == 0 {
        FIRST_CELL
    } else if capacity & (capacity - 1) == 0 {
        // Where the capacity is a power of two a mask gives the same, in a small part of a division's time.
        FIRST_CELL + words as usize * (position & (capacity - 1) as u64) as usize
    } else {
        FIRST_CELL + words as usize * (position % capacity as u64) as usize
    }
}

/// Appends the value that it is given: true, or false where the queue is full. At most 3 + `T::WORDS` steps.
///
/// One push at a time is the caller's concern. After `push` of the Rust crate's `IndexQueue` and `Queue`.
#[derive(Clone, Copy)]
pub struct Push<T> {
    pub capacity: u32,
    pub stage: PushStage,
    pub of: PhantomData<T>,
}

/// What a push does next. `write` is the position that it has loaded, `cell` the first word of its cell, and `at` the
/// word of the value.
#[derive(Clone, Copy)]
pub enum PushStage {
    /// Loads the write position; at `u64::MAX` the answer is false, and nothing changes.
    LoadsWrite,
    /// Loads the read position. Where it is `capacity` behind, or the capacity is 0, the answer is false, and nothing
    /// changes.
    LoadsRead { write: u64 },
    /// Stores the next word of the value into the cell.
    StoresCell { write: u64, cell: usize, at: u8 },
    /// Stores the next write position, and answers true.
    StoresWrite { write: u64 },
}

/// Takes the oldest value, or None where the queue is empty, by way of a room R. At most 3 + `T::WORDS` steps.
///
/// One pop at a time is the caller's concern. After `pop` of the Rust crate's `IndexQueue` and `Queue`.
pub struct Pop<T, R> {
    pub capacity: u32,
    pub stage: PopStage,
    pub of: PhantomData<(T, R)>,
}

/// What a pop does next. `read` is the position that it has loaded, `cell` the first word of its cell, and `at` the
/// word of the value.
#[derive(Clone, Copy)]
pub enum PopStage {
    /// Loads the read position.
    LoadsRead,
    /// Loads the write position. Where it is the same, or the capacity is 0, the answer is None, and nothing changes.
    LoadsWrite { read: u64 },
    /// Loads the next word of the cell into the room.
    LoadsCell { read: u64, cell: usize, at: u8 },
    /// Stores the next read position, and answers Some of the value.
    StoresRead { read: u64 },
}

impl<T, R> Clone for Pop<T, R> {
    fn clone(&self) -> Result<Pop<T, R>, AllocError> {
        Ok(*self)
    }
}

impl<T, R> Copy for Pop<T, R> {}

impl<T: Words> Push<T> {
    /// A push that has taken no step.
    #[inline(always)]
    pub fn new(capacity: u32) -> Push<T>
        ensures { result ≡ first_push capacity }
    {
        Push {
            capacity,
            stage: PushStage::LoadsWrite,
            of: PhantomData,
        }
    }
}

impl<T: Words, R: Room<T>> Pop<T, R> {
    /// A pop that has taken no step.
    #[inline(always)]
    pub fn new(capacity: u32) -> Pop<T, R>
        ensures { result ≡ first_pop capacity }
    {
        Pop {
            capacity,
            stage: PopStage::LoadsRead,
            of: PhantomData,
        }
    }
}

/// The steps of a push of a bounded queue: given the value, it answers whether there was room.
impl<T: Words> Routine for Push<T> {
    ghost use Rattle.steps.specs.Laws.{push_tells};

    type Given = T;

    type Room = ();

    type End = bool;

    type Value = T;

    type Answer = bool;

    ghost want_of = { push_want T.words_of };

    ghost after = { λ c given old. push_after T.WORDS c old };

    ghost kept = { λ c room old. room };

    ghost value_of = { λ given room. given };

    ghost answer_of = { λ end given room. end };

    ghost store_tells_nothing = { λ c given room m n t.
        push_tells T.words_of T.WORDS c c.stage given room m n t };

    /// Asks for the positions, stores the words of the value one by one into the write position's cell, then
    /// the write position. A place past the value's words would get 0.
    #[inline(always)]
    fn ask(self, given: &T) -> Want<()> {
        let (word, op) = match self.stage {
            PushStage::LoadsWrite => (WRITE, Op::Load),
            PushStage::LoadsRead { .. } => (READ, Op::Load),
            PushStage::StoresCell { cell, at, .. } => {
                let new = if (at as usize) < T::WORDS {
                    given.word(at as usize)
                } else {
                    0
                };
                (cell.wrapping_add(at as usize), Op::Store(new))
            }
            PushStage::StoresWrite { write } => (WRITE, Op::Store(write.wrapping_add(1))),
        };
        Want::Ask(Ask { word, op })
    }

    /// Ends with false where no position is left or the queue is full. Otherwise the words follow one
    /// another, and after the position's step the value is in the queue.
    #[inline(always)]
    fn take(self, _given: &T, _room: &mut (), answer: u64) -> After<Push<T>, bool> {
        let stage = match self.stage {
            PushStage::LoadsWrite => {
                if answer == u64::MAX {
                    return After::Done(false);
                }
                PushStage::LoadsRead { write: answer }
            }
            PushStage::LoadsRead { write } => {
                if self.capacity == 0 || write.wrapping_sub(answer) == self.capacity as u64 {
                    return After::Done(false);
                }
                PushStage::StoresCell {
                    write,
                    cell: cell_word(self.capacity, T::WORDS as u8, write),
                    at: 0,
                }
            }
            PushStage::StoresCell { write, cell, at } => {
                if (at as usize) + 1 < T::WORDS {
                    PushStage::StoresCell {
                        write,
                        cell,
                        at: at + 1,
                    }
                } else {
                    PushStage::StoresWrite { write }
                }
            }
            PushStage::StoresWrite { .. } => return After::Done(true),
        };
        After::GoOn(Push {
            capacity: self.capacity,
            stage,
            of: PhantomData,
        })
    }

    /// The value that is pushed.
    fn value(given: &T, _room: &()) -> T {
        *given
    }

    #[inline(always)]
    fn answer(end: bool, _given: &T, _room: &()) -> bool {
        end
    }
}

impl<T: Words> Ends for Push<T> {
    ghost use Rattle.steps.specs.Queues.Ring.{push_left};
    ghost use Rattle.steps.specs.Laws.{push_fewer};

    ghost left = { λ c. push_left T.WORDS c.stage };

    ghost fewer = { λ c d given n goes. push_fewer T.WORDS c d n goes };
}

/// The steps of a pop of a bounded queue: it reads the oldest value into a room R, and answers it, or None.
impl<T: Words, R: Room<T> + Drop> Routine for Pop<T, R> {
    ghost use Rattle.steps.specs.Laws.{pop_tells};

    type Given = ();

    type Room = R;

    type End = bool;

    type Value = T;

    type Answer = Option<T>;

    ghost want_of = { λ c given. pop_want c };

    ghost after = { λ c given old. pop_after T.WORDS c old };

    ghost kept = { pop_kept R.with_word };

    ghost value_of = { λ given room. value_in T.value_of T.WORDS (R.words_in room) };

    ghost answer_of = { λ end given room.
        pop_answer (value_in T.value_of T.WORDS (R.words_in room)) end };

    ghost store_tells_nothing = { λ c given room m n t.
        pop_tells R.with_word T.WORDS c c.stage room m n t };

    /// Asks for the positions, loads the words of the read position's cell, then stores the read position.
    #[inline(always)]
    fn ask(self, _given: &()) -> Want<()> {
        let (word, op) = match self.stage {
            PopStage::LoadsRead => (READ, Op::Load),
            PopStage::LoadsWrite { .. } => (WRITE, Op::Load),
            PopStage::LoadsCell { cell, at, .. } => (cell.wrapping_add(at as usize), Op::Load),
            PopStage::StoresRead { read } => (READ, Op::Store(read.wrapping_add(1))),
        };
        Want::Ask(Ask { word, op })
    }

    /// Ends with false where nothing waits. Otherwise it puts each word of the cell into the room, and after
    /// the position's step the value is out of the queue.
    #[inline(always)]
    fn take(self, _given: &(), room: &mut R, answer: u64) -> After<Pop<T, R>, bool> {
        let stage = match self.stage {
            PopStage::LoadsRead => PopStage::LoadsWrite { read: answer },
            PopStage::LoadsWrite { read } => {
                if self.capacity == 0 || answer == read {
                    return After::Done(false);
                }
                PopStage::LoadsCell {
                    read,
                    cell: cell_word(self.capacity, T::WORDS as u8, read),
                    at: 0,
                }
            }
            PopStage::LoadsCell { read, cell, at } => {
                room.put(at as usize, answer);
                if (at as usize) + 1 < T::WORDS {
                    PopStage::LoadsCell {
                        read,
                        cell,
                        at: at + 1,
                    }
                } else {
                    PopStage::StoresRead { read }
                }
            }
            PopStage::StoresRead { .. } => return After::Done(true),
        };
        After::GoOn(Pop {
            capacity: self.capacity,
            stage,
            of: PhantomData,
        })
    }

    /// The value that the words in the room make.
    fn value(_given: &(), room: &R) -> T {
        room.value()
    }

    #[inline(always)]
    fn answer(end: bool, _given: &(), room: &R) -> Option<T> {
        if end { Some(room.value()) } else { None }
    }
}

impl<T: Words, R: Room<T> + Drop> Ends for Pop<T, R> {
    ghost use Rattle.steps.specs.Queues.Ring.{pop_left};
    ghost use Rattle.steps.specs.Laws.{pop_fewer};

    ghost left = { λ c. pop_left T.WORDS c.stage };

    ghost fewer = { λ c d given n goes. pop_fewer T.WORDS c d n goes };
}
