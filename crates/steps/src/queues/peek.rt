//! The look at the oldest value of a bounded queue.
//!
//! Its words are those of the ring.
ghost use Rattle.std.specs.Prelude.{◌≡◌};
ghost use Rattle.steps.specs.Copied.{value_in};
ghost use Rattle.steps.specs.Queues.Peek.{first_peek, peek_want, peek_after, peek_kept};
ghost use Rattle.steps.specs.Queues.Ring.{pop_answer};

use crate::ask::{After, Ask, Op, Want};
use crate::copied::Room;
use crate::queues::ring::{READ, WRITE, cell_word};
use crate::routine::{Ends, Routine};
use crate::words::Words;
use std::alloc::AllocError;
use std::marker::PhantomData;

/// Answers the oldest value, or None where the queue is empty, by way of a room R, and changes nothing. At most 2 +
/// `T::WORDS` steps, which are those of a pop without its last.
///
/// That no pop goes on meanwhile is the caller's concern. This project's own.
pub struct Peek<T, R> {
    pub capacity: u32,
    pub stage: PeekStage,
    pub of: PhantomData<(T, R)>,
}

/// What a peek does next. `cell` is the first word of the cell of the read position, and `at` the word of the value.
#[derive(Clone, Copy)]
pub enum PeekStage {
    /// Loads the read position.
    LoadsRead,
    /// Loads the write position. Where it is the same, or the capacity is 0, the answer is None.
    LoadsWrite { read: u64 },
    /// Loads the next word of the cell into the room. After the last one the answer is Some of the value.
    LoadsCell { cell: usize, at: u8 },
}

impl<T, R> Clone for Peek<T, R> {
    fn clone(&self) -> Result<Peek<T, R>, AllocError> {
        Ok(*self)
    }
}

impl<T, R> Copy for Peek<T, R> {}

impl<T: Words, R: Room<T>> Peek<T, R> {
    /// A peek that has taken no step.
    #[inline(always)]
    pub fn new(capacity: u32) -> Peek<T, R>
        ensures { result ≡ first_peek capacity }
    {
        Peek {
            capacity,
            stage: PeekStage::LoadsRead,
            of: PhantomData,
        }
    }
}

/// The steps of a peek: it reads the oldest value into a room R, and answers it, or None.
impl<T: Words, R: Room<T> + Drop> Routine for Peek<T, R> {
    ghost use Rattle.steps.specs.Laws.{peek_tells};

    type Given = ();

    type Room = R;

    type End = bool;

    type Value = T;

    type Answer = Option<T>;

    ghost want_of = { λ c given. peek_want c };

    ghost after = { λ c given old. peek_after T.WORDS c old };

    ghost kept = { peek_kept R.with_word };

    ghost value_of = { λ given room. value_in T.value_of T.WORDS (R.words_in room) };

    ghost answer_of = { λ end given room.
        pop_answer (value_in T.value_of T.WORDS (R.words_in room)) end };

    ghost store_tells_nothing = { λ c given room m n t.
        peek_tells R.with_word T.WORDS c c.stage room m n t };

    /// Loads the positions, and then the words of the read position's cell.
    #[inline(always)]
    fn ask(self, _given: &()) -> Want<()> {
        let word = match self.stage {
            PeekStage::LoadsRead => READ,
            PeekStage::LoadsWrite { .. } => WRITE,
            PeekStage::LoadsCell { cell, at } => cell.wrapping_add(at as usize),
        };
        Want::Ask(Ask { word, op: Op::Load })
    }

    /// Ends with false where nothing waits. Otherwise it puts each word of the cell into the room, and ends
    /// with true after the last one.
    #[inline(always)]
    fn take(self, _given: &(), room: &mut R, answer: u64) -> After<Peek<T, R>, bool> {
        let stage = match self.stage {
            PeekStage::LoadsRead => PeekStage::LoadsWrite { read: answer },
            PeekStage::LoadsWrite { read } => {
                if self.capacity == 0 || answer == read {
                    return After::Done(false);
                }
                PeekStage::LoadsCell {
                    cell: cell_word(self.capacity, T::WORDS as u8, read),
                    at: 0,
                }
            }
            PeekStage::LoadsCell { cell, at } => {
                room.put(at as usize, answer);
                if (at as usize) + 1 < T::WORDS {
                    PeekStage::LoadsCell { cell, at: at + 1 }
                } else {
                    return After::Done(true);
                }
            }
        };
        After::GoOn(Peek {
            capacity: self.capacity,
            stage,
            of: PhantomData,
        })
    }

    /// The value that the words in the room make.
    fn value(_given: &(), room: &R) -> T {
        room.value()
    }

    #[inline(always)]
    fn answer(end: bool, _given: &(), room: &R) -> Option<T> {
        if end { Some(room.value()) } else { None }
    }
}

impl<T: Words, R: Room<T> + Drop> Ends for Peek<T, R> {
    ghost use Rattle.steps.specs.Queues.Peek.{peek_left};
    ghost use Rattle.steps.specs.Laws.{peek_fewer};

    ghost left = { λ c. peek_left T.WORDS c.stage };

    ghost fewer = { λ c d given n goes. peek_fewer T.WORDS c d n goes };
}
