//! The calls of the overflowing queue with one producer and one consumer, over numbers of one word.
//!
//! Its words are those of the bounded queue, with `capacity + 1` cells of one word. The position p stands in the cell
//! p mod (capacity + 1), so a push writes its value before it takes the oldest one out. A queue of capacity 0 has one
//! cell and never asks for it.
ghost use Rattle.std.specs.Prelude.{◌≡◌};
ghost use Rattle.steps.specs.Queues.Overflow.{cell_word, first_push, push_want, push_after, push_kept, push_answer};
ghost use Rattle.steps.specs.Queues.Overflow.{first_pop, pop_want, pop_after, pop_kept, pop_answer, goes_back};

use crate::ask::{After, Ask, Op, Want};
use crate::copied::OneWord;
use crate::queues::ring::{FIRST_CELL, READ, WRITE};
use crate::routine::{Ends, Routine};

/// The word of the position's cell.
#[inline(always)]
pub fn cell_word(capacity: u32, position: u64) -> usize
    ensures { result ≡ cell_word capacity position }
{
    FIRST_CELL + (position % (capacity as u64 + 1)) as usize
}

/// Appends the value that it is given: None, or Some of the oldest, which has left a full queue. At most 6 steps.
///
/// A queue of capacity 0 hands the value itself back, and takes no step. One push at a time is the caller's concern.
/// After `push` of the Rust crate's `SafelyOverflowingIndexQueue`.
#[derive(Clone, Copy)]
pub struct Push {
    pub capacity: u32,
    pub stage: PushStage,
}

/// What a push does next. `write` and `read` are the positions that it has loaded.
#[derive(Clone, Copy)]
pub enum PushStage {
    /// Asks for no word, and hands the value itself back: all that happens at capacity 0.
    HandsBack,
    /// Loads the write position; at `u64::MAX` the value itself comes back, and nothing changes.
    LoadsWrite,
    /// Loads the read position.
    LoadsRead { write: u64 },
    /// Stores the value into the cell of the write position.
    StoresCell { write: u64, read: u64 },
    /// Stores the next write position; where the read position was not `capacity` behind, the answer is None.
    StoresWrite { write: u64, read: u64 },
    /// Moves the read position on from where it was; where that fails, a pop has made room: None.
    MovesRead { read: u64 },
    /// Loads the cell of the position that it took, and answers Some of its value.
    LoadsCell { read: u64 },
}

/// How a push ends.
#[derive(Clone, Copy, PartialEq, Eq)]
pub enum PushEnd {
    /// Its value was taken, and none left.
    Added,
    /// Its own value comes back.
    Own,
    /// Its value was taken, and the oldest, which it has read, has left.
    Oldest,
}

/// Takes the oldest value, or None where the queue is empty. At most 4 steps, and 2 more for each turn back.
///
/// A queue of capacity 0 is empty, and no step is taken. One pop at a time is the caller's concern. After `pop` of the
/// Rust crate's `SafelyOverflowingIndexQueue`.
#[derive(Clone, Copy)]
pub struct Pop {
    pub capacity: u32,
    pub stage: PopStage,
}

/// What a pop does next. `read` is the read position that it has loaded or found.
#[derive(Clone, Copy)]
pub enum PopStage {
    /// Asks for no word, and answers None: all that happens at capacity 0.
    FindsNone,
    /// Loads the read position.
    LoadsRead,
    /// Loads the write position; where it is the same, the answer is None, and nothing changes.
    LoadsWrite { read: u64 },
    /// Loads the cell of the read position.
    LoadsCell { read: u64 },
    /// Moves the read position on from where it was, and answers Some of the value. Where a push has moved it, goes
    /// back to the load of the cell, with the position found.
    MovesRead { read: u64 },
}

impl Push {
    /// A push that has taken no step.
    #[inline(always)]
    pub fn new(capacity: u32) -> Push
        ensures { result ≡ first_push capacity }
    {
        Push {
            capacity,
            stage: match capacity {
                0 => PushStage::HandsBack,
                _ => PushStage::LoadsWrite,
            },
        }
    }
}

impl Pop {
    /// A pop that has taken no step.
    #[inline(always)]
    pub fn new(capacity: u32) -> Pop
        ensures { result ≡ first_pop capacity }
    {
        Pop {
            capacity,
            stage: match capacity {
                0 => PopStage::FindsNone,
                _ => PopStage::LoadsRead,
            },
        }
    }

    /// Whether the call goes back to the load of the cell once it is handed this answer.
    pub fn goes_back(&self, answer: u64) -> bool
        ensures { result ≡ goes_back self.now.stage answer }
    {
        match self.stage {
            PopStage::FindsNone => false,
            PopStage::LoadsRead => false,
            PopStage::LoadsWrite { .. } => false,
            PopStage::LoadsCell { .. } => false,
            PopStage::MovesRead { read } => answer != read,
        }
    }
}

/// The steps of a push of the overflowing queue: given the value, it reads the oldest one into its room, and
/// answers what comes back.
impl Routine for Push {
    ghost use Rattle.steps.specs.Laws.{overflow_push_tells};

    type Given = u64;

    type Room = OneWord;

    type End = PushEnd;

    type Value = u64;

    type Answer = Option<u64>;

    ghost want_of = { push_want };

    ghost after = { λ c given old. push_after c old };

    ghost kept = { push_kept };

    ghost value_of = { λ given room. given };

    ghost answer_of = { λ end given room. push_answer given room.0 end };

    ghost store_tells_nothing = { λ c given room m n t.
        overflow_push_tells c c.stage given room m n t };

    /// Asks for the positions, stores the value into the write position's cell, then moves the write
    /// position. Over a full queue it moves the read position too and loads the oldest value. A queue of
    /// capacity 0 asks for nothing.
    #[inline(always)]
    fn ask(self, given: &u64) -> Want<()> {
        let (word, op) = match self.stage {
            PushStage::HandsBack => return Want::Nothing,
            PushStage::LoadsWrite => (WRITE, Op::Load),
            PushStage::LoadsRead { .. } => (READ, Op::Load),
            PushStage::StoresCell { write, .. } => {
                (cell_word(self.capacity, write), Op::Store(*given))
            }
            PushStage::StoresWrite { write, .. } => (WRITE, Op::Store(write.wrapping_add(1))),
            PushStage::MovesRead { read } => (READ, Op::Exchange(read, read.wrapping_add(1))),
            PushStage::LoadsCell { read } => (cell_word(self.capacity, read), Op::Load),
        };
        Want::Ask(Ask { word, op })
    }

    /// Ends with the push's own value where the queue has no cell or no position left. After the write
    /// position has moved the push has added its value. Over a full queue it then takes the oldest one out,
    /// if no pop has come first.
    #[inline(always)]
    fn take(self, _given: &u64, room: &mut OneWord, answer: u64) -> After<Push, PushEnd> {
        let stage = match self.stage {
            PushStage::HandsBack => return After::Done(PushEnd::Own),
            PushStage::LoadsWrite => {
                if answer == u64::MAX {
                    return After::Done(PushEnd::Own);
                }
                PushStage::LoadsRead { write: answer }
            }
            PushStage::LoadsRead { write } => PushStage::StoresCell {
                write,
                read: answer,
            },
            PushStage::StoresCell { write, read } => PushStage::StoresWrite { write, read },
            PushStage::StoresWrite { write, read } => {
                if write.wrapping_sub(read) != self.capacity as u64 {
                    return After::Done(PushEnd::Added);
                }
                PushStage::MovesRead { read }
            }
            PushStage::MovesRead { read } => {
                if answer != read {
                    return After::Done(PushEnd::Added);
                }
                PushStage::LoadsCell { read }
            }
            PushStage::LoadsCell { .. } => {
                room.0 = answer;
                return After::Done(PushEnd::Oldest);
            }
        };
        After::GoOn(Push {
            capacity: self.capacity,
            stage,
        })
    }

    /// The value that is pushed.
    fn value(given: &u64, _room: &OneWord) -> u64 {
        *given
    }

    /// What comes back: nothing, the push's own value, or the oldest one.
    #[inline(always)]
    fn answer(end: PushEnd, given: &u64, room: &OneWord) -> Option<u64> {
        match end {
            PushEnd::Added => None,
            PushEnd::Own => Some(*given),
            PushEnd::Oldest => Some(room.0),
        }
    }
}

impl Ends for Push {
    ghost use Rattle.steps.specs.Queues.Overflow.{push_left};
    ghost use Rattle.steps.specs.Laws.{overflow_push_fewer};

    ghost left = { λ c. push_left c.stage };

    ghost fewer = { λ c d given n goes. overflow_push_fewer c d n goes };
}

/// The steps of a pop of the overflowing queue: it reads the oldest value into its room, and
/// answers it, or None.
impl Routine for Pop {
    ghost use Rattle.steps.specs.Laws.{overflow_pop_tells};

    type Given = ();

    type Room = OneWord;

    type End = bool;

    type Value = u64;

    type Answer = Option<u64>;

    ghost want_of = { λ c given. pop_want c };

    ghost after = { λ c given old. pop_after c old };

    ghost kept = { pop_kept };

    ghost value_of = { λ given room. room.0 };

    ghost answer_of = { λ end given room. pop_answer room.0 end };

    ghost store_tells_nothing = { λ c given room m n t. overflow_pop_tells c c.stage room m n t };

    /// Asks for the positions, then loads the read position's cell, then moves the read position by an
    /// exchange. A queue of capacity 0 asks for nothing.
    #[inline(always)]
    fn ask(self, _given: &()) -> Want<()> {
        let (word, op) = match self.stage {
            PopStage::FindsNone => return Want::Nothing,
            PopStage::LoadsRead => (READ, Op::Load),
            PopStage::LoadsWrite { .. } => (WRITE, Op::Load),
            PopStage::LoadsCell { read } => (cell_word(self.capacity, read), Op::Load),
            PopStage::MovesRead { read } => (READ, Op::Exchange(read, read.wrapping_add(1))),
        };
        Want::Ask(Ask { word, op })
    }

    /// Ends with false where the positions are equal. Where the read position has moved before the exchange,
    /// the pop loads the cell of the new position.
    #[inline(always)]
    fn take(self, _given: &(), room: &mut OneWord, answer: u64) -> After<Pop, bool> {
        let stage = match self.stage {
            PopStage::FindsNone => return After::Done(false),
            PopStage::LoadsRead => PopStage::LoadsWrite { read: answer },
            PopStage::LoadsWrite { read } => {
                if answer == read {
                    return After::Done(false);
                }
                PopStage::LoadsCell { read }
            }
            PopStage::LoadsCell { read } => {
                room.0 = answer;
                PopStage::MovesRead { read }
            }
            PopStage::MovesRead { read } => {
                if answer == read {
                    return After::Done(true);
                }
                PopStage::LoadsCell { read: answer }
            }
        };
        After::GoOn(Pop {
            capacity: self.capacity,
            stage,
        })
    }

    /// The word of the cell that was loaded last.
    fn value(_given: &(), room: &OneWord) -> u64 {
        room.0
    }

    #[inline(always)]
    fn answer(end: bool, _given: &(), room: &OneWord) -> Option<u64> {
        if end { Some(room.0) } else { None }
    }
}
