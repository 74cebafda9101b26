//! How many values wait in a queue, read from its two positions.
ghost use Rattle.std.specs.Prelude.{◌≡◌};
ghost use Rattle.steps.specs.Queues.Lengths.{number_waiting, first_len, len_want, len_after, turns_back};

use crate::ask::{After, Ask, Op, Want};
use crate::queues::ring::{READ, WRITE};
use crate::routine::Routine;

/// Counts the values that wait, by two positions that were each loaded twice and found the same. Four steps, and at
/// most four more for each turn back.
///
/// Once neither has moved, both stood together at the moment of the second and of the third load. After `len`,
/// `is_empty` and `is_full` of the Rust crate's queues, which compare this number with 0 and the capacity.
#[derive(Clone, Copy)]
pub struct Len {
    pub capacity: u32,
    pub stage: LenStage,
}

/// What the call does next. `write` and `read` are the positions that it has loaded.
#[derive(Clone, Copy)]
pub enum LenStage {
    /// Loads the write position.
    LoadsWrite,
    /// Loads the read position.
    LoadsRead { write: u64 },
    /// Loads the write position again; where it has moved, the call begins again.
    LoadsWriteAgain { write: u64, read: u64 },
    /// Loads the read position again, and answers the number; where it has moved, the call begins again.
    LoadsReadAgain { write: u64, read: u64 },
}

/// The number of values between the two positions, which wrap. None in a queue of capacity 0, whatever its words say.
/// In an overflowing queue it can be one more than the capacity, while a push is between its two moves.
pub fn number_waiting(capacity: u32, write: u64, read: u64) -> u64
    ensures { result ≡ number_waiting capacity write read }
{
    if capacity == 0 {
        0
    } else {
        write.wrapping_sub(read)
    }
}

impl Len {
    /// A call that has taken no step.
    #[inline(always)]
    pub fn new(capacity: u32) -> Len
        ensures { result ≡ first_len capacity }
    {
        Len {
            capacity,
            stage: LenStage::LoadsWrite,
        }
    }

    /// Whether the call begins again once it is handed this answer, since a position has moved.
    pub fn turns_back(&self, answer: u64) -> bool
        ensures { result ≡ turns_back self.now.stage answer }
    {
        match self.stage {
            LenStage::LoadsWrite => false,
            LenStage::LoadsRead { .. } => false,
            LenStage::LoadsWriteAgain { write, .. } => answer != write,
            LenStage::LoadsReadAgain { read, .. } => answer != read,
        }
    }
}

/// The steps of a call for the length: given nothing, it answers how many values wait.
impl Routine for Len {
    ghost use Rattle.steps.specs.Laws.{len_tells};

    type Given = ();

    type Room = ();

    type End = u64;

    type Value = u64;

    type Answer = u64;

    ghost want_of = { λ c given. len_want c };

    ghost after = { λ c given old. len_after c old };

    ghost kept = { λ c room old. room };

    ghost value_of = { λ given room. 0 };

    ghost answer_of = { λ end given room. end };

    ghost store_tells_nothing = { λ c given room m n t. len_tells c c.stage room m n t };

    /// Loads the write position and the read position, and then both again.
    #[inline(always)]
    fn ask(self, _given: &()) -> Want<()> {
        let word = match self.stage {
            LenStage::LoadsWrite => WRITE,
            LenStage::LoadsRead { .. } => READ,
            LenStage::LoadsWriteAgain { .. } => WRITE,
            LenStage::LoadsReadAgain { .. } => READ,
        };
        Want::Ask(Ask { word, op: Op::Load })
    }

    /// Begins again where a position has moved between its two loads. Otherwise it ends with the number of
    /// values between the two.
    #[inline(always)]
    fn take(self, _given: &(), _room: &mut (), answer: u64) -> After<Len, u64> {
        let capacity = self.capacity;
        let stage = match self.stage {
            LenStage::LoadsWrite => LenStage::LoadsRead { write: answer },
            LenStage::LoadsRead { write } => LenStage::LoadsWriteAgain {
                write,
                read: answer,
            },
            LenStage::LoadsWriteAgain { write, read } => {
                if answer == write {
                    LenStage::LoadsReadAgain { write, read }
                } else {
                    LenStage::LoadsWrite
                }
            }
            LenStage::LoadsReadAgain { write, read } => {
                if answer == read {
                    return After::Done(number_waiting(capacity, write, read));
                }
                LenStage::LoadsWrite
            }
        };
        After::GoOn(Len { capacity, stage })
    }

    /// 0: the call has no value of the structure to hand out.
    fn value(_given: &(), _room: &()) -> u64 {
        0
    }

    #[inline(always)]
    fn answer(end: u64, _given: &(), _room: &()) -> u64 {
        end
    }
}
