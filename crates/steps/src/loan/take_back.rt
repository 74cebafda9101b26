//! The call that takes an index back which the receiver has given back.
ghost use Rattle.std.specs.Prelude.{◌≡◌};
ghost use Rattle.steps.specs.Loan.TakeBack.{first_take_back, take_back_want, take_back_after};

use crate::ask::{After, Want};
use crate::copied::OneWord;
use crate::indices::unique::ReleaseStage;
use crate::loan::back::{index_in, inner_release};
use crate::loan::layout::completion_word;
use crate::loan::parts::shifted;
use crate::queues::ring::{Pop, PopStage};
use crate::routine::Routine;
use std::marker::PhantomData;

/// Takes back the oldest index that the receiver gave back: the index, or None where there is none. At most 9 steps.
///
/// The index is given back to the set, in mode `Default`.
#[derive(Clone, Copy)]
pub struct TakeBack {
    pub slots: u32,
    pub queue: u32,
    pub stage: TakeBackStage,
}

/// What a take-back does next.
#[derive(Clone, Copy)]
pub enum TakeBackStage {
    /// Takes a step of the pop of the completion queue, which has read the word `found`. Where nothing waits there,
    /// the answer is None.
    Pops { stage: PopStage, found: OneWord },
    /// Takes a step of the release of the index; at its end the answer is Some of the index.
    Releases { index: u32, stage: ReleaseStage },
}

impl TakeBack {
    /// A take-back that has taken no step.
    #[inline(always)]
    pub fn new(slots: u32, queue: u32) -> TakeBack
        ensures { result ≡ first_take_back slots queue }
    {
        TakeBack {
            slots,
            queue,
            stage: TakeBackStage::Pops {
                stage: PopStage::LoadsRead,
                found: OneWord(0),
            },
        }
    }
}

/// The steps of a take-back: given nothing, it answers the index that came back, or None.
impl Routine for TakeBack {
    ghost use Rattle.steps.specs.Loan.Laws.{take_back_tells};

    type Given = ();

    type Room = ();

    type End = Option<u32>;

    type Value = u64;

    type Answer = Option<u32>;

    ghost want_of = { λ c given. take_back_want c };

    ghost after = { λ c given old. take_back_after c old };

    ghost kept = { λ c room old. room };

    ghost value_of = { λ given room. 0 };

    ghost answer_of = { λ end given room. end };

    ghost store_tells_nothing = { λ c given room m n t. take_back_tells c c.stage room m n t };

    /// Asks for what its pop of the completion queue asks for, or its release of the index that was popped.
    #[inline(always)]
    fn ask(self, _given: &()) -> Want<()> {
        match self.stage {
            TakeBackStage::Pops { stage, .. } => {
                let pop: Pop<u64, OneWord> = Pop {
                    capacity: self.slots,
                    stage,
                    of: PhantomData,
                };
                shifted(completion_word(self.slots, self.queue), pop.ask(&()))
            }
            TakeBackStage::Releases { index, stage } => {
                inner_release(self.slots, stage).ask(&index)
            }
        }
    }

    /// An empty queue ends the take-back with None. An index that was popped is released, and then answered.
    #[inline(always)]
    fn take(self, _given: &(), _room: &mut (), answer: u64) -> After<TakeBack, Option<u32>> {
        let stage = match self.stage {
            TakeBackStage::Pops { stage, mut found } => {
                let pop: Pop<u64, OneWord> = Pop {
                    capacity: self.slots,
                    stage,
                    of: PhantomData,
                };
                match pop.take(&(), &mut found, answer) {
                    After::GoOn(pop) => TakeBackStage::Pops {
                        stage: pop.stage,
                        found,
                    },
                    After::Done(false) => return After::Done(None),
                    After::Done(true) => TakeBackStage::Releases {
                        index: index_in(found.0),
                        stage: ReleaseStage::ClearsFlag,
                    },
                }
            }
            TakeBackStage::Releases { index, stage } => {
                match inner_release(self.slots, stage).take(&index, &mut (), answer) {
                    After::GoOn(release) => TakeBackStage::Releases {
                        index,
                        stage: release.stage,
                    },
                    After::Done(_) => return After::Done(Some(index)),
                }
            }
        };
        After::GoOn(TakeBack {
            slots: self.slots,
            queue: self.queue,
            stage,
        })
    }

    /// 0: the call has no value of the structure to hand out.
    fn value(_given: &(), _room: &()) -> u64 {
        0
    }

    #[inline(always)]
    fn answer(end: Option<u32>, _given: &(), _room: &()) -> Option<u32> {
        end
    }
}
