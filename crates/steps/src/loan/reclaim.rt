//! The call that gets every index back which the sender had sent to a receiver that died.
ghost use Rattle.std.specs.Prelude.{◌≡◌};
ghost use Rattle.steps.specs.Loan.Reclaim.{first_reclaim, at_reclaim, reclaim_comes_to, reclaim_want, reclaim_after, reclaim_goes_back};

use crate::ask::{After, Want};
use crate::copied::OneWord;
use crate::indices::unique::ReleaseStage;
use crate::loan::back::inner_release;
use crate::loan::layout::{completion_word, submission_word};
use crate::loan::parts::shifted;
use crate::loan::places::Places;
use crate::queues::{overflow, ring};
use crate::routine::Routine;
use std::marker::PhantomData;

/// Empties both queues, and then gives each index back to the set that is Sent: how many. At most 8 steps and 13 a
/// slot, and 2 for each turn back.
///
/// Which indices are Sent says the table that it is given; they are released ascending. That the receiver is dead is
/// the caller's concern.
#[derive(Clone, Copy)]
pub struct Reclaim {
    pub slots: u32,
    pub queue: u32,
    pub stage: ReclaimStage,
}

/// What a reclaim does next.
#[derive(Clone, Copy)]
pub enum ReclaimStage {
    /// Takes a step of a pop of the submission queue, and pops again until nothing waits there.
    Drains {
        stage: overflow::PopStage,
    },
    /// Takes a step of a pop of the completion queue, and pops again until nothing waits there.
    Empties {
        stage: ring::PopStage,
    },
    /// Takes a step of the release of the index, in mode `Default`, after `number` others. At its end comes the next
    /// index that is Sent, or the answer.
    Releases {
        number: u64,
        index: u32,
        stage: ReleaseStage,
    },
}

impl ReclaimStage {
    /// Whether the call goes back, in a pop of the submission queue, once it is handed this answer. The receiver has
    /// moved the read position then; a further pop is no turn back.
    pub fn goes_back(self, queue: u32, answer: u64) -> bool
        ensures { result ≡ reclaim_goes_back self answer }
    {
        match self {
            ReclaimStage::Drains { stage } => overflow::Pop {
                capacity: queue,
                stage,
            }
            .goes_back(answer),
            _ => false,
        }
    }
}

impl Reclaim {
    /// A reclaim that has taken no step.
    #[inline(always)]
    pub fn new(slots: u32, queue: u32) -> Reclaim
        ensures { result ≡ first_reclaim slots queue }
    {
        Reclaim {
            slots,
            queue,
            stage: ReclaimStage::Drains {
                stage: overflow::Pop::new(queue).stage,
            },
        }
    }

    /// What it wants next, whatever the table says.
    #[inline(always)]
    pub fn wants(self) -> Want<()>
        ensures { result ≡ reclaim_want self }
    {
        match self.stage {
            ReclaimStage::Drains { stage } => {
                let pop = overflow::Pop {
                    capacity: self.queue,
                    stage,
                };
                shifted(submission_word(self.slots), pop.ask(&()))
            }
            ReclaimStage::Empties { stage } => {
                let pop: ring::Pop<u64, OneWord> = ring::Pop {
                    capacity: self.slots,
                    stage,
                    of: PhantomData,
                };
                shifted(completion_word(self.slots, self.queue), pop.ask(&()))
            }
            ReclaimStage::Releases { index, stage, .. } => {
                inner_release(self.slots, stage).ask(&index)
            }
        }
    }

    /// The reclaim goes on at this stage.
    #[inline(always)]
    fn at(self, stage: ReclaimStage) -> After<Reclaim, u64>
        ensures { result ≡ at_reclaim self stage }
    {
        After::GoOn(Reclaim {
            slots: self.slots,
            queue: self.queue,
            stage,
        })
    }

    /// After `number` releases, goes on to the first index that is Sent from `from` on. Where there is none,
    /// it ends with that number.
    #[inline(always)]
    fn comes_to(self, places: &Places, number: u64, from: u32) -> After<Reclaim, u64>
        ensures { result ≡ reclaim_comes_to self places.now number from }
    {
        match places.next_sent(self.slots, from) {
            Some(index) => self.at(ReclaimStage::Releases {
                number,
                index,
                stage: ReleaseStage::ClearsFlag,
            }),
            None => After::Done(number),
        }
    }
}

/// The steps of a reclaim: given the sender's table, it answers how many indices it has released.
impl Routine for Reclaim {
    ghost use Rattle.steps.specs.Loan.Laws.{reclaim_tells};

    type Given = Places;

    type Room = ();

    type End = u64;

    type Value = u64;

    type Answer = u64;

    ghost want_of = { λ c given. reclaim_want c };

    ghost after = { λ c given old. reclaim_after c given old };

    ghost kept = { λ c room old. room };

    ghost value_of = { λ given room. 0 };

    ghost answer_of = { λ end given room. end };

    ghost store_tells_nothing = { λ c given room m n t.
        reclaim_tells c c.stage given room m n t };

    #[inline(always)]
    fn ask(self, _given: &Places) -> Want<()> {
        self.wants()
    }

    /// Pops until the submission queue is empty, then until the completion queue is, and then releases one
    /// index after another that is `Sent` in the table. A step goes to the inner call of the stage.
    #[inline(always)]
    fn take(self, given: &Places, _room: &mut (), answer: u64) -> After<Reclaim, u64> {
        match self.stage {
            ReclaimStage::Drains { stage } => {
                let pop = overflow::Pop {
                    capacity: self.queue,
                    stage,
                };
                match pop.take(&(), &mut OneWord(0), answer) {
                    After::GoOn(pop) => self.at(ReclaimStage::Drains { stage: pop.stage }),
                    After::Done(true) => self.at(ReclaimStage::Drains {
                        stage: overflow::PopStage::LoadsRead,
                    }),
                    After::Done(false) => self.at(ReclaimStage::Empties {
                        stage: ring::PopStage::LoadsRead,
                    }),
                }
            }
            ReclaimStage::Empties { stage } => {
                let pop: ring::Pop<u64, OneWord> = ring::Pop {
                    capacity: self.slots,
                    stage,
                    of: PhantomData,
                };
                match pop.take(&(), &mut OneWord(0), answer) {
                    After::GoOn(pop) => self.at(ReclaimStage::Empties { stage: pop.stage }),
                    After::Done(true) => self.at(ReclaimStage::Empties {
                        stage: ring::PopStage::LoadsRead,
                    }),
                    After::Done(false) => self.comes_to(given, 0, 0),
                }
            }
            ReclaimStage::Releases {
                number,
                index,
                stage,
            } => match inner_release(self.slots, stage).take(&index, &mut (), answer) {
                After::GoOn(release) => self.at(ReclaimStage::Releases {
                    number,
                    index,
                    stage: release.stage,
                }),
                After::Done(_) => {
                    self.comes_to(given, number.wrapping_add(1), index.wrapping_add(1))
                }
            },
        }
    }

    /// 0: the call has no value of the structure to hand out.
    fn value(_given: &Places, _room: &()) -> u64 {
        0
    }

    #[inline(always)]
    fn answer(end: u64, _given: &Places, _room: &()) -> u64 {
        end
    }
}
