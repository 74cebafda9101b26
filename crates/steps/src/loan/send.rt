//! The call that sends an index to the receiver.
ghost use Rattle.std.specs.Prelude.{◌≡◌};
ghost use Rattle.steps.specs.Loan.Send.{first_send, send_want, send_after};

use crate::ask::{After, Want};
use crate::copied::OneWord;
use crate::indices::unique::ReleaseStage;
use crate::loan::back::{index_in, inner_release};
use crate::loan::layout::submission_word;
use crate::loan::parts::shifted;
use crate::queues::overflow::{Push, PushEnd, PushStage};
use crate::routine::Routine;

/// Sends the index that it is given: None, or Some of the index that came back instead. At most 11 steps.
///
/// What comes back, such as the oldest index of a full submission queue, is given back to the set, in mode `Default`.
/// That the sender holds the index is the caller's concern, and one send, give-up, take-back or reclaim at a time.
#[derive(Clone, Copy)]
pub struct Send {
    pub slots: u32,
    pub queue: u32,
    pub stage: SendStage,
}

/// What a send does next.
#[derive(Clone, Copy)]
pub enum SendStage {
    /// Takes a step of the push of the index into the submission queue. Where nothing comes back, the answer is None.
    Pushes { stage: PushStage },
    /// Takes a step of the release of the index that came back; at its end the answer is Some of that index.
    Releases { index: u32, stage: ReleaseStage },
}

impl Send {
    /// A send that has taken no step.
    #[inline(always)]
    pub fn new(slots: u32, queue: u32) -> Send
        ensures { result ≡ first_send slots queue }
    {
        Send {
            slots,
            queue,
            stage: SendStage::Pushes {
                stage: Push::new(queue).stage,
            },
        }
    }
}

/// The steps of a send: given the index, it answers the index that came back instead, or None.
impl Routine for Send {
    ghost use Rattle.steps.specs.Loan.Laws.{send_tells};

    type Given = u32;

    type Room = ();

    type End = Option<u32>;

    type Value = u64;

    type Answer = Option<u32>;

    ghost want_of = { send_want };

    ghost after = { send_after };

    ghost kept = { λ c room old. room };

    ghost value_of = { λ given room. given };

    ghost answer_of = { λ end given room. end };

    ghost store_tells_nothing = { λ c given room m n t. send_tells c c.stage given room m n t };

    /// Asks for what its push of the index asks for, or its release of the index that came back.
    #[inline(always)]
    fn ask(self, given: &u32) -> Want<()> {
        match self.stage {
            SendStage::Pushes { stage } => {
                let push = Push {
                    capacity: self.queue,
                    stage,
                };
                shifted(submission_word(self.slots), push.ask(&(*given as u64)))
            }
            SendStage::Releases { index, stage } => inner_release(self.slots, stage).ask(&index),
        }
    }

    /// A push that adds the index ends the send with None. One that hands an index back, the given or the
    /// oldest one, goes on to release that.
    #[inline(always)]
    fn take(self, given: &u32, _room: &mut (), answer: u64) -> After<Send, Option<u32>> {
        let stage = match self.stage {
            SendStage::Pushes { stage } => {
                let push = Push {
                    capacity: self.queue,
                    stage,
                };
                match push.take(&(*given as u64), &mut OneWord(0), answer) {
                    After::GoOn(push) => SendStage::Pushes { stage: push.stage },
                    After::Done(PushEnd::Added) => return After::Done(None),
                    After::Done(PushEnd::Own) => SendStage::Releases {
                        index: *given,
                        stage: ReleaseStage::ClearsFlag,
                    },
                    After::Done(PushEnd::Oldest) => SendStage::Releases {
                        index: index_in(answer),
                        stage: ReleaseStage::ClearsFlag,
                    },
                }
            }
            SendStage::Releases { index, stage } => {
                match inner_release(self.slots, stage).take(&index, &mut (), answer) {
                    After::GoOn(release) => SendStage::Releases {
                        index,
                        stage: release.stage,
                    },
                    After::Done(_) => return After::Done(Some(index)),
                }
            }
        };
        After::GoOn(Send {
            slots: self.slots,
            queue: self.queue,
            stage,
        })
    }

    /// The index that is sent, as the queue keeps it.
    fn value(given: &u32, _room: &()) -> u64 {
        *given as u64
    }

    #[inline(always)]
    fn answer(end: Option<u32>, _given: &u32, _room: &()) -> Option<u32> {
        end
    }
}
