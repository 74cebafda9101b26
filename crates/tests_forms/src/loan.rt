//! Plays blocks of a script on the loan channel, with its sender and its receiver.
ghost use Rattle.std.specs.Prelude.{◌≡◌, IfSome};
ghost use Rattle.std.specs.Option.{ForSome};
ghost use Rattle.lock_free.specs.Unique.Held.{HoldsNothing};
ghost use Rattle.lock_free.specs.UniqueIndexSet.{made, IsPassOf};
ghost use Rattle.lock_free.specs.Queues.Rings as ends;
ghost use Rattle.lock_free.specs.Loan.Sender.{set_of_sender, submission_of, IsSenderOf};

use crate::indices::say_acquired;
use crate::lines::{Answer, Answers, Block, Call, Made, play_on};
use lock_free::mpmc::unique_index_set::{FixedSizeUniqueIndexSet, Pass, UniqueIndexSet};
use lock_free::spsc::index_queue::{FixedSizeIndexQueue, Handle, IndexQueue, Producer};
use lock_free::spsc::loan::LoanSender;
use lock_free::spsc::safely_overflowing_index_queue::{
    Consumer, FixedSizeSafelyOverflowingIndexQueue, SafelyOverflowingIndexQueue,
};
use lock_free::spsc::{index_queue, safely_overflowing_index_queue as overflow};
use std::alloc::Global;
use std::sync::Wait;

/// Both sides of a channel: the sender, and the receiver with its two queue ends. Beside them are a pass that
/// asks how many slots are borrowed, and a handle of the completion queue for the time after the sender.
#[derive(Drop)]
struct User<'a> {
    set: &'a UniqueIndexSet,
    looks: Pass,
    sender: Option<LoanSender<'a>>,
    receives: Consumer<'a>,
    returns: Producer<'a>,
    last: Handle<'a>,
    ghost of: { IsPassOf set.now looks },
    ghost from: { ForSome sender (λ s. IsSenderOf set.now s) },
    ghost through: { ForSome sender (λ s. submission_of s ≡ ends.consumer_queue receives) },
}

/// A sender that is made of a pass of the set, which holds no index, and of its end of each queue. None where
/// memory is refused.
fn sender<'a>(
    alloc: Global,
    set: &'a UniqueIndexSet,
    pass: Pass,
    submission: overflow::Producer<'a>,
    completion: index_queue::Consumer<'a>,
) -> Option<LoanSender<'a>>
    requires pass { IsPassOf set.now pass }
    requires nothing { HoldsNothing (made pass) }
    ensures set { IfSome result (λ s. IsSenderOf set.now s) }
    ensures submission { IfSome result
        (λ s. submission_of s ≡ ends.producer_queue submission.entry) }
{
    LoanSender::new(alloc, set, pass, submission, completion).ok()
}

/// Makes a call of the sender, and adds what it answers. `refused` where the index of a `send` or a `give_up`
/// is not on loan.
fn make_call(sender: &mut LoanSender<'_>, rt: &impl Wait, call: Call<'_>, answer: &mut Answer)
    ensures set { set_of_sender sender.new ≡ set_of_sender sender.old }
    ensures submission { submission_of sender.new ≡ submission_of sender.old }
{
    let index = (call.numbers[0] & 0xffff_ffff) as u32;
    let is_loaned = sender.is_loaned(index);
    match call.name {
        "loan" => say_acquired(sender.loan(rt), answer),
        "is_loaned" => answer.truth(is_loaned),
        "take_back" => answer.perhaps(sender.take_back()),
        "send" if is_loaned => answer.perhaps(sender.send(index)),
        "give_up" if is_loaned => {
            sender.give_up(index);
            answer.word("done");
        }
        _ => answer.word("refused"),
    }
}

impl<'a> User<'a> {
    /// Makes both sides of a channel of a set and two queues. None where memory, a role or a
    /// further pass is refused.
    fn new(
        alloc: Global,
        set: &'a UniqueIndexSet,
        slots: Pass,
        submission: overflow::Handle<'a>,
        completion: Handle<'a>,
    ) -> Option<User<'a>>
        requires { IsPassOf set.now slots }
    {
        // The pass that is split off holds no index, as `LoanSender::new` requires.
        let mut looks = slots;
        let slots = looks.split()?;
        let (producer, receives) = submission.ends()?;
        let mut last = completion;
        let (returns, consumer) = last.split()?.ends()?;
        let sender = sender(alloc, set, slots, producer, consumer)?;
        Some(User {
            set,
            looks,
            sender: Some(sender),
            receives,
            returns,
            last,
        })
    }

    /// Reclaims for the sender, which needs the receiver's end of the submission queue for it: both queues
    /// are emptied and each index that is sent is freed. Adds how many were freed.
    fn reclaim(&mut self, rt: &impl Wait, answer: &mut Answer) {
        match &mut self.sender {
            Some(sender) => answer.number(sender.reclaim(rt, &mut self.receives) as u64),
            None => answer.word("refused"),
        }
    }

    /// Ends the sender. Adds how many indices are borrowed, as the pass that it had says, and then the oldest
    /// index that waits to be taken back.
    fn finish(&mut self, answer: &mut Answer) {
        match self.sender.take() {
            Some(sender) => {
                let mut pass = sender.finish();
                answer.number(self.set.borrowed_indices(&mut pass) as u64);
                self.left(answer);
            }
            None => answer.word("refused"),
        }
    }

    /// Adds the oldest index that waits to be taken back, as a new consumer of the completion queue finds it
    /// after the sender.
    fn left(&mut self, answer: &mut Answer) {
        let Some(handle) = self.last.split() else {
            return answer.word("no_pass");
        };
        match handle.acquire_consumer() {
            Ok(mut consumer) => answer.perhaps(consumer.pop()),
            Err(_) => answer.word("taken"),
        }
    }

    /// Makes a call of the sender. `refused` once the sender has ended.
    fn send(&mut self, rt: &impl Wait, call: Call<'_>, answer: &mut Answer) {
        match &mut self.sender {
            Some(sender) => make_call(sender, rt, call, answer),
            None => answer.word("refused"),
        }
    }
}

impl<'a> Answers for User<'a> {
    fn answer(&mut self, rt: &impl Wait, call: Call<'_>, answer: &mut Answer) {
        match call.name {
            "receive" => answer.perhaps(self.receives.pop(rt)),
            "give_back" => answer.truth(self.returns.push(call.numbers[0])),
            "borrowed_indices" => {
                answer.number(self.set.borrowed_indices(&mut self.looks) as u64);
            }
            "reclaim" => self.reclaim(rt, answer),
            "finish" => self.finish(answer),
            _ => self.send(rt, call, answer),
        }
    }
}

/// Plays the block on a channel of its form. The numbers of the block are its slots, the places of the
/// submission queue and the places of the completion queue.
pub fn play_loan(rt: &impl Wait, block: &mut Block<'_>) -> Made {
    let [slots, sends, returns, ..] = block.numbers;
    if block.form == "heap" {
        return heap(rt, block, sends as usize, returns as usize);
    }
    match (slots, sends, returns) {
        (1, 0, 1) => fixed::<1, 0, 1>(rt, block),
        (1, 1, 1) => fixed::<1, 1, 1>(rt, block),
        (2, 1, 2) => fixed::<2, 1, 2>(rt, block),
        _ => fixed::<3, 3, 8>(rt, block),
    }
}

/// Plays the block on a channel of these numbers of places, whose parts have their capacities from the run.
fn heap(rt: &impl Wait, block: &mut Block<'_>, sends: usize, returns: usize) -> Made {
    let (set, slots) = UniqueIndexSet::new(block.alloc, block.capacity)?;
    let (sends, pass) = SafelyOverflowingIndexQueue::new(block.alloc, sends)?;
    let (returns, back) = IndexQueue::new(block.alloc, returns)?;
    let (sent, back) = (sends.handle(pass), returns.handle(back));
    let user = User::new(block.alloc, &set, slots, sent, back);
    play_on(rt, block, user)
}

/// Plays the block on a channel whose parts have their capacities by their types.
fn fixed<const SLOTS: usize, const SENDS: usize, const RETURNS: usize>(
    rt: &impl Wait,
    block: &mut Block<'_>,
) -> Made {
    let (set, slots) = FixedSizeUniqueIndexSet::<SLOTS>::new(block.alloc)?;
    let (sends, pass) = FixedSizeSafelyOverflowingIndexQueue::<SENDS>::new(block.alloc)?;
    let (returns, back) = FixedSizeIndexQueue::<RETURNS>::new(block.alloc)?;
    let (sent, back) = (sends.handle(pass), returns.handle(back));
    let user = User::new(block.alloc, &set, slots, sent, back);
    play_on(rt, block, user)
}
