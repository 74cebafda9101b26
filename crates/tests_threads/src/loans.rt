//! The loan channel: one thread loans slots, sends them and takes them back, and another receives them and
//! gives them back, or dies, after which what it left is reclaimed beside one who counts the slots.
ghost use Rattle.std.specs.Prelude.{◌≡◌, IfSome};
ghost use Rattle.lock_free_sets.specs.Unique.Held.{HoldsNothing};
ghost use Rattle.lock_free_sets.specs.UniqueIndexSet.{made, IsPassOf};
ghost use Rattle.lock_free_queues.specs.Queues.Rings.{producer_queue, queue_id};
ghost use Rattle.lock_free_queues.specs.Queues.Handles.{ring_in};
ghost use Rattle.lock_free_loans.specs.Loan.Sender.{submission_of};

use lock_free::mpmc::unique_index_set::{Handle as SetHandle, Pass, UniqueIndexSet};
use lock_free::spsc::index_queue::{IndexQueue, Producer};
use lock_free::spsc::loan::LoanSender;
use lock_free::spsc::safely_overflowing_index_queue::{
    Consumer, Handle, SafelyOverflowingIndexQueue,
};
use std::alloc::Global;
use std::sync::Wait;
use std::thread::Threads;
use tests_rows::desk::Desk;
use tests_rows::play::{Maker, Role, Turn, play};
use tests_rows::row::{Part, Row};
use tests_rows::shared::Shared;

/// The sender, with a handle by which it takes the dead receiver's end of the submission queue.
#[derive(Drop)]
struct Sends<'a> {
    sender: LoanSender<'a>,
    later: Handle<'a>,
    ghost through: { submission_of sender ≡ queue_id (ring_in later) },
}

impl<'a> Sends<'a> {
    /// Takes an index that came back, if one did, and frees it.
    fn take_back(&mut self, desk: &mut Desk<'_>) {
        desk.begin();
        if let Some(index) = self.sender.take_back() {
            desk.end("taken_back", index, None);
            desk.check(desk.shared.swap(index as usize, 0));
        }
    }

    /// Loans an index and sends it. What the queue pushes out is free again.
    fn send(&mut self, rt: &impl Wait, desk: &mut Desk<'_>) -> Turn {
        desk.begin();
        let Ok(index) = self.sender.loan(rt) else {
            desk.end_in_vain("loan", 0);
            return Turn::Nothing;
        };
        desk.end("loan", 0, Some(index as u64));
        desk.check(desk.shared.swap(index as usize, 1));
        if !self.sender.is_loaned(index) {
            desk.check(false);
            return Turn::Last;
        }
        desk.begin();
        let back = self.sender.send(index);
        desk.meet();
        desk.end("send", index as u64, back);
        if let Some(old) = back {
            desk.check(desk.shared.swap(old as usize, 0));
        }
        Turn::Counts
    }

    /// Takes the end of the receiver, who has died, and reclaims what it left.
    fn reclaim(&mut self, rt: &impl Wait, desk: &mut Desk<'_>) {
        let Some(handle) = self.later.split() else {
            return desk.check(false);
        };
        let Ok(mut receives) = handle.acquire_consumer() else {
            return desk.check(false);
        };
        desk.begin();
        let number = self.sender.reclaim(rt, &mut receives);
        desk.end("reclaim", 0, Some(number as u64));
    }
}

/// The receiver's ends of both queues.
#[derive(Drop)]
struct Receives<'a> {
    receives: Consumer<'a>,
    returns: Producer<'a>,
    /// The number of turns after which it keeps what it receives, and dies; 0 if it does not die.
    dies: u64,
}

impl<'a> Receives<'a> {
    /// Receives an index, and gives it back.
    fn receive(&mut self, rt: &impl Wait, desk: &mut Desk<'_>) -> Turn {
        // (one that dies comes to fewer turns than the sender, so nobody waits for it)
        if self.dies != 0 {
            desk.manner.meets = 0;
        }
        desk.begin();
        let came = self.receives.pop(rt);
        desk.meet();
        let Some(index) = came else {
            desk.end_in_vain("receive", 0);
            return Turn::Nothing;
        };
        desk.end("receive", 0, Some(index));
        if self.dies != 0 && desk.at >= self.dies {
            return Turn::Counts;
        }
        desk.begin();
        let is_back = self.returns.push(index);
        desk.end("give_back", index, None);
        desk.check(is_back);
        Turn::Counts
    }
}

/// Somebody with one of the parts.
#[derive(Drop)]
struct Seat<'a> {
    sends: Option<Sends<'a>>,
    receives: Option<Receives<'a>>,
    counts: SetHandle<'a>,
}

impl<'a> Role for Seat<'a> {
    fn turn(&mut self, rt: &impl Wait, desk: &mut Desk<'_>) -> Turn {
        if let Some(sends) = &mut self.sends {
            if desk.shared.ended() != 0 {
                sends.reclaim(rt, desk);
                return Turn::Last;
            }
            sends.take_back(desk);
            return sends.send(rt, desk);
        }
        if let Some(receives) = &mut self.receives {
            return receives.receive(rt, desk);
        }
        desk.begin();
        let number = self.counts.borrowed_indices();
        desk.meet();
        desk.end("count", 0, Some(number as u64));
        Turn::Counts
    }
}

/// The set and the queues of a channel, by which both sides are made.
#[derive(Drop)]
struct Channel<'a> {
    alloc: Global,
    set: &'a UniqueIndexSet,
    pass: Pass,
    counts: SetHandle<'a>,
    submission: Handle<'a>,
    completion: lock_free::spsc::index_queue::Handle<'a>,
    ghost of: { IsPassOf set.now pass },
}

impl<'a> Channel<'a> {
    /// The sender. None where memory, a role or a further pass is refused.
    fn sends(&mut self) -> Option<Sends<'a>> {
        let pass = self.pass.split()?;
        let mut later = self.submission.split()?;
        let Ok(producer) = later.split()?.acquire_producer() else {
            return None;
        };
        let takes = self.completion.split()?.acquire_consumer().ok()?;
        let sender = sender(self.alloc, self.set, pass, producer, takes)?;
        Some(Sends { sender, later })
    }

    /// The receiver. None where a role or a further pass is refused.
    fn receives(&mut self, dies: u64) -> Option<Receives<'a>> {
        Some(Receives {
            receives: self.submission.split()?.acquire_consumer().ok()?,
            returns: self.completion.split()?.acquire_producer().ok()?,
            dies,
        })
    }
}

/// A sender that is made of a pass of the set, which holds no index, and of its end of each queue. None where
/// memory is refused.
fn sender<'a>(
    alloc: Global,
    set: &'a UniqueIndexSet,
    pass: Pass,
    submission: lock_free::spsc::safely_overflowing_index_queue::Producer<'a>,
    completion: lock_free::spsc::index_queue::Consumer<'a>,
) -> Option<LoanSender<'a>>
    requires pass { IsPassOf set.now pass }
    requires nothing { HoldsNothing (made pass) }
    ensures submission { IfSome result
        (λ s. submission_of s ≡ producer_queue submission.entry) }
{
    LoanSender::new(alloc, set, pass, submission, completion).ok()
}

impl<'a> Maker for Channel<'a> {
    type Role = Seat<'a>;

    fn before(&mut self, _rt: &impl Wait, _desk: &mut Desk<'_>) -> Option<()> {
        Some(())
    }

    fn role(&mut self, _rt: &impl Wait, part: Part<'_>, _desk: &mut Desk<'_>) -> Option<Seat<'a>> {
        let (mut sends, mut receives) = (None, None);
        match part.role {
            "send" => sends = Some(self.sends()?),
            "receive" => receives = Some(self.receives(part.own)?),
            _ => {}
        }
        Some(Seat {
            sends,
            receives,
            counts: self.counts.split()?,
        })
    }

    /// Notes how many slots are out.
    fn after(&mut self, _rt: &impl Wait, desk: &mut Desk<'_>) {
        desk.begin();
        let number = self.counts.borrowed_indices();
        desk.end("count", 0, Some(number as u64));
    }
}

/// Plays a round on a new channel of as many slots as the row's capacity, and a submission queue of `more`.
pub fn play_loan<R: Wait + Threads + Sync>(rt: &R, row: &mut Row<'_>) -> Option<()> {
    let shared = Shared::new(row.alloc, row.capacity)?;
    let Ok((set, mut pass)) = UniqueIndexSet::new(row.alloc, row.capacity) else {
        return None;
    };
    let (submission, sends) = SafelyOverflowingIndexQueue::new(row.alloc, row.more as usize).ok()?;
    let (completion, returns) = IndexQueue::new(row.alloc, row.capacity).ok()?;
    let mut channel = Channel {
        alloc: row.alloc,
        set: &set,
        counts: set.handle(pass.split()?),
        pass,
        submission: submission.handle(sends),
        completion: completion.handle(returns),
    };
    let logs = play(rt, row, &shared, &mut channel)?;
    row.told.round(logs.as_slice());
    Some(())
}
