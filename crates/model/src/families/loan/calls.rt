//! The calls of a loan channel under way.
use steps::copied::OneWord;
use steps::indices::unique::{Acquire, DefaultMode, Release};
use steps::loan::parts::Part;
use steps::loan::reclaim::Reclaim;
use steps::loan::send::Send;
use steps::loan::take_back::TakeBack;
use steps::queues::{overflow, ring};
use steps::routine::Running;

/// A call of a loan channel under way. One of a receiver names its party, since the receiver can be another by then.
#[derive(Drop)]
pub enum LoanFlight {
    Loan(Running<Acquire, (), ()>),
    Send(Running<Send, u32, ()>),
    GiveUp(Running<Release<DefaultMode>, u32, ()>),
    TakeBack(Running<TakeBack, (), ()>),
    Receive(u64, Running<Part<overflow::Pop>, (), OneWord>),
    GiveBack(u64, Running<Part<ring::Push<u64>>, u64, ()>),
    /// It goes on from the sender's table.
    Reclaim(Reclaim),
}
