//! The loan channel: its calls by name, and what stands in the files beside this one.
//!
//! Party 0 is the sender. It loans slots of a unique index set, sends their indices through an overflowing queue (the
//! submission queue) to one receiver, and gets them back through a bounded queue with as many cells as slots (the
//! completion queue). The receiver is party 1 at first. Where it dies, the sender gets all back that it had sent, and the
//! party of the next number is the receiver.
ghost use Rattle.std.specs.Prelude.{◌≡◌};
ghost use Rattle.model.specs.Families.Loan.Opening.{is_loan};

pub mod calls;
pub mod effects;

use crate::families::indices::holders::Holders;
use crate::families::indices::robust::dead::Dead;
use crate::turn::Kind;
use steps::loan::places::Places;

/// The least and the greatest number of slots.
pub const CAPACITIES: (u64, u64) = (1, 0xff_fffe);

/// A call of a loan channel by its name and arguments.
#[derive(Clone, Copy, PartialEq, Eq)]
pub enum LoanStart {
    /// The sender takes an index that nobody has.
    Loan,
    /// The sender sends this index, which it has, to the receiver.
    Send(u64),
    /// The sender gives this index, which it has, back unsent.
    GiveUp(u64),
    /// The sender takes the oldest index that the receiver gave back.
    TakeBack,
    /// The receiver takes the oldest index that was sent.
    Receive,
    /// The receiver gives this index, which it has, back.
    GiveBack(u64),
    /// The sender takes all back that it has sent to a receiver that died.
    Reclaim,
}

/// What a machine keeps of a loan channel beside its words. A party stands for itself as an owner that can die.
#[derive(Drop)]
pub struct Book {
    /// How many indices the submission queue holds.
    pub queue: u32,
    /// The sender's table.
    pub places: Places,
    /// Which party has which index in no call.
    pub holders: Holders,
    /// The number of the party that is the receiver. After a reclaim it can be past the parties.
    pub receiver: u64,
    /// The parties that have died.
    pub dead: Dead,
}

/// Whether a machine of this kind is a loan channel.
pub fn is_loan(kind: Kind) -> bool
    ensures { result ≡ is_loan kind }
{
    match kind {
        Kind::Loan => true,
        _ => false,
    }
}
