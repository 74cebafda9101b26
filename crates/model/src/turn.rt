//! What a machine is made of, its turns, and why one is refused.
ghost use Rattle.std.specs.Prelude.{◌≡◌, ◌-◌, ◌^◌, ◌≤◌, None, ⊤};
ghost use Rattle.model.specs.World.{kind_in, capacity_in, queue_in, capacity_error, loan_error, shape_error};

use crate::event::Start;
use crate::families::capacities;
use std::alloc::AllocError;
use steps::enums::{OwnerId, UniqueIndexCreationError, capacity_refusal};
use thiserror::Error;

/// The structure that a machine runs.
#[derive(Debug, Clone, Copy, PartialEq, Eq)]
pub enum Kind {
    IndexQueue,
    /// The overflowing queue of indices.
    Overflow,
    /// The bounded queue of values of the machine's own type.
    Queue,
    /// The single value.
    Atomic,
    /// The bit set.
    Bits,
    /// The counting bit set.
    Counts,
    /// The unique index set.
    Indices,
    /// The robust index set.
    Robust,
    /// The container of values.
    Container,
    /// The loan channel.
    Loan,
}

/// A structure: its kind and its numbers, which are not tested here.
#[derive(Clone, Copy)]
pub enum Shape {
    /// One of this kind and capacity. The submission queue of a loan channel is then as long as it has slots.
    Of(Kind, u64),
    /// A loan channel with this number of slots, and a submission queue of this capacity.
    Loan(u64, u64),
}

impl Shape {
    /// The kind of the structure.
    pub fn kind(self) -> Kind
        ensures { result ≡ kind_in self }
    {
        match self {
            Shape::Of(kind, _) => kind,
            Shape::Loan(_, _) => Kind::Loan,
        }
    }

    /// The capacity, of a loan channel its slots.
    pub fn capacity(self) -> u64
        ensures { result ≡ capacity_in self }
    {
        match self {
            Shape::Of(_, capacity) => capacity,
            Shape::Loan(slots, _) => slots,
        }
    }

    /// The capacity of a loan channel's submission queue. Of any other kind it is the capacity again.
    pub fn queue(self) -> u64
        ensures { result ≡ queue_in self }
    {
        match self {
            Shape::Of(_, capacity) => capacity,
            Shape::Loan(_, queue) => queue,
        }
    }
}

/// Why there is no structure of this kind and capacity, if there is none.
fn capacity_error(kind: Kind, capacity: u64) -> Option<UniqueIndexCreationError>
    ensures error { result ≡ capacity_error kind capacity }
    ensures capacity { result ≡ None → capacity ≤ 2 ^ 32 - 1 }
{
    let (least, greatest) = capacities(kind);
    capacity_refusal(capacity, least, greatest)
}

/// Why there is no loan channel of these numbers, if there is none: a number above its greatest is refused before one
/// below its least.
fn loan_error(slots: u64, queue: u64) -> Option<UniqueIndexCreationError>
    ensures error { result ≡ loan_error slots queue }
    ensures slots { result ≡ None → slots ≤ 2 ^ 24 - 2 }
    ensures queue { result ≡ None → queue ≤ 2 ^ 32 - 1 }
{
    if 0xff_fffe < slots || 0xffff_ffff < queue {
        return Some(UniqueIndexCreationError::ProvidedCapacityGreaterThanMaxCapacity);
    }
    if slots < 1 || queue < 1 {
        return Some(UniqueIndexCreationError::ProvidedCapacityIsZero);
    }
    None
}

/// Why no machine of this shape is made, or None. A queue and a set of bits or counts have a capacity from 0 to 2^32 - 1,
/// the single value 1, the unique index set from 1 to 2^24 - 2, and the robust one and the container from 1 to 2^32 - 1.
/// A loan channel has from 1 to 2^24 - 2 slots, and its queue from 1 to 2^32 - 1. A number above its greatest is refused
/// before one below its least.
pub fn shape_error(shape: Shape) -> Option<UniqueIndexCreationError>
    ensures error { result ≡ shape_error shape }
    ensures capacity { result ≡ None → capacity_in shape ≤ 2 ^ 32 - 1 }
    ensures queue { result ≡ None → queue_in shape ≤ 2 ^ 32 - 1 }
{
    match shape {
        Shape::Of(kind, capacity) => capacity_error(kind, capacity),
        Shape::Loan(slots, queue) => loan_error(slots, queue),
    }
}

/// One turn of a run. The number is the party's.
#[derive(Copy, PartialEq, Eq)]
pub enum Turn<T> {
    /// The party begins a call. No word is touched.
    Begin(u32, Start<T>),
    /// The party's call takes one step, or goes on without one where it asks for no word.
    Next(u32),
    /// The party's question is answered by yes or no. No word is touched.
    Decide(u32, bool),
    /// The owner dies. From here on no call acquires, releases, adds, removes or replaces for it. In a loan channel the
    /// party dies, and takes no turn any more.
    Die(OwnerId),
}

impl<T: Copy> Clone for Turn<T> {
    ghost is_clone = { λ x y. y ≡ x };

    ghost is_infallible = { λ _. ⊤ };

    fn clone(&self) -> Result<Turn<T>, AllocError> {
        Ok(*self)
    }
}

/// Why a turn was refused. A refused turn changes nothing.
#[derive(Debug, Clone, Copy, PartialEq, Eq, Error)]
pub enum Refusal {
    #[error("the party is not below the number of parties")]
    NoParty = 1,
    #[error("the party's call is under way")]
    Busy = 2,
    #[error("the party has no call under way")]
    Idle = 3,
    #[error("the kind has no such call")]
    WrongCall = 4,
    #[error("the party does not hold the role")]
    NoRole = 5,
    #[error("the party does not hold the index")]
    NotHeld = 6,
    #[error("the bit or index is past the capacity")]
    BadIndex = 7,
    #[error("the owner is dead")]
    OwnerIsDead = 8,
    #[error("the owner lives")]
    OwnerLives = 9,
    /// `Next` while a question waits for its decision, or `Decide` while none does.
    #[error("a decision is due, or none is")]
    Undecided = 10,
    #[error("there is no memory for what the turn writes down")]
    NoMemory = 11,
    #[error("as many turns were taken as a machine takes")]
    AtEnd = 12,
}
