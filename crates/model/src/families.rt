//! The families of calls: the types of each, and here a case for each.
ghost use Rattle.std.specs.Prelude.{◌≡◌};
ghost use Rattle.model.specs.Families.{opening_of};

use crate::event::Answer;
use crate::turn::Kind;
use atomic::calls::AtomicFlight;
use bits::calls::BitsFlight;
use container::calls::ContainerFlight;
use container::states::States;
use indices::calls::IndexFlight;
use indices::holders::Holders;
use indices::robust::calls::RobustFlight;
use indices::robust::dead::Dead;
use loan::Book;
use loan::calls::LoanFlight;
use queues::Roles;
use queues::calls::QueueFlight;

pub mod atomic;
pub mod bits;
pub mod container;
pub mod indices;
pub mod loan;
pub mod queues;

/// A call under way in a machine.
pub enum Flight<T> {
    Queues(QueueFlight<T>),
    Atomic(AtomicFlight<T>),
    Bits(BitsFlight),
    Indices(IndexFlight),
    Robust(RobustFlight),
    Container(ContainerFlight<T>),
    Loan(LoanFlight),
}

// A drop by hand, here and in `party`, is one call in the proof of whoever has a machine. One that is derived is proved
// again in each crate above, down to the last call.
impl<T: Drop> Drop for Flight<T> {
    fn drop(self) {
        match self {
            Flight::Queues(_flight) => {}
            Flight::Atomic(_flight) => {}
            Flight::Bits(_flight) => {}
            Flight::Indices(_flight) => {}
            Flight::Robust(_flight) => {}
            Flight::Container(_flight) => {}
            Flight::Loan(_flight) => {}
        }
    }
}

/// What a family needs to know beside its words.
pub enum Registry<T> {
    Queues(Roles),
    /// Who holds the producer's role of the single value.
    Atomic(Option<u32>),
    /// The words are all that the family needs.
    Nothing,
    /// Who holds which index of the unique index set.
    Indices(Holders),
    /// The owners of the robust index set that have died.
    Owners(Dead),
    /// The owners that have died, and the states of the parties of a container.
    Container(Dead, States<T>),
    /// What is kept of a loan channel.
    Loan(Book),
}

impl<T: Drop> Drop for Registry<T> {
    fn drop(self) {
        match self {
            Registry::Queues(_roles) => {}
            Registry::Atomic(_) => {}
            Registry::Nothing => {}
            Registry::Indices(_holders) => {}
            Registry::Owners(_dead) => {}
            Registry::Container(_dead, _states) => {}
            Registry::Loan(_book) => {}
        }
    }
}

/// What the step of one party has to know of the others: the party and the value of a push that acts where this step
/// moves the read position. Only an overflowing queue has such a push.
pub type Beside = Option<(u32, u64)>;

/// What became of a call that went on: whether it begins a turn of its loop again, and its answer where it is done.
#[derive(Drop)]
pub struct Went<T> {
    pub back: bool,
    pub done: Option<Answer<T>>,
}

/// The least and the greatest capacity of a kind.
pub fn capacities(kind: Kind) -> (u64, u64)
    ensures least { result.0 ≡ (opening_of kind).least }
    ensures greatest { result.1 ≡ (opening_of kind).greatest }
{
    match kind {
        Kind::IndexQueue => queues::CAPACITIES,
        Kind::Overflow => queues::CAPACITIES,
        Kind::Queue => queues::CAPACITIES,
        Kind::Atomic => atomic::CAPACITIES,
        Kind::Bits => bits::CAPACITIES,
        Kind::Counts => bits::CAPACITIES,
        Kind::Indices => indices::CAPACITIES,
        Kind::Robust => indices::robust::CAPACITIES,
        Kind::Container => container::CAPACITIES,
        Kind::Loan => loan::CAPACITIES,
    }
}
