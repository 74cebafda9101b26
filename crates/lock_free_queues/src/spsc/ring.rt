//! What all queues share: their types, and all calls but pushes, pops and peeks. The types have a kind E and
//! values T; each module of `spsc` has names for those of its queue.
//!
//! The clause `steps` of a call says how many atomic steps it takes, as the driver counts them. A `close` has
//! no such clause, since no pass is left. What is proved of threads is what the contracts say.
ghost use Rattle.std.specs.Prelude.{◌≡◌, ◌<◌, ◌+◌, ◌^◌, [], None};
ghost use Rattle.steps.specs.declared.queues.roles.Role.TheVariants as roles;
ghost use Rattle.std.specs.Coded.{Coded-set};
ghost use Rattle.model.specs.Coding.{coding_by};
ghost use Rattle.history.specs.History.{Knows};
ghost use Rattle.history.specs.Roles.{HasRole};
ghost use Rattle.history.proofs.KnownRuns.{knows_prop};
ghost use Rattle.threaded.specs.Seats.{key_of};
ghost use Rattle.lock_free_queues.specs.Queues.Bounded.{machine_kind};
ghost use Rattle.lock_free_queues.specs.Queues.Kinds.{words_in_cells};
ghost use Rattle.lock_free_queues.specs.Queues.Roles.{LacksRole};

use self::drives::{Popping, Pushing};
use self::rule::{Kind, Origin, RingRule};
use atomic_table::TableRule;
use history::view::View;
use std::alloc::Global;
use std::marker::PhantomData;
use steps::words::Words;
use threaded::driver::seated::{Home, Seated};

mod calls;
mod debug;
mod drives;
mod ends;
mod fixed;
mod handles;
mod lengths;
mod make;
mod passes;
mod reads;
pub mod rule;

pub use handles::Handle;

/// A queue, which threads share by reference. One producer pushes and one consumer pops at a time.
pub struct Ring<E: Kind, T: Words> {
    home: Home<View<T>, Origin, RingRule<E, T>>,
    pub(crate) capacity: u32,
    pub(crate) alloc: Global,
}

/// A queue whose capacity is part of its type. It is used as the queue that it has.
pub struct FixedSize<E: Kind, T: Words, const CAPACITY: usize> {
    pub(crate) ring: Ring<E, T>,
    ghost sized: { ring.capacity ≡ CAPACITY },
}

/// A seat at a queue's table, with no call under way. Its facts say how many words the table has, that the
/// seat has a share, and that what it knows is a run of the machine. The rule Q is a parameter, since else
/// `sized` could not name `T::WORDS`.
pub struct Held<E: Kind, T: Words, Q: TableRule<(), View<T>, Origin>> {
    pub of: PhantomData<E>,
    pub seated: Seated<View<T>, Origin, Q>,
    pub capacity: u32,
    ghost sized: { seated.seat.table_id.words ≡ 4 + words_in_cells T.WORDS E.KIND capacity + 1 },
    ghost keyed: { (key_of seated).capacity ≡ capacity },
    ghost known: { seated.seat.me.0.capacity ≡ capacity },
    ghost small: { capacity < 2 ^ 32 },
    ghost idle: { seated.seat.me.0.going ≡ None },
    ghost alone: { seated.seat.me.0.other ≡ [] },
    ghost some: { (0 < seated.seat.me.0.share.part) × (0 < seated.seat.me.0.share.parts) },
    ghost knows: { Knows (coding_by T.Words) (machine_kind E.KIND) capacity seated.seat.me.0 } by { knows_prop (Coded-set T.code) (coding_by T.Words) (machine_kind E.KIND) capacity seated.seat.me.0 },
}

pub type Token<E, T> = Held<E, T, RingRule<E, T>>;

/// A pass permits its owner to call a queue. It knows which queue it is for, how much of the queue's history it has
/// seen, and what of it is its own doing. Each call is made with a pass of its queue, which is the caller's concern. It
/// has no role. This project's own.
pub struct Pass<E: Kind, T: Words> {
    pub(crate) token: Token<E, T>,
    ghost none: { LacksRole roles.Producer token.seated.seat.me.0.made
        × LacksRole roles.Consumer token.seated.seat.me.0.made },
}

/// The guard that pushes. There is one at a time. It owns the pass that it was acquired with, and gives the role back
/// when it is dropped. Its lifetime is that of the borrow of the queue, which `into_owned` lets go of. After `Producer`
/// of the Rust crate.
pub struct Producer<'a, E: Kind, T: Words> {
    of: &'a (),
    pub(crate) token: Token<E, T>,
    ghost role: { HasRole roles.Producer token.seated.seat.me.0.made
        × LacksRole roles.Consumer token.seated.seat.me.0.made },
}

/// The guard that pops. There is one at a time. It owns the pass that it was acquired with, and gives the role back
/// when it is dropped. Its lifetime is that of the borrow of the queue, which `into_owned` lets go of. After `Consumer`
/// of the Rust crate.
pub struct Consumer<'a, E: Kind, T: Words> {
    of: &'a (),
    pub(crate) token: Token<E, T>,
    ghost role: { HasRole roles.Consumer token.seated.seat.me.0.made
        × LacksRole roles.Producer token.seated.seat.me.0.made },
}

// In the proof of a caller a drop written by hand is one call on each way out. A derived drop is
// one call for each field.
impl<E: Kind, T: Words> Drop for Ring<E, T> {
    fn drop(self) {
        let Self {
            home: _home,
            capacity: _,
            alloc: _,
        } = self;
    }
}

impl<E: Kind, T: Words, const CAPACITY: usize> FixedSize<E, T, CAPACITY> {
    /// Returns the queue that this one has, whose capacity is no part of its type.
    pub(crate) fn into_ring(self) -> Ring<E, T>
        ensures { result ≡ self.ring }
    {
        let Self { ring } = self;
        ring
    }
}

impl<E: Kind, T: Words, const CAPACITY: usize> Drop for FixedSize<E, T, CAPACITY> {
    fn drop(self) {
        let Self { ring: _ring } = self;
    }
}

impl<E: Kind, T: Words, Q: TableRule<(), View<T>, Origin>> Drop for Held<E, T, Q> {
    fn drop(self) {
        let Self {
            of: _,
            seated: _seated,
            capacity: _,
        } = self;
    }
}

impl<E: Kind, T: Words> Pass<E, T> {
    /// Returns the seat of the pass, which has no role.
    pub(crate) fn into_token(self) -> Token<E, T>
        ensures token { result ≡ self.token }
        ensures none { LacksRole roles.Producer result.seated.seat.me.0.made
            × LacksRole roles.Consumer result.seated.seat.me.0.made }
    {
        let Self { token } = self;
        token
    }
}

impl<E: Kind, T: Words> Drop for Pass<E, T> {
    fn drop(self) {
        let Self { token: _token } = self;
    }
}

impl<'a, E: Kind, T: Words> Drop for Producer<'a, E, T> {
    /// Gives the role back. One atomic step.
    fn drop(self) {
        let Self { of: _, mut token } = self;
        token.leave::<Pushing>();
    }
}

impl<'a, E: Kind, T: Words> Drop for Consumer<'a, E, T> {
    /// Gives the role back. One atomic step.
    fn drop(self) {
        let Self { of: _, mut token } = self;
        token.leave::<Popping>();
    }
}
