//! A set of indices that threads share, each of which is handed out to one owner at a time. The indices of an owner
//! that is dead are recovered.
//!
//! The clause `steps` of a call bounds its atomic steps, the operations on words that its pass
//! counts. It gives a number for a call *alone*, and a number for each change by others of any word
//! of the set during the call.
ghost use Rattle.std.specs.Prelude.{◌≡◌, ◌<◌, ◌+◌, [], None};
ghost use Rattle.std.specs.Coded.{Coded-set, coded_ℕ};
ghost use Rattle.model.specs.declared.turn.Kind.TheVariants as kinds;
ghost use Rattle.model.specs.Coding.{one_word};
ghost use Rattle.threaded.specs.Seats.{key_of};
ghost use Rattle.history.specs.History.{Knows};
ghost use Rattle.history.proofs.KnownRuns.{knows_prop};
ghost use Rattle.lock_free_owners.specs.Robust.Turns.{size};

use self::rule::{RobustRule, Seat};
use history::view::View;
use threaded::driver::seated::Home;

mod acquires;
mod asks;
mod calls;
mod counts;
mod debug;
mod drives;
mod finds;
mod fixed;
mod handles;
mod make;
mod passes;
mod recovers;
pub mod rule;

pub use handles::Handle;
pub use steps::enums::{CallbackProgression, OwnerId, OwnerIdNewError};
pub use steps::indices::enums::RobustUniqueIndexSetReleaseError;

/// A set of the indices below its capacity, which threads share by reference. An index is given back at most once, by
/// its holder, and nobody acts for an owner once its recovery has begun. No contract asks for these rules: if one is
/// broken, an index may be granted that somebody still uses, else none is (`IsWellFormed`, `IsHonest`). From the
/// generation `u64::MAX - 1` on none is granted and nothing locks (tests). After `RobustUniqueIndexSet` of the Rust
/// crate.
///
/// ```rust
/// let owner = OwnerId::new(7)?;
/// let (set, pass) = RobustUniqueIndexSet::new(rt.alloc(), 4)?;
/// let mut pool = set.handle(pass);
/// assert!(rt; pool.acquire(&rt, owner).is_ok());
/// ```
pub struct RobustUniqueIndexSet {
    home: Home<View<u64>, u64, RobustRule>,
    capacity: u32,
}

impl Drop for RobustUniqueIndexSet {
    fn drop(self) {
        let Self {
            home: _home,
            capacity: _,
        } = self;
    }
}

/// A `RobustUniqueIndexSet` whose type names its greatest capacity: CAPACITY, from 1 to 2^32 - 1. It is used as the set
/// that it has. After `StaticRobustUniqueIndexSet` of the Rust crate.
pub struct StaticRobustUniqueIndexSet<const CAPACITY: usize> {
    set: RobustUniqueIndexSet,
}

impl<const CAPACITY: usize> Drop for StaticRobustUniqueIndexSet<CAPACITY> {
    fn drop(self) {
        let Self { set: _set } = self;
    }
}

/// A pass permits its owner to call a set. It knows which set it is for, how much of the set's one history it has seen,
/// and what of it is its own doing. Each call but `capacity` is made with a pass of its set, which is the caller's
/// concern. Once it has seen the lock its acquires answer `IsLocked`, its `borrowed_indices` 0 and its `is_locked`
/// true, and its recoveries come to no index. This project's own.
pub struct Pass {
    seated: Seat,
    capacity: u32,
    ghost sized: { seated.seat.table_id.words ≡ size capacity + 1 },
    ghost keyed: { key_of seated ≡ capacity },
    ghost known: { seated.seat.me.0.capacity ≡ capacity },
    ghost places: { 0 < capacity },
    ghost idle: { seated.seat.me.0.going ≡ None },
    ghost alone: { seated.seat.me.0.other ≡ [] },
    ghost some: { (0 < seated.seat.me.0.share.part) × (0 < seated.seat.me.0.share.parts) },
    ghost knows: { Knows one_word kinds.Robust capacity seated.seat.me.0 } by { knows_prop (Coded-set coded_ℕ) one_word kinds.Robust capacity seated.seat.me.0 },
}

impl Drop for Pass {
    fn drop(self) {
        let Self {
            seated: _seated,
            capacity: _,
        } = self;
    }
}
