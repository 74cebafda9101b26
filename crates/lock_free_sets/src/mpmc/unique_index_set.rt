//! A set of indices that threads share, each of which is handed out to one caller at a time. Passes of one set never
//! hold the same index, and once any of them has seen the lock, none holds one.
//!
//! The clause `steps` of a call says how many atomic steps it takes: these are the operations on words that
//! the driver counts in its pass. What is proved of threads is what the contracts say.
ghost use Rattle.std.specs.Prelude.{◌≡◌, ◌<◌, ◌+◌, [], None};
ghost use Rattle.std.specs.Coded.{Coded-set, coded_ℕ};
ghost use Rattle.model.specs.declared.turn.Kind.TheVariants as kinds;
ghost use Rattle.model.specs.Coding.{one_word};
ghost use Rattle.threaded.specs.Seats.{key_of, home_id};
ghost use Rattle.history.specs.Held.{Holds};
ghost use Rattle.history.specs.History.{Knows};
ghost use Rattle.history.proofs.KnownRuns.{knows_prop};
ghost use Rattle.lock_free_sets.specs.Unique.Held.{size, IsSound, IsDone};

use self::rule::IndicesRule;
use history::view::View;
use threaded::driver::seated::{Home, Seated};

mod calls;
mod debug;
mod drives;
mod fixed;
mod handles;
mod index;
mod make;
mod passes;
pub mod rule;

pub use handles::Handle;

/// A set of the indices below its capacity, which threads share by reference. After `UniqueIndexSet` of the Rust crate.
///
/// ```rust
/// let (set, pass) = UniqueIndexSet::new(rt.alloc(), 2)?;
/// let handle = set.handle(pass);
/// let index = handle.acquire(&rt).map_err(|_| "none is free")?;
/// assert!(rt; index.value() < 2);
/// let mut handle = index.give_back();
/// assert!(rt; handle.borrowed_indices() == 0);
/// ```
pub struct UniqueIndexSet {
    home: Home<View<u64>, u64, IndicesRule>,
    capacity: u32,
}

impl Drop for UniqueIndexSet {
    fn drop(self) {
        let Self {
            home: _home,
            capacity: _,
        } = self;
    }
}

/// A `UniqueIndexSet` whose type names its greatest capacity: CAPACITY, from 1 to 2^24 - 2. It is used as the set that
/// it has. After `FixedSizeUniqueIndexSet` of the Rust crate.
pub struct FixedSizeUniqueIndexSet<const CAPACITY: usize> {
    set: UniqueIndexSet,
}

impl<const CAPACITY: usize> Drop for FixedSizeUniqueIndexSet<CAPACITY> {
    fn drop(self) {
        let Self { set: _set } = self;
    }
}

/// A pass permits its owner to call a set, and to give back indices that it holds. It knows which set it is for, how
/// much of the set's history it has seen, and what of it is its own doing, so which indices it holds. Each call is made
/// with a pass of its set, which is the caller's concern. An index that a dropped pass holds stays out for good. This
/// project's own.
pub struct Pass {
    seated: Seated<View<u64>, u64, IndicesRule>,
    capacity: u32,
    ghost sized: { seated.seat.table_id.words ≡ size capacity + 1 },
    ghost keyed: { key_of seated ≡ capacity },
    ghost known: { seated.seat.me.0.capacity ≡ capacity },
    ghost places: { 0 < capacity },
    ghost idle: { seated.seat.me.0.going ≡ None },
    ghost alone: { seated.seat.me.0.other ≡ [] },
    ghost some: { (0 < seated.seat.me.0.share.part) × (0 < seated.seat.me.0.share.parts) },
    ghost knows: { Knows one_word kinds.Indices capacity seated.seat.me.0 } by { knows_prop (Coded-set coded_ℕ) one_word kinds.Indices capacity seated.seat.me.0 },
    ghost sound: { IsSound seated.seat.me.0 },
    ghost done: { IsDone seated.seat.me.0.made },
}

impl Drop for Pass {
    fn drop(self) {
        let Self {
            seated: _seated,
            capacity: _,
        } = self;
    }
}

/// An index that is held. It owns the pass that it was acquired with, and gives the index back in mode `Default` when
/// it is dropped. After `UniqueIndex` of the Rust crate.
pub struct UniqueIndex<'a> {
    set: &'a UniqueIndexSet,
    pass: Pass,
    index: u32,
    ghost table: { pass.seated.seat.table_id ≡ home_id set.now.home },
    ghost size: { pass.capacity ≡ set.now.capacity },
    ghost held: { Holds index pass.seated.seat.me.0.made },
}

impl<'a> Drop for UniqueIndex<'a> {
    /// Gives the index back. At most 5 atomic steps.
    fn drop(self) {
        let Self {
            set,
            mut pass,
            index,
        } = self;
        set.release_raw_index(index, &mut pass);
    }
}
