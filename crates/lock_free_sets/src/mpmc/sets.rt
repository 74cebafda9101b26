//! What bit sets and counting bit sets have in common: their types, and how both are made. The types
//! have a kind E; the modules `bit_set` and `counting_bit_set` have names for those of their kind,
//! and the calls on places.
ghost use Rattle.std.specs.Prelude.{◌≡◌, ◌<◌, ◌+◌, [], None};
ghost use Rattle.std.specs.Coded.{Coded-set};
ghost use Rattle.model.specs.Coding.{coding_by};
ghost use Rattle.threaded.specs.Seats.{key_of};
ghost use Rattle.history.specs.History.{Knows};
ghost use Rattle.history.proofs.KnownRuns.{knows_prop};
ghost use Rattle.lock_free_sets.specs.Sets.Kinds.{machine_kind, words_of};

use self::rule::{Kind, SetRule};
use atomic_table::TableRule;
use history::view::View;
use std::marker::PhantomData;
use steps::words::Words;
use threaded::driver::seated::{Home, Seated};

pub(crate) mod calls;
mod debug;
pub(crate) mod drives;
mod fixed;
mod handles;
mod make;
mod passes;
pub mod rule;

pub use handles::Handle;

/// A set of places, which threads share by reference.
pub struct Set<E: Kind> {
    home: Home<View<u64>, u32, SetRule<E>>,
    capacity: u32,
}

impl<E: Kind> Drop for Set<E> {
    fn drop(self) {
        let Self {
            home: _home,
            capacity: _,
        } = self;
    }
}

/// A set whose type names its capacity, CAPACITY. It is used as the set that it has.
pub struct FixedSize<E: Kind, const CAPACITY: usize> {
    set: Set<E>,
    ghost sized: { set.capacity ≡ CAPACITY },
}

impl<E: Kind, const CAPACITY: usize> Drop for FixedSize<E, CAPACITY> {
    fn drop(self) {
        let Self { set: _set } = self;
    }
}

/// A pass permits its owner to call a set. It knows which set it is for, how much of the set's history it has seen, and
/// what of it is its own doing. Each call is made with a pass of its set, which is the caller's concern. This project's
/// own. (T and Q are parameters, though only u64 and `SetRule<E>` are used: else `sized` could not name the kind.)
pub struct Held<E: Kind, T: Words, Q: TableRule<(), View<T>, u32>> {
    pub of: PhantomData<E>,
    pub(crate) seated: Seated<View<T>, u32, Q>,
    pub(crate) capacity: u32,
    ghost sized: { seated.seat.table_id.words ≡ words_of E.KIND capacity + 1 },
    ghost keyed: { key_of seated ≡ capacity },
    ghost known: { seated.seat.me.0.capacity ≡ capacity },
    ghost idle: { seated.seat.me.0.going ≡ None },
    ghost alone: { seated.seat.me.0.other ≡ [] },
    ghost some: { (0 < seated.seat.me.0.share.part) × (0 < seated.seat.me.0.share.parts) },
    ghost knows: { Knows (coding_by T.Words) (machine_kind E.KIND) capacity seated.seat.me.0 } by { knows_prop (Coded-set T.code) (coding_by T.Words) (machine_kind E.KIND) capacity seated.seat.me.0 },
}

impl<E: Kind, T: Words, Q: TableRule<(), View<T>, u32>> Drop for Held<E, T, Q> {
    fn drop(self) {
        let Self {
            of: _,
            seated: _seated,
            capacity: _,
        } = self;
    }
}

pub type Pass<E> = Held<E, u64, SetRule<E>>;
