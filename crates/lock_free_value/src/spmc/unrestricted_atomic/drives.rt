//! A type for each call of a value. It says what the seat's view knows while the call is under way and once
//! it has ended. These types are for the proofs alone.
ghost use Rattle.model.specs.Coding.{coding_by};
ghost use Rattle.model.specs.declared.turn.Kind.TheVariants as kinds;

use history::view::View;
use std::marker::PhantomData;
use steps::atomic::version::Version;
use steps::atomic::{Load, Store};
use steps::copied::Room;
use steps::queues::roles::{AcquireRole, LookRole, ReleaseRole};
use steps::words::Words;
use threaded::driver::rule::{Drives, Tells};

/// Taking the producer's role.
pub struct TakesProducer;

impl<T: Words> Drives<View<T>, AcquireRole> for TakesProducer {
    ghost use Rattle.history.specs.Stages.{At, Ends};
    ghost use Rattle.history_value.specs.Value.{acquires_producer};

    ghost at = { λ given. At (coding_by T.Words) kinds.Atomic acquires_producer };

    ghost ends = { λ given. Ends (coding_by T.Words) kinds.Atomic acquires_producer };
}

/// Giving the producer's role back.
pub struct LeavesProducer;

impl<T: Words> Drives<View<T>, ReleaseRole> for LeavesProducer {
    ghost use Rattle.history.specs.Stages.{At, Ends};
    ghost use Rattle.history_value.specs.Value.{releases_producer};

    ghost at = { λ given. At (coding_by T.Words) kinds.Atomic releases_producer };

    ghost ends = { λ given. Ends (coding_by T.Words) kinds.Atomic releases_producer };
}

/// Storing a value.
pub struct Stores<T> {
    of: PhantomData<T>,
}

impl<T: Words + Drop> Drives<View<T>, Store<T>> for Stores<T> {
    ghost use Rattle.history.specs.Stages.{At, Over};
    ghost use Rattle.history_value.specs.Value.{stores_value};

    ghost at = { λ value. At (coding_by T.Words) kinds.Atomic
        (stores_value (coding_by T.Words) value) };

    ghost ends = { λ value. Over (coding_by T.Words) kinds.Atomic
        (stores_value (coding_by T.Words) value) };
}

/// Loading a value into a room of the type R.
pub struct Loads<T, R> {
    of: PhantomData<(T, R)>,
}

impl<T: Words, R: Room<T> + Drop> Drives<View<T>, Load<T, R>> for Loads<T, R> {
    ghost use Rattle.history.specs.Stages.{At, Ends};
    ghost use Rattle.history_value.specs.Value.{loads_value};

    ghost at = { λ given. At (coding_by T.Words) kinds.Atomic
        (loads_value (coding_by T.Words) R.words_in) };

    ghost ends = { λ given. Ends (coding_by T.Words) kinds.Atomic
        (loads_value (coding_by T.Words) R.words_in) };
}

/// Looking at the producer's role.
pub struct LooksAtProducer;

impl<T: Words> Drives<View<T>, LookRole> for LooksAtProducer {
    ghost use Rattle.history.specs.Stages.{At, Ends};
    ghost use Rattle.history_value.specs.Value.{looks_at_producer};

    ghost at = { λ given. At (coding_by T.Words) kinds.Atomic looks_at_producer };

    ghost ends = { λ given. Ends (coding_by T.Words) kinds.Atomic looks_at_producer };
}

/// Looking at the version.
pub struct LooksAtVersion;

impl<T: Words> Drives<View<T>, Version> for LooksAtVersion {
    ghost use Rattle.history.specs.Stages.{At, Ends};
    ghost use Rattle.history_value.specs.Value.{looks_at_version};

    ghost at = { λ given. At (coding_by T.Words) kinds.Atomic looks_at_version };

    ghost ends = { λ given. Ends (coding_by T.Words) kinds.Atomic looks_at_version };
}

/// A look at the whole history.
pub struct Look;

impl<T: Words> Tells<View<T>> for Look {
    ghost use Rattle.history.specs.Views.{LooksOnce};

    ghost told = { λ old found new. LooksOnce (coding_by T.Words) kinds.Atomic 1 old new };
}
