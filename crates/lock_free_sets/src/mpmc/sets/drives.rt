//! A type for each call that both sets have. It says what the seat's view knows while the call is under way
//! and once it has ended. These types are for the proofs alone.
ghost use Rattle.model.specs.Coding.{one_word};
ghost use Rattle.lock_free_sets.specs.Sets.Kinds.{machine_kind};

use super::rule::Kind;
use history::view::View;
use std::marker::PhantomData;
use steps::bits::reset_all::ResetAll;
use threaded::driver::rule::{Drives, Tells};

/// Emptying the words, which is `reset_all` of a set with a place.
pub struct Empties<E> {
    of: PhantomData<E>,
}

impl<E: Kind> Drives<View<u64>, ResetAll> for Empties<E> {
    ghost use Rattle.history.specs.Stages.{At, Ends};
    ghost use Rattle.lock_free_sets.specs.Sets.Stages.{empties};

    ghost at = { λ given. At one_word (machine_kind E.KIND) (empties E.KIND) };

    ghost ends = { λ given. Ends one_word (machine_kind E.KIND) (empties E.KIND) };
}

/// Emptying a set of no place: one look at a word.
pub struct EmptiesNone<E> {
    of: PhantomData<E>,
}

impl<E: Kind> Tells<View<u64>> for EmptiesNone<E> {
    ghost use Rattle.history.specs.Stages.{Ends};
    ghost use Rattle.lock_free_sets.specs.Sets.Stages.{empties_none};

    ghost told = { λ old found new.
        Ends one_word (machine_kind E.KIND) (empties_none E.KIND) old tt (record { 0 = 0 }) new };
}

/// A look at the whole history.
pub struct Look<E> {
    of: PhantomData<E>,
}

impl<E: Kind> Tells<View<u64>> for Look<E> {
    ghost use Rattle.history.specs.Views.{LooksOnce};

    ghost told = { λ old found new. LooksOnce one_word (machine_kind E.KIND) old.capacity old new };
}
