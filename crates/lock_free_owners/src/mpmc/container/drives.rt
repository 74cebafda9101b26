//! A type for each call and look of a container. It says what the seat's view knows while the call is under
//! way and once it has ended. These types are for the proofs alone.
ghost use Rattle.std.specs.Prelude.{[]};
ghost use Rattle.model.specs.Coding.{coding_by};
ghost use Rattle.model.specs.declared.turn.Kind.TheVariants as kinds;

use history::view::View;
use std::marker::{Brand, PhantomData};
use steps::container::add::{Add, AddStage};
use steps::container::look::Look;
use steps::container::remove::Remove;
use steps::container::replace::Replace;
use steps::indices::robust::acquire::AcquireStage;
use steps::indices::robust::looks::{BorrowedIndices, IsLocked};
use steps::words::Words;
use threaded::driver::rule::{Drives, Tells};

/// Adding a value.
pub struct Adds;

impl<T: Words> Drives<View<T>, Add<T>> for Adds {
    ghost use Rattle.lock_free_owners.specs.Container.Turns.{AddAt, AddEnds};

    ghost at = { AddAt (coding_by T.Words) };

    ghost ends = { AddEnds (coding_by T.Words) };

    #[inline(always)]
    fn repeats(call: Add<T>) -> bool {
        matches!(
            call.stage,
            AddStage::Acquires {
                stage: AcquireStage::FillsCell { .. },
            }
        )
    }
}

/// Removing a value.
pub struct Removes;

impl<T: Words> Drives<View<T>, Remove> for Removes {
    ghost use Rattle.lock_free_owners.specs.Container.Turns.{RemoveAt, RemoveEnds};

    ghost at = { RemoveAt (coding_by T.Words) };

    ghost ends = { RemoveEnds (coding_by T.Words) };
}

/// Replacing a value.
pub struct Replaces;

impl<T: Words> Drives<View<T>, Replace<T>> for Replaces {
    ghost use Rattle.lock_free_owners.specs.Container.Turns.{ReplaceAt, ReplaceEnds};

    ghost at = { ReplaceAt (coding_by T.Words) };

    ghost ends = { ReplaceEnds (coding_by T.Words) };
}

/// A type for each question that a count answers.
pub trait Counting {
    ghost use Rattle.model.specs.declared.families.container.calls.CountOf.{CountOf};

    ghost which: { CountOf };
}

/// The question of `len`: how many indices have an owner.
pub struct HowMany;

impl Counting for HowMany {
    ghost use Rattle.model.specs.declared.families.container.calls.CountOf.TheVariants.{Len};

    ghost which = { Len };
}

/// The question of `is_empty`: whether no index has an owner.
pub struct WhetherNone;

impl Counting for WhetherNone {
    ghost use Rattle.model.specs.declared.families.container.calls.CountOf.TheVariants.{IsEmpty};

    ghost which = { IsEmpty };
}

/// Counting the indices that have an owner.
pub struct Counts<W> {
    of: PhantomData<W>,
}

impl<T: Words, W: Counting> Drives<View<T>, BorrowedIndices> for Counts<W> {
    ghost use Rattle.lock_free_owners.specs.Container.Turns.{CountAt, CountEnds};

    ghost at = { λ given. CountAt (coding_by T.Words) W.which };

    ghost ends = { λ given. CountEnds (coding_by T.Words) W.which };
}

/// Looking at the lock.
pub struct LooksLocked;

impl<T: Words> Drives<View<T>, IsLocked> for LooksLocked {
    ghost use Rattle.lock_free_owners.specs.Container.Turns.{LockAt, LockEnds};

    ghost at = { λ given. LockAt (coding_by T.Words) };

    ghost ends = { λ given. LockEnds (coding_by T.Words) };
}

/// How a look begins: as which call of the history, from which view, and with what its state shows. The
/// caller of the look picks it.
pub trait Beginning<T> {
    ghost use Rattle.model.specs.declared.families.container.calls.LookOf.{LookOf};
    ghost use Rattle.steps.specs.Container.State.{Showing};
    ghost use Rattle.history.specs.declared.view.View.{View};

    ghost which: { LookOf };

    ghost from: { View T };

    ghost shown: { Showing T };
}

impl<T> Beginning<T> for Brand {
    ghost use Rattle.model.specs.declared.families.container.calls.LookOf.TheVariants.{GetState};
    ghost use Rattle.history.specs.Views.{spent_view};

    ghost which = { GetState };

    ghost from = { spent_view };

    ghost shown = { record { change = 0; elements = []; copy = [] } };
}

/// Bringing a state up to date. Of a new state, or the one that the pass has, this is a call of the history.
/// Of any other state it changes nothing that the pass knows.
pub struct Looks<B> {
    of: PhantomData<B>,
}

impl<T: Words, B: Beginning<T>> Drives<View<T>, Look<T>> for Looks<B> {
    ghost use Rattle.lock_free_owners.specs.Container.LookTurns.{LookAt, LookOver};

    ghost at = { λ given base. LookAt (coding_by T.Words) B.which B.from B.shown given };

    ghost ends = { λ given base. LookOver (coding_by T.Words) B.which B.from B.shown given };
}

/// Bringing a state up to date, once a change was found.
pub struct LooksOn<B> {
    of: PhantomData<B>,
}

impl<T: Words, B: Beginning<T>> Drives<View<T>, Look<T>> for LooksOn<B> {
    ghost use Rattle.lock_free_owners.specs.Container.LookTurns.{LookOnAt, LookOnOver};

    ghost at = { λ given base. LookOnAt (coding_by T.Words) B.which B.from B.shown given };

    ghost ends = { λ given base. LookOnOver (coding_by T.Words) B.which B.from B.shown given };
}

/// The load that ends the pass's last call if it rests. If none rests, the pass knows what it knew.
pub struct Settle;

impl<T: Words> Tells<View<T>> for Settle {
    ghost use Rattle.lock_free_owners.specs.Container.Settling.{HasSettled};

    ghost told = { λ old found new. HasSettled (coding_by T.Words) old new };
}

/// A look at the whole history.
pub struct Glance;

impl<T: Words> Tells<View<T>> for Glance {
    ghost use Rattle.history.specs.Views.{LooksOnce};

    ghost told = { λ old found new.
        LooksOnce (coding_by T.Words) kinds.Container old.capacity old new };
}
