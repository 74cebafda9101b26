//! The recovery on a set: it frees indices of owners who are dead for good, which is the caller's concern. It asks
//! nothing of a set that is locked at the beginning. If it meets the lock right after it has freed an index, and told
//! of it, it comes to no further index. In mode `LockIfLastIndex` it locks the set if no index has an owner after one
//! was freed. Its questions, answers and frees stand in the history.
ghost use Rattle.std.specs.Prelude.{◌≡◌, ℕ, false, List, IsTrue, IsFalse};
ghost use Rattle.steps.specs.Indices.Robust.Recover.{recover_after};
ghost use Rattle.model.specs.Families.Indices.Reading.{is_locked};
ghost use Rattle.history_owners.specs.Robust.{Visit};
ghost use Rattle.threaded.specs.Seats.{seen};
ghost use Rattle.lock_free_owners.specs.Robust.Callable.{TakesQuestions, TakesFreed, HasVisited};
ghost use Rattle.lock_free_owners.specs.Robust.Stages.{LooksAgain, RecoverAsks, RecoverMoves, has_freed};
ghost use Rattle.lock_free_owners.specs.Robust.Steps.{RecoverTakes};
ghost use Rattle.lock_free_owners.specs.Robust.Calls.{RecoverDone};
ghost use Rattle.lock_free_owners.specs.Robust.Turns.{IsBoard, StaysAtBoard, BeginsRecover, RecoverEnds, RecoverStands, RecoverGoes, RecoverSteps};
ghost use Rattle.lock_free_owners.specs.RobustUniqueIndexSet.{view, history, capacity_of, IsPassOf, SamePass};

use super::asks::ask_first;
use super::rule::Seat;
use super::{OwnerId, Pass, RobustUniqueIndexSet};
use std::marker::Brand;
use std::sync::Wait;
use steps::ask::After;
use steps::indices::enums::{ReleaseMode, ReleaseState};
use steps::indices::robust::recover::{Recover, RecoverStage};
use steps::routine::Routine;

/// Takes one step of the recovery on the words of the table.
#[inline(always)]
fn step_recover(seat: &mut Seat, call: Recover, mode: ReleaseMode) -> After<Recover, ReleaseState>
    requires board { IsBoard seat.old }
    requires at { RecoverStands mode (seen seat.old) call }
    ensures stays { StaysAtBoard seat.old seat.new }
    ensures goes { (k : ℕ) × (result ≡ recover_after call mode k)
        × RecoverSteps mode (seen seat.old) call k result (seen seat.new) }
{
    seat.step_telling::<Brand, Recover>(call, &mode, &mut ())
}

/// Loads the counter again if the recovery is past its last cell. At any other stage it returns
/// the recovery unchanged.
#[inline(always)]
fn look_again(seat: &mut Seat, call: Recover, mode: ReleaseMode) -> After<Recover, ReleaseState>
    requires board { IsBoard seat.old }
    requires at { RecoverStands mode (seen seat.old) call }
    ensures stays { StaysAtBoard seat.old seat.new }
    ensures looked { LooksAgain call mode call.stage result }
    ensures goes { RecoverGoes mode (seen seat.old) call (λ visits. visits) result (seen seat.new) }
{
    let stage = call.stage;
    match stage {
        RecoverStage::LoadsCounterAgain => step_recover(seat, call, mode),
        _ => After::GoOn(call),
    }
}

/// Takes one step of the recovery, or asks the first closure where the recovery stands at its question. After
/// the step that frees an index it tells the second closure.
#[inline(always)]
fn recover_next<F: FnMut(OwnerId, usize) -> bool, S: FnMut(OwnerId, usize)>(
    seat: &mut Seat,
    call: Recover,
    mode: ReleaseMode,
    predicate: &mut F,
    recovered: &mut S,
) -> After<Recover, ReleaseState>
    requires board { IsBoard seat.old }
    requires at { RecoverStands mode (seen seat.old) call }
    requires asks { RecoverAsks F.pre S.pre call.stage predicate.old recovered.old }
    ensures stays { StaysAtBoard seat.old seat.new }
    ensures goes { (k : ℕ) × RecoverSteps mode (seen seat.old) call k result (seen seat.new)
        × RecoverMoves (λ p o i b q. F.step p o i b q) (λ s o i t. S.step s o i tt t)
        call mode call.stage k predicate.old recovered.old result predicate.new recovered.new }
{
    let stage = call.stage;
    match stage {
        RecoverStage::Asks { index, owner } => {
            let yes = ask(predicate, owner, index);
            call.take(&mode, &mut (), if yes { 1 } else { 0 })
        }
        RecoverStage::EmptiesCell { index, owner } => {
            let after = step_recover(seat, call, mode);
            tell_where(recovered, has_freed(after), owner, index);
            after
        }
        RecoverStage::LoadsCounter => step_recover(seat, call, mode),
        RecoverStage::LoadsCell { .. } => step_recover(seat, call, mode),
        RecoverStage::Raises { .. } => step_recover(seat, call, mode),
        RecoverStage::Locks { .. } => step_recover(seat, call, mode),
        RecoverStage::LoadsCounterAgain => step_recover(seat, call, mode),
    }
}

/// Takes all steps of the recovery, which frees the indices that the first closure says yes to.
fn recover_all<F: FnMut(OwnerId, usize) -> bool, S: FnMut(OwnerId, usize)>(
    seat: &mut Seat,
    rt: &impl Wait,
    capacity: u32,
    mode: ReleaseMode,
    predicate: &mut F,
    recovered: &mut S,
) -> ReleaseState
    requires begins { BeginsRecover capacity mode seat.old }
    requires questions { is_locked (seen seat.old).seen ≡ false → TakesQuestions F.pre
        (λ p o i b q. F.step p o i b q) capacity predicate.old }
    requires freed { is_locked (seen seat.old).seen ≡ false → TakesFreed (λ p o i b q. F.step p o i b q)
        S.pre (λ s o i t. S.step s o i tt t) capacity predicate.old recovered.old }
    ensures stays { StaysAtBoard seat.old seat.new }
    ensures ends { (visits : List Visit) × RecoverEnds mode (seen seat.old) result visits (seen seat.new)
        × HasVisited (λ p o i b q. F.step p o i b q) (λ s o i t. S.step s o i tt t)
        predicate.old recovered.old visits predicate.new recovered.new }
{
    // The first steps stand before the loop, so that a compiler sees the call's stage there. A recovery that
    // frees nothing ends by them.
    let call = match step_recover(seat, Recover::new(capacity), mode) {
        After::GoOn(next) => next,
        After::Done(state) => return state,
    };
    let first = ask_first::<F, S>(seat, call, mode, predicate);
    let call = match first {
        After::GoOn(next) => next,
        After::Done(state) => return state,
    };
    let mut call = match look_again(seat, call, mode) {
        After::GoOn(next) => next,
        After::Done(state) => return state,
    };
    for _ in rt.forever() {
        let after = recover_next(seat, call, mode, predicate, recovered);
        let stepped = match after {
            After::GoOn(next) => next,
            After::Done(state) => return state,
        };
        let cells = ask_first::<F, S>(seat, stepped, mode, predicate);
        match cells {
            After::GoOn(next) => call = next,
            After::Done(state) => return state,
        }
    }
    unreachable!()
}

/// Returns whether a step at `EmptiesCell` has emptied the cell: the recovery then raises the counter.
#[inline(always)]
fn has_freed(after: After<Recover, ReleaseState>) -> bool
    ensures { result ≡ has_freed after }
{
    match after {
        After::GoOn(next) => {
            let stage = next.stage;
            match stage {
                RecoverStage::Raises { .. } => true,
                _ => false,
            }
        }
        After::Done(_) => false,
    }
}

/// Asks the closure about the owner and the index.
#[inline(always)]
fn ask<F: FnMut(OwnerId, usize) -> bool>(predicate: &mut F, owner: OwnerId, index: u32) -> bool
    requires { F.pre predicate.old owner index }
    ensures { F.step predicate.old owner index result predicate.new }
{
    predicate(owner, index as usize)
}

/// Calls the closure with the owner and the index if the index was freed.
#[inline(always)]
fn tell_where<S: FnMut(OwnerId, usize)>(recovered: &mut S, freed: bool, owner: OwnerId, index: u32)
    requires { IsTrue freed → S.pre recovered.old owner index }
    ensures called { IsTrue freed → S.step recovered.old owner index tt recovered.new }
    ensures passed { IsFalse freed → recovered.new ≡ recovered.old }
{
    if freed {
        recovered(owner, index as usize);
    }
}

impl RobustUniqueIndexSet {
    /// Asks `predicate` about each index that has an owner, and frees it if the answer is true. Indices ascend, each at
    /// most once. If that owner still has the index it is freed, and `recover_success` called.
    ///
    /// `Locked` if the set is locked; else `Unlocked`: each index with one owner throughout was asked about. Alone at
    /// most 2 + 4·capacity steps, in mode `LockIfLastIndex` 2 + capacity·(capacity + 7). After `recover` of the Rust
    /// crate.
    pub fn recover<F: FnMut(OwnerId, usize) -> bool, S: FnMut(OwnerId, usize)>(
        &self,
        rt: &impl Wait,
        mode: ReleaseMode,
        predicate: &mut F,
        recover_success: &mut S,
        pass: &mut Pass,
    ) -> ReleaseState
        requires pass { IsPassOf self.now pass.old }
        requires questions { is_locked (history pass.old) ≡ false → TakesQuestions F.pre
            (λ p o i b q. F.step p o i b q) (capacity_of self.now) predicate.old }
        requires freed { is_locked (history pass.old) ≡ false → TakesFreed
            (λ p o i b q. F.step p o i b q) S.pre (λ s o i t. S.step s o i tt t)
            (capacity_of self.now) predicate.old recover_success.old }
        ensures same { SamePass pass.old pass.new }
        ensures recovered { RecoverDone (λ p o i b q. F.step p o i b q) (λ s o i t. S.step s o i tt t) mode result
            predicate.old recover_success.old predicate.new recover_success.new (view pass.old) (view pass.new) }
        ensures steps { RecoverTakes (capacity_of self.now) mode (view pass.old) (view pass.new) }
    {
        recover_all(
            &mut pass.seated,
            rt,
            pass.capacity,
            mode,
            predicate,
            recover_success,
        )
    }
}
