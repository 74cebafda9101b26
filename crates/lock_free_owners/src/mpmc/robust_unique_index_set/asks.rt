//! The loop of a recovery over the cells of a robust set. It loads one cell after another, and asks the first
//! closure about each owner that it finds.
ghost use Rattle.std.specs.Prelude.{◌≡◌, ◌+◌, ◌<◌, ◌≤◌, ℕ, Bool};
ghost use Rattle.steps.specs.Indices.Robust.Parts.{empty};
ghost use Rattle.steps.specs.Indices.Robust.Recover.{recover_after, recover_comes_to};
ghost use Rattle.steps.specs.declared.ask.After.TheVariants.{GoOn};
ghost use Rattle.steps.specs.declared.ask.Op.TheVariants.{Load};
ghost use Rattle.steps.specs.declared.indices.robust.recover.Recover.{Recover as Recovering};
ghost use Rattle.steps.specs.declared.indices.robust.recover.RecoverStage.TheVariants as stages;
ghost use Rattle.model.specs.declared.turn.Kind.TheVariants as kinds;
ghost use Rattle.model.specs.Coding.{one_word};
ghost use Rattle.model.specs.Turns.{number_of};
ghost use Rattle.history.specs.History.{IsMachine};
ghost use Rattle.history.specs.declared.view.View.{View};
ghost use Rattle.threaded.specs.Driver.{OwesAsk};
ghost use Rattle.threaded.specs.Seats.{seen, table_of, key_of, IsSame};
ghost use Rattle.lock_free_owners.specs.Robust.Recovering.{MayAsk, LeadsOn};
ghost use Rattle.lock_free_owners.specs.Robust.Turns.{IsBoard, StaysAtBoard, RecoverStands, RecoverGoes};

use super::OwnerId;
use super::rule::Seat;
use history::view::View;
use std::marker::Brand;
use steps::ask::After;
use steps::indices::enums::{ReleaseMode, ReleaseState};
use steps::indices::robust::parts::FIRST_CELL;
use steps::indices::robust::recover::{Recover, RecoverStage};
use steps::routine::Routine;
use threaded::driver::rule::Tells;

/// Loads the cell of an index. The caller picks by M what the load tells. The parameters with `_`
/// are for the proof alone.
#[inline(always)]
fn load_for<M: Tells<View<u64>>>(
    seat: &mut Seat,
    _capacity: u32,
    cell: usize,
    _mode: ReleaseMode,
) -> u64
    requires within { cell < _capacity }
    requires owes { OwesAsk (λ (v : View ℕ). v.asked) (IsMachine one_word kinds.Robust (key_of seat.old))
        (table_of seat.old).words (table_of seat.old).slots seat.old.seat.id M.told (1 + cell) Load seat.old.seat.me }
    requires capacity { (v : View ℕ) (n : ℕ) (w : View ℕ) → M.told v n w → w.capacity ≡ v.capacity }
    ensures same { IsSame seat.old seat.new }
    ensures loaded { M.told (seen seat.old) result (seen seat.new) }
{
    seat.look::<M>(FIRST_CELL + cell)
}

/// Takes the step of a recovery that stands at this cell, and returns the cell's word. The caller changes the
/// stage. The index is a `usize`, so that no iteration of a loop has to widen it.
#[inline(always)]
fn load_cell(seat: &mut Seat, capacity: u32, cell: usize, mode: ReleaseMode) -> u64
    requires board { IsBoard seat.old }
    requires within { cell < capacity }
    requires at { RecoverStands mode (seen seat.old) (record { capacity = capacity; stage = stages.LoadsCell cell }) }
    ensures stays { StaysAtBoard seat.old seat.new }
    ensures goes { RecoverGoes mode (seen seat.old) (record { capacity = capacity; stage = stages.LoadsCell cell })
        (λ visits. visits) (recover_after (record { capacity = capacity; stage = stages.LoadsCell cell }) mode result)
        (seen seat.new) }
{
    load_for::<Brand>(seat, capacity, cell, mode)
}

/// Takes the steps of a recovery over cells, from the cell `first` on. It passes cells without an owner, and
/// those about whose owner the first closure says no. The loop carries only the index; a `Recover` is made
/// where it ends. S is the type of the second closure, which only the contract needs.
#[inline(always)]
fn ask_over<F: FnMut(OwnerId, usize) -> bool, S: FnMut(OwnerId, usize)>(
    seat: &mut Seat,
    capacity: u32,
    first: u32,
    mode: ReleaseMode,
    predicate: &mut F,
) -> After<Recover, ReleaseState>
    requires board { IsBoard seat.old }
    requires asks { MayAsk (λ p o i b q. F.step p o i b q) (λ s o i t. S.step s o i tt t) F.pre mode (seen seat.old)
        (record { capacity = capacity; stage = stages.LoadsCell first }) predicate.old }
    ensures stays { StaysAtBoard seat.old seat.new }
    ensures goes { LeadsOn (λ p o i b q. F.step p o i b q) (λ s o i t. S.step s o i tt t) mode (seen seat.old)
        (record { capacity = capacity; stage = stages.LoadsCell first }) predicate.old result (seen seat.new) predicate.new }
{
    let mut cell = first as usize;
    'cells: loop {
        let found = load_cell(seat, capacity, cell, mode);
        let answer = ask_found(predicate, found, cell);
        if answer != 0 {
            let here = at_cell(capacity, cell as u32);
            return answered(here, mode, found, answer);
        }
        cell = passed_next(capacity, cell);
        if cell >= capacity as usize {
            return past_last(capacity);
        }
    }
}

/// Takes the steps over cells if the recovery stands at a cell, and returns it unchanged at any other stage.
#[inline(always)]
pub(crate) fn ask_first<F: FnMut(OwnerId, usize) -> bool, S: FnMut(OwnerId, usize)>(
    seat: &mut Seat,
    call: Recover,
    mode: ReleaseMode,
    predicate: &mut F,
) -> After<Recover, ReleaseState>
    requires board { IsBoard seat.old }
    requires asks { MayAsk (λ p o i b q. F.step p o i b q) (λ s o i t. S.step s o i tt t) F.pre mode (seen seat.old)
        call predicate.old }
    ensures stays { StaysAtBoard seat.old seat.new }
    ensures goes { LeadsOn (λ p o i b q. F.step p o i b q) (λ s o i t. S.step s o i tt t) mode (seen seat.old)
        call predicate.old result (seen seat.new) predicate.new }
{
    let stage = call.stage;
    match stage {
        RecoverStage::LoadsCell { index } => {
            ask_over::<F, S>(seat, call.capacity, index, mode, predicate)
        }
        _ => After::GoOn(call),
    }
}

/// Returns the index behind this cell. If it is below the capacity, the recovery goes on to its cell.
#[inline(always)]
fn passed_next(capacity: u32, cell: usize) -> usize
    requires { cell < capacity }
    ensures next { result ≡ cell + 1 }
    ensures after { result < capacity
        → recover_comes_to (record { capacity = capacity; stage = stages.LoadsCell cell }) result
        ≡ GoOn (record { capacity = capacity; stage = stages.LoadsCell result }) }
{
    cell + 1
}

/// Returns the recovery behind its last cell: it loads the counter again.
#[inline(always)]
fn past_last(capacity: u32) -> After<Recover, ReleaseState>
    ensures { (cell next : ℕ) → capacity ≤ next
        → recover_comes_to (record { capacity = capacity; stage = stages.LoadsCell cell }) next ≡ result }
{
    After::GoOn(Recover {
        capacity,
        stage: RecoverStage::LoadsCounterAgain,
    })
}

/// Returns the recovery after it has found `found` at its cell and has heard `answer` about it.
#[inline(always)]
fn answered(
    call: Recover,
    mode: ReleaseMode,
    found: u64,
    answer: u64,
) -> After<Recover, ReleaseState>
    ensures { (asking : Recovering) → recover_after call mode found ≡ GoOn asking
        → result ≡ recover_after asking mode answer }
{
    let after = call.take(&mode, &mut (), found);
    match after {
        After::GoOn(asking) => asking.take(&mode, &mut (), answer),
        After::Done(state) => After::Done(state),
    }
}

/// Returns a recovery that stands at the cell of this index.
#[inline(always)]
fn at_cell(capacity: u32, index: u32) -> Recover
    ensures { result ≡ record { capacity = capacity; stage = stages.LoadsCell index } }
{
    Recover {
        capacity,
        stage: RecoverStage::LoadsCell { index },
    }
}

/// Asks the closure about the owner and the index, and returns 1 for yes and 0 for no.
#[inline(always)]
fn ask<F: FnMut(OwnerId, usize) -> bool>(predicate: &mut F, owner: OwnerId, index: usize) -> u64
    requires { F.pre predicate.old owner index }
    ensures { (yes : Bool) × F.step predicate.old owner index yes predicate.new × (result ≡ number_of yes) }
{
    let yes = predicate(owner, index);
    if yes { 1 } else { 0 }
}

/// Asks the closure about the owner that was found in the cell of this index. If the cell has no owner, it
/// asks nothing and returns 0, which is a no.
#[inline(always)]
fn ask_found<F: FnMut(OwnerId, usize) -> bool>(predicate: &mut F, found: u64, index: usize) -> u64
    requires { found < empty → F.pre predicate.old found index }
    ensures asked { found < empty
        → (yes : Bool) × F.step predicate.old found index yes predicate.new × (result ≡ number_of yes) }
    ensures passed { found ≡ empty → (result ≡ 0) × (predicate.new ≡ predicate.old) }
{
    match OwnerId::new(found) {
        Ok(owner) => ask(predicate, owner, index),
        Err(_) => 0,
    }
}
