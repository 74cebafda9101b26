//! The find on a set: it comes to the indices of an owner. The loads of cells have a loop of their own.
//! It begins with a look at the lock, a call of the history, which marks where the find begins. The
//! loads of its cells are no calls of the history. It finds also the indices whose acquire met the lock,
//! since they keep their owner.
ghost use Rattle.std.specs.Prelude.{◌≡◌, ◌+◌, ◌<◌, ◌≢◌, ℕ};
ghost use Rattle.steps.specs.Indices.Robust.Find.{find_after, find_left};
ghost use Rattle.steps.specs.Indices.Robust.Parts.{cell_word};
ghost use Rattle.steps.specs.declared.ask.After.TheVariants.{GoOn};
ghost use Rattle.steps.specs.declared.enums.CallbackProgression.{CallbackProgression as Progression};
ghost use Rattle.steps.specs.declared.enums.CallbackProgression.TheVariants.{Continue};
ghost use Rattle.steps.specs.declared.indices.robust.find.FindStage.TheVariants as stages;
ghost use Rattle.model.specs.Coding.{one_word};
ghost use Rattle.model.specs.declared.turn.Kind.TheVariants as kinds;
ghost use Rattle.threaded.specs.Callable.{TakesPlaces};
ghost use Rattle.threaded.specs.Seats.{seen};
ghost use Rattle.history.specs.Steps.{TakesAtMost};
ghost use Rattle.history.specs.Views.{LooksAt};
ghost use Rattle.lock_free_owners.specs.Robust.Finding.{MayTurn, GoesDown, KeepsSearching, HasEnded};
ghost use Rattle.lock_free_owners.specs.Robust.Stages.{says};
ghost use Rattle.lock_free_owners.specs.Robust.Contracts.{HasSearched};
ghost use Rattle.lock_free_owners.specs.Robust.Turns.{IsReady, StaysAtBoard};
ghost use Rattle.lock_free_owners.specs.RobustUniqueIndexSet.{view, capacity_of, IsPassOf, LeavesPass};

use super::rule::Seat;
use super::{CallbackProgression, OwnerId, Pass, RobustUniqueIndexSet};
use std::marker::Brand;
use steps::ask::After;
use steps::indices::robust::find::{Find, FindStage};
use steps::indices::robust::parts::FIRST_CELL;
use steps::routine::Routine;

/// Returns the word in the cell of an index, by one load. The seat then knows the history up to this load.
/// The index is a `usize`, so that no iteration of a loop has to widen it.
#[inline(always)]
fn look_at(seat: &mut Seat, _capacity: u32, cell: usize) -> u64
    requires ready { IsReady _capacity seat.old }
    requires within { cell < _capacity }
    ensures stays { StaysAtBoard seat.old seat.new }
    ensures looks { LooksAt one_word kinds.Robust _capacity (cell_word cell) (seen seat.old) result (seen seat.new) }
    ensures counted { (seen seat.new).asked ≡ (seen seat.old).asked + 1 }
{
    seat.look::<Brand>(FIRST_CELL + cell)
}

/// Takes the steps of a find over cells that are not the owner's, from the cell `first` on. The
/// loop carries only the index; a `Find` is made where it ends. F is the type of the closure, which
/// only the contract needs.
#[inline(always)]
fn pass_over<F: FnMut(usize) -> CallbackProgression>(
    seat: &mut Seat,
    capacity: u32,
    first: u32,
    so_many: usize,
    owner: OwnerId,
) -> After<Find, usize>
    requires ready { IsReady capacity seat.old }
    requires within { first < capacity }
    ensures stays { StaysAtBoard seat.old seat.new }
    ensures less { GoesDown capacity (find_left capacity (stages.LoadsCell first so_many)) result }
    ensures goes { (p : F) → KeepsSearching (λ q x a r. F.step q x a r) capacity owner (seen seat.old)
        (record { capacity = capacity; stage = stages.LoadsCell first so_many }) p result (seen seat.new) p }
{
    let mut cell = first as usize;
    'cells: loop {
        let stands = look_at(seat, capacity, cell);
        if stands == owner.value() {
            let here = at_cell(capacity, cell as u32, so_many);
            return here.take(&owner, &mut (), stands);
        }
        cell = next_cell(capacity, cell);
        if cell >= capacity as usize {
            let last = at_cell(capacity, capacity - 1, so_many);
            return last.take(&owner, &mut (), stands);
        }
    }
}

/// Returns the index behind a cell that is not the owner's. If it is below the capacity, the
/// find goes on to its cell.
#[inline(always)]
fn next_cell(capacity: u32, cell: usize) -> usize
    requires { cell < capacity }
    ensures next { result ≡ cell + 1 }
    ensures after { result < capacity → (so_many owner stands : ℕ) → stands ≢ owner
        → find_after (record { capacity = capacity; stage = stages.LoadsCell cell so_many }) owner stands
        ≡ GoOn (record { capacity = capacity; stage = stages.LoadsCell result so_many }) }
{
    cell + 1
}

/// Returns a find that stands at the cell of this index and has visited `so_many` indices.
#[inline(always)]
fn at_cell(capacity: u32, index: u32, so_many: usize) -> Find
    ensures { result ≡ record { capacity = capacity; stage = stages.LoadsCell index so_many } }
{
    Find {
        capacity,
        stage: FindStage::LoadsCell {
            index,
            found: so_many,
        },
    }
}

/// Calls the closure with the index, and returns 1 for `Continue` and 0 for `Stop`.
#[inline(always)]
fn hear<F: FnMut(usize) -> CallbackProgression>(visit: &mut F, index: u32) -> u64
    requires { F.pre visit.old index }
    ensures { (a : Progression) × F.step visit.old index a visit.new × (result ≡ says a) }
{
    match visit(index as usize) {
        CallbackProgression::Continue => 1,
        CallbackProgression::Stop => 0,
    }
}

/// Takes all further steps over cells if the find stands at a cell. Else it calls the closure with the index
/// that it has found.
#[inline(always)]
fn find_next<F: FnMut(usize) -> CallbackProgression>(
    seat: &mut Seat,
    capacity: u32,
    call: Find,
    owner: OwnerId,
    visit: &mut F,
) -> After<Find, usize>
    requires ready { IsReady capacity seat.old }
    requires may_turn { MayTurn F.pre capacity call visit.old }
    ensures stays { StaysAtBoard seat.old seat.new }
    ensures less { GoesDown capacity (find_left capacity call.stage) result }
    ensures goes { KeepsSearching (λ q x a r. F.step q x a r) capacity owner
        (seen seat.old) call visit.old result (seen seat.new) visit.new }
{
    match call.stage {
        FindStage::LoadsCell { index, found } => {
            pass_over::<F>(seat, capacity, index, found, owner)
        }
        FindStage::Asks { index, .. } => {
            let answer = hear(visit, index);
            call.take(&owner, &mut (), answer)
        }
    }
}

/// Calls the closure with indices of the owner, and returns how many it visited.
fn find_all<F: FnMut(usize) -> CallbackProgression>(
    seat: &mut Seat,
    capacity: u32,
    owner: OwnerId,
    visit: &mut F,
) -> usize
    requires ready { IsReady capacity seat.old }
    requires places { 0 < capacity }
    requires asks { TakesPlaces F.pre (λ p x q. F.step p x Continue q) capacity visit.old }
    ensures stays { StaysAtBoard seat.old seat.new }
    ensures ends { HasEnded (λ p x a q. F.step p x a q) capacity owner
        (seen seat.old) visit.old result (seen seat.new) visit.new }
{
    let mut call = Find::new(capacity);
    loop {
        match find_next(seat, capacity, call, owner, visit) {
            After::GoOn(next) => call = next,
            After::Done(found) => return found,
        }
    }
}

impl RobustUniqueIndexSet {
    /// Calls `visit` with indices of `owner` until it returns `Stop`, and returns how many it visited. They ascend, each
    /// at most once and below the capacity. Each had the owner at a moment of the call, and each that has him
    /// through the whole call is visited, up to a `Stop`. Do not release what it visits: it may be given back, or
    /// its acquire be pending.
    ///
    /// At most capacity + 1 atomic steps. After `find` of the Rust crate.
    pub fn find<F: FnMut(usize) -> CallbackProgression>(
        &self,
        owner: OwnerId,
        visit: &mut F,
        pass: &mut Pass,
    ) -> usize
        requires pass { IsPassOf self.now pass.old }
        requires indices { TakesPlaces F.pre (λ p x q. F.step p x Continue q)
            (capacity_of self.now) visit.old }
        ensures same { LeavesPass (capacity_of self.now + 1) pass.old pass.new }
        ensures found { HasSearched (λ p x a q. F.step p x a q) (capacity_of self.now) owner
            visit.old result visit.new (view pass.old) (view pass.new) }
        ensures steps { TakesAtMost (capacity_of self.now + 1) (view pass.old) (view pass.new) }
    {
        let _ = self.is_locked(pass);
        find_all(&mut pass.seated, pass.capacity, owner, visit)
    }
}
