//! The recovery of a container: it frees the indices of an owner whom the caller takes for dead. It asks
//! nothing of a container that is locked at first, and ends if it meets the lock. In mode
//! `LockIfLastIndex` it locks the container if no index has an owner after a free. The value that it asks
//! about can be another owner's, who lives: if another call freed the index, or a remove has not hidden
//! its value yet (docs/MISTAKES.md).
ghost use Rattle.std.specs.Prelude.{◌≡◌, ◌+◌, ◌<◌, ℕ, false, []};
ghost use Rattle.steps.specs.Container.Recover.{first_recover};
ghost use Rattle.steps.specs.Copied.{value_in};
ghost use Rattle.steps.specs.declared.ask.Op.TheVariants.{Load};
ghost use Rattle.model.specs.Coding.{coding_by};
ghost use Rattle.model.specs.declared.turn.Kind.TheVariants as kinds;
ghost use Rattle.model.specs.Families.Indices.Reading.{is_locked};
ghost use Rattle.model.specs.Families.Queues.Calls.{fresh_cell};
ghost use Rattle.history.specs.History.{IsMachine};
ghost use Rattle.threaded.specs.Driver.{OwesAsk};
ghost use Rattle.threaded.specs.Seats.{seen, table_of, key_of, IsSame};
ghost use Rattle.lock_free_owners.specs.Container.Questions.{TakesValues};
ghost use Rattle.lock_free_owners.specs.Container.Calls.{KeepsPass, RecoverDone};
ghost use Rattle.lock_free_owners.specs.Container.RecoverTurns.{IsRecovered, RecoverAt, RecoverMay, RecoverGoes};
ghost use Rattle.lock_free_owners.specs.Container.RecoverTurns.{RecoverTells, RecoverTurns, RecoverAsks, RecoverMoves};
ghost use Rattle.lock_free_owners.specs.Container.RecoverTurns.{at_cell, RecoverPasses, HasPassed, IsWithin, PassesFrom};
ghost use Rattle.lock_free_owners.specs.Container.Steps.{RecoverTakes};
ghost use Rattle.lock_free_owners.specs.Container.Turns.{IsBoard, IsReady, StaysAtBoard};
ghost use Rattle.lock_free_owners.specs.Container.Names.{view, history, capacity_of, IsPassOf};

use super::rule::Seat;
use super::{Container, OwnerId, Pass};
use history::view::View;
use std::marker::{Brand, PhantomData};
use std::sync::Wait;
use steps::ask::After;
use steps::container::recover::{DeadOwner, Recover, RecoverStage};
use steps::copied::Copied;
use steps::indices::enums::{ReleaseMode, ReleaseState};
use steps::indices::robust::parts::FIRST_CELL;
use steps::routine::Routine;
use steps::words::Words;
use threaded::driver::rule::Tells;

/// Takes one step of the recovery on the words of the table.
#[inline(always)]
fn step_recover<T: Words>(
    seat: &mut Seat<T>,
    call: Recover<T, Copied>,
    given: DeadOwner,
    room: &mut Copied,
) -> After<Recover<T, Copied>, ReleaseState>
    requires board { IsBoard T.WORDS seat.old }
    requires at { RecoverMay (coding_by T.Words) given (seen seat.old) call room.old }
    ensures stays { StaysAtBoard T.WORDS seat.old seat.new }
    ensures goes { RecoverGoes (coding_by T.Words) given (seen seat.old) call room.old
        result room.new (seen seat.new) }
{
    seat.step_telling::<Brand, Recover<T, Copied>>(call, &given, room)
}

/// Loads the cell of an index. The caller picks by M what the load tells. The parameters with `_`
/// are for the proof alone.
#[inline(always)]
fn load_for<T: Words, M: Tells<View<T>>>(
    seat: &mut Seat<T>,
    _capacity: u32,
    cell: usize,
    _given: &DeadOwner,
    _room: &Copied,
) -> u64
    requires owes { OwesAsk (λ (v : View T). v.asked)
        (IsMachine (coding_by T.Words) kinds.Container (key_of seat.old))
        (table_of seat.old).words (table_of seat.old).slots seat.old.seat.id M.told (1 + cell) Load seat.old.seat.me }
    requires within { cell < _capacity }
    requires capacity { (v : View T) (n : ℕ) (w : View T) → M.told v n w → w.capacity ≡ v.capacity }
    ensures same { IsSame seat.old seat.new }
    ensures loaded { M.told (seen seat.old) result (seen seat.new) }
{
    seat.look::<M>(FIRST_CELL + cell)
}

/// Takes the step of a recovery that stands at this cell, and returns the cell's word. The caller changes the
/// stage. The index is a `usize`, so that no iteration of a loop has to widen it.
#[inline(always)]
fn load_cell<T: Words>(
    seat: &mut Seat<T>,
    capacity: u32,
    cell: usize,
    given: &DeadOwner,
    room: &Copied,
) -> u64
    requires board { IsBoard T.WORDS seat.old }
    requires within { cell < capacity }
    requires at { RecoverMay (coding_by T.Words) given.now (seen seat.old)
        (at_cell capacity cell) room.now }
    ensures stays { StaysAtBoard T.WORDS seat.old seat.new }
    ensures goes { RecoverTells (coding_by T.Words) given.now (at_cell capacity cell) room.now
        (seen seat.old) result (seen seat.new) }
{
    load_for::<T, Brand>(seat, capacity, cell, given, room)
}

/// Takes the steps of a recovery over cells that are not the owner's, from the cell `first` on. The loop
/// carries only the index; a `Recover` is made where it ends.
#[inline(always)]
fn pass_over<T: Words>(
    seat: &mut Seat<T>,
    capacity: u32,
    first: u32,
    given: &DeadOwner,
    room: &Copied,
) -> Recover<T, Copied>
    requires board { IsBoard T.WORDS seat.old }
    requires within { first < capacity }
    requires at { RecoverMay (coding_by T.Words) given.now (seen seat.old)
        (at_cell capacity first) room.now }
    ensures stays { StaysAtBoard T.WORDS seat.old seat.new }
    ensures goes { RecoverPasses (coding_by T.Words) given.now (seen seat.old)
        (at_cell capacity first) room.now result (seen seat.new) }
    ensures passed { HasPassed capacity first result }
{
    let owner = given.owner.value();
    let mut cell = first as usize;
    'cells: loop {
        let found = load_cell(seat, capacity, cell, given, room);
        if found == owner {
            return at_stage(capacity, RecoverStage::LoadsCount { index: cell as u32 });
        }
        cell = cell + 1;
        if cell >= capacity as usize {
            return at_stage(capacity, RecoverStage::LoadsCounterAgain);
        }
    }
}

/// Takes the steps over cells that are not the owner's if the recovery stands at a cell. At any other stage
/// it returns the recovery unchanged.
#[inline(always)]
fn pass_others<T: Words>(
    seat: &mut Seat<T>,
    call: Recover<T, Copied>,
    given: &DeadOwner,
    room: &Copied,
) -> Recover<T, Copied>
    requires board { IsBoard T.WORDS seat.old }
    requires within { IsWithin call.capacity call.stage }
    requires at { RecoverMay (coding_by T.Words) given.now (seen seat.old) call room.now }
    ensures stays { StaysAtBoard T.WORDS seat.old seat.new }
    ensures goes { RecoverPasses (coding_by T.Words) given.now (seen seat.old) call room.now result
        (seen seat.new) }
    ensures passed { PassesFrom call call.stage result }
{
    match call.stage {
        RecoverStage::LoadsCell { index } => pass_over(seat, call.capacity, index, given, room),
        _ => call,
    }
}

/// Returns a recovery that stands at this stage.
#[inline(always)]
fn at_stage<T: Words>(capacity: u32, stage: RecoverStage) -> Recover<T, Copied>
    ensures { result ≡ record { capacity = capacity; stage = stage; of = record {} } }
{
    Recover {
        capacity,
        stage,
        of: PhantomData,
    }
}

/// Takes one step of the recovery, or asks the closure about the copied value where it
/// stands at its question.
#[inline(always)]
fn recover_next<T: Words, F: FnMut(T) -> bool>(
    seat: &mut Seat<T>,
    call: Recover<T, Copied>,
    given: DeadOwner,
    room: &mut Copied,
    predicate: &mut F,
) -> After<Recover<T, Copied>, ReleaseState>
    requires board { IsBoard T.WORDS seat.old }
    requires at { RecoverMay (coding_by T.Words) given (seen seat.old) call room.old }
    requires asks { RecoverAsks F.pre call.stage (value_in T.value_of T.WORDS room.old.words) predicate.old }
    ensures stays { StaysAtBoard T.WORDS seat.old seat.new }
    ensures turns { RecoverTurns (coding_by T.Words) given call.stage (seen seat.old) call
        room.old result room.new (seen seat.new) }
    ensures moves { RecoverMoves (λ p x b q. F.step p x b q) T.WORDS call given call.stage
        (value_in T.value_of T.WORDS room.old.words) predicate.old result predicate.new }
{
    match call.stage {
        RecoverStage::LoadsCounter => step_recover(seat, call, given, room),
        RecoverStage::LoadsCell { .. } => step_recover(seat, call, given, room),
        RecoverStage::LoadsCount { .. } => step_recover(seat, call, given, room),
        RecoverStage::LoadsWord { .. } => step_recover(seat, call, given, room),
        RecoverStage::ChecksCount { .. } => step_recover(seat, call, given, room),
        RecoverStage::Asks { .. } => {
            let yes = ask(predicate, Recover::<T, Copied>::value(&given, room));
            call.take(&given, room, if yes { 1 } else { 0 })
        }
        RecoverStage::EmptiesCell { .. } => step_recover(seat, call, given, room),
        RecoverStage::Hides { .. } => step_recover(seat, call, given, room),
        RecoverStage::Raises { .. } => step_recover(seat, call, given, room),
        RecoverStage::Locks { .. } => step_recover(seat, call, given, room),
        RecoverStage::LoadsCounterAgain => step_recover(seat, call, given, room),
        RecoverStage::AddsChange { .. } => step_recover(seat, call, given, room),
    }
}

/// Asks the closure about the value.
#[inline(always)]
fn ask<T: Words, F: FnMut(T) -> bool>(predicate: &mut F, value: T) -> bool
    requires { F.pre predicate.old value }
    ensures { F.step predicate.old value result predicate.new }
{
    predicate(value)
}

/// Takes all steps of the recovery. It frees the indices of the owner that the closure says yes to, and those
/// without a value.
fn free_all<T: Words, F: FnMut(T) -> bool>(
    seat: &mut Seat<T>,
    rt: &impl Wait,
    capacity: u32,
    owner: OwnerId,
    mode: ReleaseMode,
    predicate: &mut F,
) -> ReleaseState
    requires ready { IsReady T.WORDS capacity seat.old }
    requires at { RecoverAt (coding_by T.Words) (record { owner = owner; mode = mode })
        (seen seat.old) (seen seat.old) (first_recover capacity) (fresh_cell, []) }
    requires questions { is_locked (seen seat.old).seen ≡ false → TakesValues F.pre
        (λ p x b q. F.step p x b q) capacity predicate.old }
    ensures stays { StaysAtBoard T.WORDS seat.old seat.new }
    ensures recovered { IsRecovered (coding_by T.Words) (λ p x b q. F.step p x b q)
        (record { owner = owner; mode = mode }) result capacity predicate.old predicate.new (seen seat.old)
        (seen seat.new) }
{
    let mut room = Copied { words: [0; 128] };
    let mut call = Recover::new(capacity);
    for _ in rt.forever() {
        let given = DeadOwner { owner, mode };
        let passed = pass_others(seat, call, &given, &room);
        let after = recover_next(seat, passed, given, &mut room, predicate);
        match after {
            After::GoOn(next) => call = next,
            After::Done(state) => return state,
        }
    }
    unreachable!()
}

impl<T: Words> Container<T> {
    /// Asks `predicate` about the value at each index of `owner`, and frees the index if told to. By ascending index, if
    /// `owner` still has it; one without a value is freed unasked. The value can be another owner's.
    ///
    /// `Locked` if locked; else `Unlocked`: it came to each index that he had through the call. Alone at most 3 and
    /// for each index 7 + `T::WORDS` steps, in mode `LockIfLastIndex` capacity + 3 more for each. After the Rust crate.
    pub fn recover<F: FnMut(T) -> bool>(
        &self,
        rt: &impl Wait,
        owner: OwnerId,
        predicate: &mut F,
        mode: ReleaseMode,
        pass: &mut Pass<T>,
    ) -> ReleaseState
        requires pass { IsPassOf self.now pass.old }
        requires questions { is_locked (history pass.old) ≡ false → TakesValues F.pre
            (λ p x b q. F.step p x b q) (capacity_of self.now) predicate.old }
        ensures same { KeepsPass pass.old pass.new }
        ensures recovered { RecoverDone (λ p x b q. F.step p x b q)
            (record { owner = owner; mode = mode }) result (capacity_of self.now) predicate.old predicate.new
            (view pass.old) (view pass.new) }
        ensures steps { RecoverTakes T.WORDS (capacity_of self.now) mode (view pass.old) (view pass.new) }
    {
        free_all(
            &mut pass.token.seated,
            rt,
            pass.token.capacity,
            owner,
            mode,
            predicate,
        )
    }
}
