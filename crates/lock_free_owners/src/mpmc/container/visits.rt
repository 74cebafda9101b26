//! The find of a container, which visits the values of an owner. If an answer ends it, a `Stop` or the one at
//! the last index, it rests: its end enters the history with the first step of the pass's next call or of a
//! join, before that step. Each copy is whole in a well-formed faithful history of few turns (`laws`), and of
//! an earlier owner if his remove stopped before it hid the value.
ghost use Rattle.std.specs.Prelude.{◌≡◌, ◌+◌, ◌<◌, ℕ, List, []};
ghost use Rattle.steps.specs.Container.Find.{first_find};
ghost use Rattle.steps.specs.Copied.{value_in};
ghost use Rattle.steps.specs.declared.ask.Op.TheVariants.{Load};
ghost use Rattle.model.specs.Coding.{coding_by};
ghost use Rattle.model.specs.Families.Queues.Calls.{fresh_cell};
ghost use Rattle.model.specs.declared.turn.Kind.TheVariants as kinds;
ghost use Rattle.threaded.specs.Driver.{OwesAsk};
ghost use Rattle.threaded.specs.Seats.{seen, table_of, key_of, IsSame};
ghost use Rattle.history.specs.History.{IsMachine};
ghost use Rattle.history.specs.Steps.{TakesAtMost};
ghost use Rattle.lock_free_owners.specs.Container.Callable.{Visit, TakesVisits, HasFound};
ghost use Rattle.lock_free_owners.specs.Container.Calls.{FindKeepsPass};
ghost use Rattle.lock_free_owners.specs.Container.FindContract.{HasSearched, IsSearched};
ghost use Rattle.lock_free_owners.specs.Container.FindTurns.{FindAt, FindMay, FindTells, FindGoes, FindTurns, IsAtWord};
ghost use Rattle.lock_free_owners.specs.Container.FindTurns.{at_cell, FindPasses, HasPassed, IsWithin, PassesFrom};
ghost use Rattle.lock_free_owners.specs.Container.Steps.{FindTakes};
ghost use Rattle.lock_free_owners.specs.Container.Turns.{IsBoard, IsReady, StaysAtBoard};
ghost use Rattle.lock_free_owners.specs.Container.Visits.{IsNamed, FindAsks, FindMoves};
ghost use Rattle.lock_free_owners.specs.Container.Names.{view, capacity_of, IsPassOf, IsHandleFor};

use super::rule::Seat;
use super::{CallbackProgression, Container, ContainerHandle, OwnerId, Pass};
use history::view::View;
use std::marker::{Brand, PhantomData};
use steps::ask::After;
use steps::container::find::{Find, FindStage};
use steps::copied::Copied;
use steps::indices::robust::parts::FIRST_CELL;
use steps::routine::Routine;
use steps::words::Words;
use threaded::driver::rule::Tells;

/// Takes one step of the find on the words of the table.
#[inline(always)]
fn step_find<T: Words>(
    seat: &mut Seat<T>,
    call: Find<T, Copied>,
    owner: OwnerId,
    room: &mut Copied,
) -> After<Find<T, Copied>, usize>
    requires board { IsBoard T.WORDS seat.old }
    requires at { FindMay (coding_by T.Words) owner (seen seat.old) call room.old }
    requires word { IsAtWord call.stage }
    ensures stays { StaysAtBoard T.WORDS seat.old seat.new }
    ensures goes { FindGoes (coding_by T.Words) owner (seen seat.old) call room.old
        result room.new (seen seat.new) }
{
    seat.step_telling::<Brand, Find<T, Copied>>(call, &owner, room)
}

/// Loads the cell of an index. The caller picks by M what the load tells. The parameters with `_`
/// are for the proof alone.
#[inline(always)]
fn load_for<T: Words, M: Tells<View<T>>>(
    seat: &mut Seat<T>,
    _capacity: u32,
    cell: usize,
    _found: usize,
    _owner: OwnerId,
    _room: &Copied,
) -> u64
    requires owes { OwesAsk (λ (v : View T). v.asked)
        (IsMachine (coding_by T.Words) kinds.Container (key_of seat.old))
        (table_of seat.old).words (table_of seat.old).slots seat.old.seat.id M.told (1 + cell) Load seat.old.seat.me }
    requires within { cell < _capacity }
    requires capacity { (v : View T) (n : ℕ) (w : View T) → M.told v n w → w.capacity ≡ v.capacity }
    ensures same { IsSame seat.old seat.new }
    ensures loaded { M.told (seen seat.old) result (seen seat.new) }
{
    seat.look::<M>(FIRST_CELL + cell)
}

/// Takes the step of a find that stands at this cell, and returns the cell's word. The caller changes the
/// stage. The index is a `usize`, so that no iteration of a loop has to widen it.
#[inline(always)]
fn load_cell<T: Words>(
    seat: &mut Seat<T>,
    capacity: u32,
    cell: usize,
    found: usize,
    owner: OwnerId,
    room: &Copied,
) -> u64
    requires board { IsBoard T.WORDS seat.old }
    requires within { cell < capacity }
    requires at { FindMay (coding_by T.Words) owner (seen seat.old)
        (at_cell capacity cell found) room.now }
    ensures stays { StaysAtBoard T.WORDS seat.old seat.new }
    ensures goes { FindTells (coding_by T.Words) owner (at_cell capacity cell found) room.now
        (seen seat.old) result (seen seat.new) }
    ensures steps { TakesAtMost 1 (seen seat.old) (seen seat.new) }
{
    load_for::<T, Brand>(seat, capacity, cell, found, owner, room)
}

/// Returns a find that stands at this stage.
#[inline(always)]
fn at_stage<T: Words>(capacity: u32, stage: FindStage) -> Find<T, Copied>
    ensures { result ≡ record { capacity = capacity; stage = stage; of = record {} } }
{
    Find {
        capacity,
        stage,
        of: PhantomData,
    }
}

/// Takes the steps of a find over cells that are not the owner's, from the cell `first` on. The loop carries
/// only the index; a `Find` is made where it ends.
#[inline(always)]
fn pass_over<T: Words>(
    seat: &mut Seat<T>,
    capacity: u32,
    first: u32,
    found: usize,
    owner: OwnerId,
    room: &Copied,
) -> After<Find<T, Copied>, usize>
    requires board { IsBoard T.WORDS seat.old }
    requires within { first < capacity }
    requires at { FindMay (coding_by T.Words) owner (seen seat.old)
        (at_cell capacity first found) room.now }
    ensures stays { StaysAtBoard T.WORDS seat.old seat.new }
    ensures goes { FindPasses (coding_by T.Words) owner (seen seat.old)
        (at_cell capacity first found) room.now result (seen seat.new) }
    ensures passed { HasPassed capacity first found result (seen seat.old) (seen seat.new) }
{
    let number = owner.value();
    let mut cell = first as usize;
    'cells: loop {
        let stands = load_cell(seat, capacity, cell, found, owner, room);
        if stands == number {
            return After::GoOn(at_stage(
                capacity,
                FindStage::LoadsCount {
                    index: cell as u32,
                    found: found.wrapping_add(1),
                },
            ));
        }
        cell = cell + 1;
        if cell >= capacity as usize {
            return After::Done(found);
        }
    }
}

/// Takes the steps over cells that are not the owner's if the find stands at a cell. At any other stage it
/// returns the find unchanged.
#[inline(always)]
fn pass_others<T: Words>(
    seat: &mut Seat<T>,
    call: Find<T, Copied>,
    owner: OwnerId,
    room: &Copied,
) -> After<Find<T, Copied>, usize>
    requires board { IsBoard T.WORDS seat.old }
    requires within { IsWithin call.capacity call.stage }
    requires at { FindMay (coding_by T.Words) owner (seen seat.old) call room.now }
    ensures stays { StaysAtBoard T.WORDS seat.old seat.new }
    ensures goes { FindPasses (coding_by T.Words) owner (seen seat.old) call room.now result
        (seen seat.new) }
    ensures passed { PassesFrom call call.stage result (seen seat.old) (seen seat.new) }
{
    match call.stage {
        FindStage::LoadsCell { index, found } => {
            pass_over(seat, call.capacity, index, found, owner, room)
        }
        _ => After::GoOn(call),
    }
}

/// Takes one step of the find, or calls the closure with the copied value where it stands at its question.
#[inline(always)]
fn find_next<T: Words, F: FnMut(T, ContainerHandle) -> CallbackProgression>(
    seat: &mut Seat<T>,
    call: Find<T, Copied>,
    owner: OwnerId,
    id: u64,
    room: &mut Copied,
    visit: &mut F,
) -> After<Find<T, Copied>, usize>
    requires board { IsBoard T.WORDS seat.old }
    requires at { FindMay (coding_by T.Words) owner (seen seat.old) call room.old }
    requires asks { FindAsks F.pre owner id call.stage (value_in T.value_of T.WORDS room.old.words) visit.old }
    ensures stays { StaysAtBoard T.WORDS seat.old seat.new }
    ensures turns { FindTurns (coding_by T.Words) owner call.stage (seen seat.old) call
        room.old result room.new (seen seat.new) }
    ensures moves { FindMoves (λ p x h a q. F.step p x h a q) T.WORDS id call owner call.stage
        (value_in T.value_of T.WORDS room.old.words) visit.old result visit.new }
{
    match call.stage {
        FindStage::LoadsCell { .. } => step_find(seat, call, owner, room),
        FindStage::LoadsCount { .. } => step_find(seat, call, owner, room),
        FindStage::LoadsWord { .. } => step_find(seat, call, owner, room),
        FindStage::ChecksCount { .. } => step_find(seat, call, owner, room),
        FindStage::Asks { index, .. } => {
            let handle = ContainerHandle {
                index,
                owner,
                container: id,
            };
            let answer = match visit(Find::<T, Copied>::value(&owner, room), handle) {
                CallbackProgression::Continue => 1,
                CallbackProgression::Stop => 0,
            };
            call.take(&owner, room, answer)
        }
    }
}

/// Takes all steps of the find, and returns how many indices of the owner it came to.
fn find_all<T: Words, F: FnMut(T, ContainerHandle) -> CallbackProgression>(
    seat: &mut Seat<T>,
    capacity: u32,
    owner: OwnerId,
    id: u64,
    visit: &mut F,
) -> usize
    requires ready { IsReady T.WORDS capacity seat.old }
    requires places { 0 < capacity }
    requires at { FindAt (coding_by T.Words) owner (seen seat.old) (seen seat.old)
        (first_find capacity) (fresh_cell, []) }
    requires visits { TakesVisits F.pre (λ p x h a q. F.step p x h a q)
        (IsNamed capacity owner id) visit.old }
    ensures stays { StaysAtBoard T.WORDS seat.old seat.new }
    ensures searched { IsSearched (coding_by T.Words) (λ p x h a q. F.step p x h a q) capacity owner
        id result visit.old (seen seat.old) (seen seat.new) visit.new }
{
    let mut room = Copied { words: [0; 128] };
    let mut call = Find::new(capacity);
    loop {
        let passed = pass_others(seat, call, owner, &room);
        let comes = match passed {
            After::GoOn(next) => next,
            After::Done(found) => return found,
        };
        let after = find_next(seat, comes, owner, id, &mut room, visit);
        match after {
            After::GoOn(next) => call = next,
            After::Done(found) => return found,
        }
    }
}

impl<T: Words> Container<T> {
    /// Calls `visit` with a copy of each value of `owner` that it finds, and its handle, until it returns `Stop`.
    /// Returns how many indices it came to: up to a `Stop` each that he has through the whole call, and none that he
    /// has at no moment. One without a value, or whose value changes meanwhile, counts without a visit.
    ///
    /// At most 3 + `T::WORDS` atomic steps for each index. After `find` of the Rust crate, which hands out pointers.
    pub fn find<F: FnMut(T, ContainerHandle) -> CallbackProgression>(
        &self,
        owner: OwnerId,
        visit: &mut F,
        pass: &mut Pass<T>,
    ) -> usize
        requires pass { IsPassOf self.now pass.old }
        requires visits { TakesVisits F.pre (λ p x h a q. F.step p x h a q)
            (IsHandleFor self.now owner) visit.old }
        ensures same { FindKeepsPass pass.old pass.new }
        ensures found { (visits : List (Visit T)) × (bound : ℕ)
            × HasSearched (capacity_of self.now) owner result bound visits
            (view pass.old) (view pass.new)
            × HasFound (λ p x h a q. F.step p x h a q) (capacity_of self.now)
            (IsHandleFor self.now owner) visit.old result bound visits visit.new }
        ensures steps { FindTakes T.WORDS (capacity_of self.now) (view pass.old) (view pass.new) }
    {
        find_all(
            &mut pass.token.seated,
            pass.token.capacity,
            owner,
            self.id,
            visit,
        )
    }
}
