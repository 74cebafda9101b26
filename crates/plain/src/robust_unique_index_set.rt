//! The set of indices with owners of one caller.
ghost use Rattle.std.specs.Prelude.{◌≡◌, ◌<◌, ◌^◌, ◌-◌, ◌⊎◌, IsTrue, IsFalse, None, Some, IfOk, IfErr, OnOk};
ghost use Rattle.steps.specs.Enums.{capacity_refusal};
ghost use Rattle.steps.specs.declared.enums.UniqueIndexCreationError.TheVariants.{NoMemory};
ghost use Rattle.steps.specs.Objects.Owners.{Owners, opened_at, capacity, is_locked, state_of, raised, indices_of};
ghost use Rattle.steps.specs.Objects.Owners.{to_recover, borrowed, acquired, after_acquire, released, after_release};
ghost use Rattle.plain_queues.specs.Alone.{BehavesAs};
ghost use Rattle.plain.specs.Callable.{TakesIndices, HasFound, TakesQuestions, TakesFreed, HasRecovered};
ghost use Rattle.plain.specs.Robust.{owners_in, Represents};

use crate::answers::{as_answer, as_yes, index_in};
use plain_queues::drive::{Stop, drive, drive_to_stop};
use std::alloc::Global;
use std::marker::Model;
use steps::ask::{After, Question};
use steps::enums::{CallbackProgression, OwnerId, UniqueIndexCreationError, capacity_refusal};
use steps::indices::enums::{
    ReleaseMode, ReleaseState, RobustUniqueIndexSetReleaseError, UniqueIndexSetAcquireFailure,
};
use steps::indices::robust::acquire::Acquire;
use steps::indices::robust::find::Find;
use steps::indices::robust::looks::{BorrowedIndices, IsLocked};
use steps::indices::robust::parts::{COUNTER, EMPTY, FIRST_CELL};
use steps::indices::robust::recover::Recover;
use steps::indices::robust::release::{GiveBack, Release};
use steps::routine::Routine;

/// A robust index set that one caller uses: a map from index to owner, and a lock. The indices of an owner that is dead
/// are recovered. After `RobustUniqueIndexSet` of the Rust crate.
///
/// ```rust
/// let owner = OwnerId::new(7)?;
/// let mut pool = RobustUniqueIndexSet::new(rt.alloc(), 4)?;
/// assert!(rt; pool.acquire(owner).is_ok());
/// assert!(rt; pool.borrowed_indices() == 1);
/// ```
///
/// Its generation goes up with each change and with each count, up to `u64::MAX - 1`: from there on no index is handed
/// out, and the set can no longer be locked.
#[derive(Drop)]
pub struct RobustUniqueIndexSet {
    words: Vec<u64>,
    capacity: u32,
}

impl Model for RobustUniqueIndexSet {
    ghost Value = { Owners };

    ghost view = { λ s. owners_in s.words.items };

    ghost invariant = { λ s. Represents s.capacity s.words.items };
}

/// Drives an acquire for the owner to its end, over the words of a robust set.
fn acquire(
    words: &mut Vec<u64>,
    capacity: u32,
    owner: OwnerId,
) -> Result<u32, UniqueIndexSetAcquireFailure>
    requires { Represents capacity words.old.items }
    ensures { BehavesAs (Represents capacity) owners_in acquired (λ s. after_acquire s owner) words.old.items
        result words.new.items }
{
    let _ = owner.value();
    let mut room = ();
    drive(words, Acquire::new(capacity), &owner, &mut room)
}

/// Drives a release of the owner's index to its end, over the words of a robust set.
fn release(
    words: &mut Vec<u64>,
    capacity: u32,
    index: u32,
    owner: OwnerId,
    mode: ReleaseMode,
) -> Result<ReleaseState, RobustUniqueIndexSetReleaseError>
    requires fits { Represents capacity words.old.items }
    requires index { index < capacity }
    ensures { BehavesAs (Represents capacity) owners_in (λ s. released s index owner mode)
        (λ s. after_release s index owner mode) words.old.items result words.new.items }
{
    let _ = owner.value();
    let mut room = ();
    let given = GiveBack { index, owner, mode };
    drive(words, Release::new(capacity), &given, &mut room)
}

/// Counts the indices that have an owner, over the words of a robust set.
fn borrowed_indices(words: &mut Vec<u64>, capacity: u32) -> usize
    requires { Represents capacity words.old.items }
    ensures { BehavesAs (Represents capacity) owners_in borrowed raised words.old.items result
        words.new.items }
{
    let mut room = ();
    drive(words, BorrowedIndices::new(capacity), &(), &mut room)
}

/// Drives a look at the lock to its end, over the words of a robust set.
fn is_locked(words: &mut Vec<u64>, capacity: u32) -> bool
    requires { Represents capacity words.old.items }
    ensures { BehavesAs (Represents capacity) owners_in is_locked (λ s. s) words.old.items result
        words.new.items }
{
    let mut room = ();
    drive(words, IsLocked, &(), &mut room)
}

/// Calls the closure with the index.
fn visit_at<F: FnMut(usize) -> CallbackProgression>(
    visit: &mut F,
    index: usize,
) -> CallbackProgression
    requires { F.pre visit.old index }
    ensures { F.step visit.old index result visit.new }
{
    visit(index)
}

/// Drives a find of the owner's indices to its end, over the words of a robust set. It calls
/// `visit` at each question.
fn find<F: FnMut(usize) -> CallbackProgression>(
    words: &mut Vec<u64>,
    capacity: u32,
    owner: OwnerId,
    visit: &mut F,
) -> usize
    requires fits { Represents capacity words.old.items }
    requires owner { owner < 2 ^ 64 - 1 }
    requires indices { TakesIndices F.pre (λ p x a q. F.step p x a q)
        (indices_of (owners_in words.old.items) owner) visit.old }
    ensures words { words.new.items ≡ words.old.items }
    ensures found { HasFound (λ p x a q. F.step p x a q)
        (indices_of (owners_in words.old.items) owner) visit.old result visit.new }
{
    let mut call = Find::new(capacity);
    for _ in 0..u64::MAX {
        match drive_to_stop(words, call, &owner, &mut ()) {
            Stop::Ended(found) => return found,
            Stop::Asked(question, asks) => {
                let said = visit_at(visit, index_in(question));
                let answer = as_answer(said);
                match asks.take(&owner, &mut (), answer) {
                    After::GoOn(next) => call = next,
                    After::Done(found) => return found,
                }
            }
        }
    }
    unreachable!()
}

/// Asks the closure about the owner and the index.
fn ask_about<F: FnMut(OwnerId, usize) -> bool>(
    predicate: &mut F,
    owner: OwnerId,
    index: usize,
) -> bool
    requires { F.pre predicate.old owner index }
    ensures { F.step predicate.old owner index result predicate.new }
{
    predicate(owner, index)
}

/// Calls the closure with the owner and the index, if the answer was a yes.
fn tell_where<S: FnMut(OwnerId, usize)>(recovered: &mut S, yes: bool, owner: OwnerId, index: usize)
    requires { IsTrue yes → S.pre recovered.old owner index }
    ensures told { IsTrue yes → S.step recovered.old owner index tt recovered.new }
    ensures passed { IsFalse yes → recovered.new ≡ recovered.old }
{
    if yes {
        recovered(owner, index);
    }
}

/// Drives a recovery to its end, over the words of a robust set. It calls the closures at each question.
fn recover<F: FnMut(OwnerId, usize) -> bool, S: FnMut(OwnerId, usize)>(
    words: &mut Vec<u64>,
    capacity: u32,
    mode: ReleaseMode,
    predicate: &mut F,
    recovered: &mut S,
) -> ReleaseState
    requires fits { Represents capacity words.old.items }
    requires questions { TakesQuestions F.pre (λ p o i b q. F.step p o i b q)
        (to_recover (owners_in words.old.items)) predicate.old }
    requires freed { TakesFreed (λ p o i b q. F.step p o i b q) S.pre
        (λ s o i t. S.step s o i tt t) (to_recover (owners_in words.old.items)) predicate.old
        recovered.old }
    ensures fits { Represents capacity words.new.items }
    ensures state { result ≡ state_of (owners_in words.new.items) }
    ensures calls { HasRecovered (λ p o i b q. F.step p o i b q) (λ s o i t. S.step s o i tt t)
        mode (owners_in words.old.items) (owners_in words.new.items) predicate.old recovered.old
        predicate.new recovered.new }
{
    let mut call = Recover::new(capacity);
    for _ in 0..u64::MAX {
        match drive_to_stop(words, call, &mode, &mut ()) {
            Stop::Ended(state) => return state,
            Stop::Asked(question, asks) => match question {
                Question::Owned(owner, index) => {
                    let yes = ask_about(predicate, owner, index);
                    tell_where(recovered, yes, owner, index);
                    let answer = as_yes(yes);
                    match asks.take(&mode, &mut (), answer) {
                        After::GoOn(next) => call = next,
                        After::Done(_) => unreachable!(),
                    }
                }
                Question::Index(_) => unreachable!(),
                Question::Value(..) => unreachable!(),
            },
        }
    }
    unreachable!()
}

impl RobustUniqueIndexSet {
    /// Takes the lowest index without an owner for `owner`, and returns it. Refused, without a change, are
    ///
    /// - `IsLocked` if the set is locked, and
    /// - `OutOfIndices` if each index has an owner or the generation is at its end.
    pub fn acquire(&mut self, owner: OwnerId) -> Result<usize, UniqueIndexSetAcquireFailure>
        ensures answer { result ≡ acquired self.old }
        ensures map { self.new ≡ after_acquire self.old owner }
    {
        match acquire(&mut self.words, self.capacity, owner) {
            Ok(index) => Ok(index as usize),
            Err(failure) => Err(failure),
        }
    }

    /// Gives `index` back, where it is that of `owner`. Else `IndexIsNotOwnedByProvidedOwner`, and nothing changes.
    /// In mode `LockIfLastIndex` it locks the set where no index has an owner then, unless its generation comes to
    /// its end.
    pub fn release(
        &mut self,
        index: usize,
        owner: OwnerId,
        mode: ReleaseMode,
    ) -> Result<ReleaseState, RobustUniqueIndexSetReleaseError>
        requires { index < capacity self.old }
        ensures answer { result ≡ released self.old index owner mode }
        ensures map { self.new ≡ after_release self.old index owner mode }
    {
        release(&mut self.words, self.capacity, index as u32, owner, mode)
    }

    /// Calls `visit` with the indices of `owner`, ascending, until `visit` returns `Stop`. Returns how many it came to,
    /// the one on which it was told to stop among them.
    pub fn find<F: FnMut(usize) -> CallbackProgression>(
        &mut self,
        owner: OwnerId,
        visit: &mut F,
    ) -> usize
        requires { TakesIndices F.pre (λ p x a q. F.step p x a q) (indices_of self.old owner)
            visit.old }
        ensures found { HasFound (λ p x a q. F.step p x a q) (indices_of self.old owner) visit.old
            result visit.new }
        ensures map { self.new ≡ self.old }
    {
        let _ = owner.value();
        find(&mut self.words, self.capacity, owner, visit)
    }

    /// Asks `predicate` about each index that has an owner, ascending, and gives it back if the answer is true. Then it
    /// calls `recover_success`. In mode `LockIfLastIndex` it locks the set if no index has an owner after one was given
    /// back, unless its generation comes to its end. Returns `Locked` if the set is locked then, else `Unlocked`. Of a
    /// locked set it asks nothing.
    pub fn recover<F: FnMut(OwnerId, usize) -> bool, S: FnMut(OwnerId, usize)>(
        &mut self,
        mode: ReleaseMode,
        predicate: &mut F,
        recover_success: &mut S,
    ) -> ReleaseState
        requires questions { TakesQuestions F.pre (λ p o i b q. F.step p o i b q)
            (to_recover self.old) predicate.old }
        requires freed { TakesFreed (λ p o i b q. F.step p o i b q) S.pre
            (λ s o i t. S.step s o i tt t) (to_recover self.old) predicate.old recover_success.old }
        ensures answer { result ≡ state_of self.new }
        ensures calls { HasRecovered (λ p o i b q. F.step p o i b q) (λ s o i t. S.step s o i tt t)
            mode self.old self.new predicate.old recover_success.old predicate.new
            recover_success.new }
    {
        recover(
            &mut self.words,
            self.capacity,
            mode,
            predicate,
            recover_success,
        )
    }

    /// Returns how many indices have an owner, or 0 if the set is locked. It raises the generation.
    pub fn borrowed_indices(&mut self) -> usize
        ensures answer { result ≡ borrowed self.old }
        ensures map { self.new ≡ raised self.old }
    {
        borrowed_indices(&mut self.words, self.capacity)
    }

    /// Returns whether the set is locked.
    pub fn is_locked(&mut self) -> bool
        ensures answer { result ≡ is_locked self.old }
        ensures map { self.new ≡ self.old }
    {
        is_locked(&mut self.words, self.capacity)
    }

    /// Returns the capacity that it was made with.
    pub fn capacity(&self) -> usize
        ensures { result ≡ capacity self.now }
    {
        self.capacity as usize
    }

    /// Makes a set of the indices below `capacity`, none of which has an owner, with generation 0.
    ///
    /// Refused are, in this order, a capacity above 2^32 - 1 (`ProvidedCapacityGreaterThanMaxCapacity`), 0
    /// (`ProvidedCapacityIsZero`) and memory (`NoMemory`).
    pub fn new(
        alloc: Global,
        capacity: usize,
    ) -> Result<RobustUniqueIndexSet, UniqueIndexCreationError>
        ensures map { IfOk result (λ s. s ≡ opened_at capacity 0) }
        ensures admitted { OnOk result (capacity_refusal 1 (2 ^ 32 - 1) capacity ≡ None) }
        ensures refused { IfErr result (λ e. (capacity_refusal 1 (2 ^ 32 - 1) capacity ≡ Some e)
            ⊎ (capacity_refusal 1 (2 ^ 32 - 1) capacity ≡ None) × (e ≡ NoMemory)) }
    {
        RobustUniqueIndexSet::new_at(alloc, capacity, 0)
    }

    /// Makes a set of this generation, which is locked for `u64::MAX`. It is refused where `new` is.
    pub fn new_at(
        alloc: Global,
        capacity: usize,
        generation: u64,
    ) -> Result<RobustUniqueIndexSet, UniqueIndexCreationError>
        ensures map { IfOk result (λ s. s ≡ opened_at capacity generation) }
        ensures admitted { OnOk result (capacity_refusal 1 (2 ^ 32 - 1) capacity ≡ None) }
        ensures refused { IfErr result (λ e. (capacity_refusal 1 (2 ^ 32 - 1) capacity ≡ Some e)
            ⊎ (capacity_refusal 1 (2 ^ 32 - 1) capacity ≡ None) × (e ≡ NoMemory)) }
    {
        if let Some(error) = capacity_refusal(capacity as u64, 1, u32::MAX as u64) {
            return Err(error);
        }
        let mut words = match Vec::from_elem(alloc, EMPTY, FIRST_CELL + capacity) {
            Ok(words) => words,
            Err(_) => return Err(UniqueIndexCreationError::NoMemory),
        };
        words[COUNTER] = generation;
        Ok(RobustUniqueIndexSet {
            words,
            capacity: capacity as u32,
        })
    }
}
