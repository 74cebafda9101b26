//! The container of values of one caller.
ghost use Rattle.std.specs.Prelude.{◌≡◌, ◌⊎◌, ◌↔◌, IsTrue, IsFalse, not, None, IfOk, IfErr, OnOk, ◌-◌, ◌==◌, ◌^◌, Some};
ghost use Rattle.steps.specs.Enums.{capacity_refusal};
ghost use Rattle.steps.specs.declared.enums.UniqueIndexCreationError.TheVariants.{NoMemory};
ghost use Rattle.plain_queues.specs.Alone.{BehavesAs};
ghost use Rattle.plain.specs.Contents.{Contents, opened, capacity, is_locked, number, counted, added, after_add};
ghost use Rattle.plain.specs.Contents.{removed, after_remove, replaced, after_replace, contents_in, Holds};
ghost use Rattle.plain.specs.States.{snapshot_of, blank, IsStateOf, IsSettled, updated, Brought};

use plain_queues::drive::drive;
use std::alloc::Global;
use std::marker::{Model, PhantomData};
use steps::container::add::{Add, Owned};
use steps::container::enums::{ContainerAddFailure, ContainerRemoveError, ContainerStateError};
use steps::container::handle::ContainerHandle;
use steps::container::layout::total_words;
use steps::container::look::Look;
use steps::container::remove::Remove;
use steps::container::replace::{Replace, Replacement};
use steps::container::state::ContainerState;
use steps::enums::{OwnerId, UniqueIndexCreationError, capacity_refusal};
use steps::indices::enums::{ReleaseMode, ReleaseState};
use steps::indices::robust::looks::{BorrowedIndices, IsLocked};
use steps::indices::robust::parts::{COUNTER, EMPTY, FIRST_CELL};
use steps::indices::robust::release::GiveBack;
use steps::words::Words;

mod recovery;
mod visits;

/// A container that one caller uses: values, each at an index that has an owner, and a lock. After `Container` of the
/// Rust crate.
///
/// ```rust
/// let owner = OwnerId::new(7)?;
/// let mut values = Container::new(rt.alloc(), 4, 1)?;
/// let key = values.add(50u64, owner)?;
/// let state = values.get_state()?;
/// assert!(rt; state.get(key.index()) == Some(&50));
/// ```
///
/// Its generation and its lock are those of a `RobustUniqueIndexSet`. It counts its changes, modulo 2^64: each add,
/// replace and remove that is not refused is one, and each recovery, whatever it frees.
#[derive(Drop)]
pub struct Container<T: Words> {
    words: Vec<u64>,
    capacity: u32,
    id: u64,
    alloc: Global,
    of: PhantomData<T>,
}

impl<T: Words> Model for Container<T> {
    ghost Value = { Contents T };

    ghost view = { λ s. contents_in T.value_of T.WORDS s.capacity s.id s.words.items };

    ghost invariant = { λ s. Holds T.value_of T.WORDS s.capacity s.id s.words.items };
}

/// Drives an add to its end, over the words of a container.
fn add<T: Words>(
    words: &mut Vec<u64>,
    capacity: u32,
    id: u64,
    given: &Owned<T>,
) -> Result<ContainerHandle, ContainerAddFailure>
    requires { Holds T.value_of T.WORDS capacity id words.old.items }
    ensures { BehavesAs (Holds T.value_of T.WORDS capacity id) (contents_in T.value_of T.WORDS capacity id)
        (λ s. added s given.now.owner) (λ s. after_add s given.now.owner given.now.value)
        words.old.items result words.new.items }
{
    let _ = given.owner.value();
    let mut room = ();
    match drive(words, Add::<T>::new(capacity), given, &mut room) {
        Ok(index) => Ok(ContainerHandle {
            index,
            owner: given.owner,
            container: id,
        }),
        Err(failure) => Err(failure),
    }
}

/// Drives a remove to its end, over the words of the container that the handle names.
fn remove<T: Words>(
    words: &mut Vec<u64>,
    capacity: u32,
    handle: ContainerHandle,
    mode: ReleaseMode,
) -> Result<ReleaseState, ContainerRemoveError>
    requires { Holds T.value_of T.WORDS capacity handle.container words.old.items }
    ensures { BehavesAs (Holds T.value_of T.WORDS capacity handle.container)
        (contents_in T.value_of T.WORDS capacity handle.container)
        (λ s. removed s handle mode) (λ s. after_remove s handle mode)
        words.old.items result words.new.items }
{
    let _ = handle.owner.value();
    let mut room = ();
    let given = GiveBack {
        index: handle.index,
        owner: handle.owner,
        mode,
    };
    drive(
        words,
        Remove::new(capacity, handle.index),
        &given,
        &mut room,
    )
}

/// Drives a replace to its end, over the words of the container that the handle names.
fn replace<T: Words>(
    words: &mut Vec<u64>,
    capacity: u32,
    handle: ContainerHandle,
    value: T,
) -> Result<(), ContainerRemoveError>
    requires { Holds T.value_of T.WORDS capacity handle.container words.old.items }
    ensures { BehavesAs (Holds T.value_of T.WORDS capacity handle.container)
        (contents_in T.value_of T.WORDS capacity handle.container)
        (λ s. replaced s handle) (λ s. after_replace s handle value)
        words.old.items result words.new.items }
{
    let _ = handle.owner.value();
    let mut room = ();
    let given = Replacement {
        index: handle.index,
        owner: handle.owner,
        value,
    };
    drive(
        words,
        Replace::<T>::new(capacity, handle.index),
        &given,
        &mut room,
    )
}

/// Counts the indices that have an owner, over the words of a container.
fn count<T: Words>(words: &mut Vec<u64>, capacity: u32, id: u64) -> usize
    requires { Holds T.value_of T.WORDS capacity id words.old.items }
    ensures { BehavesAs (Holds T.value_of T.WORDS capacity id) (contents_in T.value_of T.WORDS capacity id) number
        counted words.old.items result words.new.items }
{
    let _ = id;
    let mut room = ();
    drive(words, BorrowedIndices::new(capacity), &(), &mut room)
}

/// Drives a look at the lock to its end, over the words of a container.
fn look<T: Words>(words: &mut Vec<u64>, capacity: u32, id: u64) -> bool
    requires { Holds T.value_of T.WORDS capacity id words.old.items }
    ensures { BehavesAs (Holds T.value_of T.WORDS capacity id) (contents_in T.value_of T.WORDS capacity id) is_locked
        (λ s. s) words.old.items result words.new.items }
{
    let _ = (id, capacity);
    let mut room = ();
    drive(words, IsLocked, &(), &mut room)
}

/// Drives a look to its end, over the words of a container. It brings `state` up to date.
fn bring_up<T: Words>(
    words: &mut Vec<u64>,
    capacity: u32,
    id: u64,
    state: &mut ContainerState<T>,
) -> bool
    requires { Holds T.value_of T.WORDS capacity id words.old.items }
    ensures words { words.new.items ≡ words.old.items }
    ensures brought { Brought (contents_in T.value_of T.WORDS capacity id words.old.items)
        state.old result state.new }
{
    let _ = id;
    if drive(
        words,
        Look::<T>::new(capacity),
        &state.seen,
        &mut state.shown,
    ) {
        state.settle();
        return true;
    }
    false
}

impl<T: Words> Container<T> {
    /// Adds `value` for `owner` at the lowest index without an owner, and returns its handle. That is a change.
    /// Refused, without a change, are
    ///
    /// - `IsLocked` if the container is locked, and
    /// - `OutOfSpace` if each index has an owner or the generation is at its end.
    pub fn add(&mut self, value: T, owner: OwnerId) -> Result<ContainerHandle, ContainerAddFailure>
        ensures answer { result ≡ added self.old owner }
        ensures map { self.new ≡ after_add self.old owner value }
    {
        let given = Owned { value, owner };
        add::<T>(&mut self.words, self.capacity, self.id, &given)
    }

    /// Removes the value of `handle`, if its owner has its index, and gives the index back. That is a change. In mode
    /// `LockIfLastIndex` it locks the container if no index has an owner then, unless its generation comes to its end.
    /// Returns `Locked` if that mode finds it locked, else `Unlocked`.
    ///
    /// `ContainerHandleNotOwnedByContainer`, without a change, if its owner has not the index, if the handle is of
    /// another container, or if its index is not below the capacity.
    pub fn remove(
        &mut self,
        handle: ContainerHandle,
        mode: ReleaseMode,
    ) -> Result<ReleaseState, ContainerRemoveError>
        ensures answer { result ≡ removed self.old handle mode }
        ensures map { self.new ≡ after_remove self.old handle mode }
    {
        if handle.container != self.id {
            return Err(ContainerRemoveError::ContainerHandleNotOwnedByContainer);
        }
        remove::<T>(&mut self.words, self.capacity, handle, mode)
    }

    /// Puts `value` in the place of that of `handle`. That is a change. It is refused where a remove of the
    /// handle would be, and nothing changes then.
    pub fn replace(&mut self, handle: ContainerHandle, value: T) -> Result<(), ContainerRemoveError>
        ensures answer { result ≡ replaced self.old handle }
        ensures map { self.new ≡ after_replace self.old handle value }
    {
        if handle.container != self.id {
            return Err(ContainerRemoveError::ContainerHandleNotOwnedByContainer);
        }
        replace::<T>(&mut self.words, self.capacity, handle, value)
    }

    /// Returns how many indices have an owner, or 0 if the container is locked. It raises the generation, and is no
    /// change.
    pub fn len(&mut self) -> usize
        ensures answer { result ≡ number self.old }
        ensures map { self.new ≡ counted self.old }
    {
        count::<T>(&mut self.words, self.capacity, self.id)
    }

    /// Returns whether `len` is 0. It raises the generation.
    pub fn is_empty(&mut self) -> bool
        ensures answer { result ≡ (number self.old == 0) }
        ensures map { self.new ≡ counted self.old }
    {
        self.len() == 0
    }

    /// Returns whether the container is locked.
    pub fn is_locked(&mut self) -> bool
        ensures answer { result ≡ is_locked self.old }
        ensures map { self.new ≡ self.old }
    {
        look::<T>(&mut self.words, self.capacity, self.id)
    }

    /// Returns a state that shows the value at each index where one stands. It shows nothing if the number of changes
    /// is 0. `NoMemory` if a state has no memory; then nothing was asked of the container.
    pub fn get_state(&mut self) -> Result<ContainerState<T>, ContainerStateError>
        ensures of { IfOk result (λ s. IsStateOf self.old s × IsSettled s) }
        ensures shows { IfOk result
            (λ s. snapshot_of s ≡ updated self.old (blank (capacity self.old))) }
        ensures map { self.new ≡ self.old }
    {
        let mut state = ContainerState::new(self.alloc, self.id, self.capacity)?;
        bring_up::<T>(&mut self.words, self.capacity, self.id, &mut state);
        Ok(state)
    }

    /// Brings a state of this container up to date, and returns whether the number of changes is another one. False if
    /// that number, counted modulo 2^64, is the one that the state has seen; it then shows what it showed. Else, of a
    /// settled state, each index under another number than the state has seen shows the value that stands there, or
    /// none. A state is settled when `get_state` has made it, and stays so.
    pub fn update_state(&mut self, state: &mut ContainerState<T>) -> bool
        requires { IsStateOf self.old state.old }
        ensures answer { result ≡ not (self.old.changes == state.old.seen.change) }
        ensures of { IsStateOf self.new state.new }
        ensures left { IsFalse result → snapshot_of state.new ≡ snapshot_of state.old }
        ensures shows { IsSettled state.old → IsSettled state.new
            × (snapshot_of state.new ≡ updated self.old (snapshot_of state.old)) }
        ensures map { self.new ≡ self.old }
    {
        bring_up::<T>(&mut self.words, self.capacity, self.id, state)
    }

    /// Returns whether it is a state of this container, by its number and its capacity.
    pub fn is_state_of(&self, state: &ContainerState<T>) -> bool
        ensures { IsTrue result ↔ IsStateOf self.now state.now }
    {
        state.is_of(self.id, self.capacity)
    }

    /// Returns the capacity that it was made with.
    pub fn capacity(&self) -> usize
        ensures { result ≡ capacity self.now }
    {
        self.capacity as usize
    }

    /// Makes a container of this capacity and number, with no value, and of generation 0. Its handles carry the number,
    /// by which it tells them from those of others.
    ///
    /// Refused are, in this order, a capacity above 2^32 - 1 (`ProvidedCapacityGreaterThanMaxCapacity`), 0
    /// (`ProvidedCapacityIsZero`) and memory (`NoMemory`).
    pub fn new(
        alloc: Global,
        capacity: usize,
        id: u64,
    ) -> Result<Container<T>, UniqueIndexCreationError>
        ensures map { IfOk result (λ s. s ≡ opened capacity id) }
        ensures admitted { OnOk result (capacity_refusal 1 (2 ^ 32 - 1) capacity ≡ None) }
        ensures refused { IfErr result (λ e. (capacity_refusal 1 (2 ^ 32 - 1) capacity ≡ Some e)
            ⊎ (capacity_refusal 1 (2 ^ 32 - 1) capacity ≡ None) × (e ≡ NoMemory)) }
    {
        if let Some(error) = capacity_refusal(capacity as u64, 1, u32::MAX as u64) {
            return Err(error);
        }
        let mut words = match Vec::from_elem(alloc, EMPTY, FIRST_CELL + capacity) {
            Ok(words) => words,
            Err(_) => return Err(UniqueIndexCreationError::NoMemory),
        };
        words[COUNTER] = 0;
        if words
            .resize(total_words(capacity as u32, T::WORDS as u8), 0)
            .is_err()
        {
            return Err(UniqueIndexCreationError::NoMemory);
        }
        Ok(Container {
            words,
            capacity: capacity as u32,
            id,
            alloc,
            of: PhantomData,
        })
    }
}
