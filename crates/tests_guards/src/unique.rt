//! Tries and waits at a unique index set in one thread: at a free index, at a full set and at a locked one.
ghost use Rattle.lock_free_sets.specs.UniqueIndexSet.{IsPassOf};

use lock_free_guards::splits::split_many;
use lock_free_guards::unique_index;
use lock_free_sets::mpmc::unique_index_set::{Handle, Pass, UniqueIndexSet};
use std::alloc::Global;
use std::sync::Wait;
use std::test::Fail;
use steps::indices::enums::{ReleaseState, UniqueIndexSetAcquireFailure};

/// Takes all indices. It says whether the first try got one, and whether three tries at the full set are
/// refused for want of an index. None where a call is refused before.
fn try_full(rt: &impl Wait, alloc: Global, capacity: usize) -> Option<[bool; 2]> {
    let (set, pass) = UniqueIndexSet::new(alloc, capacity).ok()?;
    let mut mine = pass;
    let other = mine.split()?;
    let Ok(index) = unique_index::acquire_within(rt, 1, &set, other) else {
        return None;
    };
    let below = (index.value() as usize) < capacity;
    let other = index.release();
    for _ in 0..capacity {
        if set.acquire_raw_index(rt, &mut mine).is_err() {
            return None;
        }
    }
    let full = match unique_index::acquire_within(rt, 3, &set, other) {
        Err((UniqueIndexSetAcquireFailure::OutOfIndices, _)) => true,
        _ => false,
    };
    Some([below, full])
}

/// Takes an index, and locks the set as it gives it back. True if the set is locked.
fn lock(rt: &impl Wait, set: &UniqueIndexSet, pass: Pass) -> bool
    requires { IsPassOf set.now pass }
{
    let Ok(index) = unique_index::acquire_waiting(rt, set, pass) else {
        return false;
    };
    let (state, _handle) = index.give_back_or_lock(rt);
    state == ReleaseState::Locked
}

/// Whether three tries at a locked set are refused because of the lock. None where the set could not be made
/// or locked, or no further pass can be counted.
fn try_locked(rt: &impl Wait, alloc: Global, capacity: usize) -> Option<bool> {
    let (set, pass) = UniqueIndexSet::new(alloc, capacity).ok()?;
    let mut mine = pass;
    let other = mine.split()?;
    if !lock(rt, &set, mine) {
        return None;
    }
    match unique_index::acquire_within(rt, 3, &set, other) {
        Err((UniqueIndexSetAcquireFailure::IsLocked, _)) => Some(true),
        _ => Some(false),
    }
}

/// Whether a wait at a locked set ends without an index. None where the set could not be made or locked, or
/// no further pass can be counted.
fn wait_locked(rt: &impl Wait, alloc: Global, capacity: usize) -> Option<bool> {
    let (set, pass) = UniqueIndexSet::new(alloc, capacity).ok()?;
    let mut mine = pass;
    let other = mine.split()?;
    if !lock(rt, &set, mine) {
        return None;
    }
    match unique_index::acquire_waiting(rt, &set, other) {
        Ok(_) => Some(false),
        Err(_) => Some(true),
    }
}

/// Splits a handle in four. True if three of the parts take the three indices of the set, and the fourth
/// finds none. None where a split or an index is refused.
fn split_in_four(rt: &impl Wait, alloc: Global) -> Option<bool> {
    let (set, pass) = UniqueIndexSet::new(alloc, 3).ok()?;
    let mut mine = set.handle(pass);
    let halves = split_many::<3, Handle<'_>>(alloc, &mut mine)?;
    let mut taken = Vec::new(alloc);
    for half in halves {
        taken.push(half.acquire(rt).ok()?).ok()?;
    }
    Some(taken.len() == 3 && mine.acquire(rt).is_err())
}

/// The parts of a handle can each take an index. If two of them were one, an index would be missing.
#[test]
fn a_handle_is_split_in_four(rt: HostRuntime) -> Result<(), Fail> {
    assert!(rt; split_in_four(&rt, rt.alloc()) == Some(true));
    Ok(())
}

/// Tries end where they have to, at four capacities: with an index, at a full set and at a locked set. A wait
/// that did not end at the lock would never end.
#[test]
fn a_unique_set_is_tried(rt: HostRuntime) -> Result<(), Fail> {
    let alloc = rt.alloc();
    for capacity in [1, 5, 64, 1000] {
        assert!(rt;
            try_full(&rt, alloc, capacity) == Some([true; 2]),
            "at {capacity}"
        );
        assert!(rt;
            try_locked(&rt, alloc, capacity) == Some(true),
            "at {capacity}"
        );
        assert!(rt;
            wait_locked(&rt, alloc, capacity) == Some(true),
            "at {capacity}"
        );
    }
    Ok(())
}
