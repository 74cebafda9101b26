//! Two threads that take indices of one set, and wait for them. A thread that waits gets what the
//! other one gives back.
ghost use Rattle.lock_free_owners.specs.RobustUniqueIndexSet as robust;
ghost use Rattle.lock_free_sets.specs.UniqueIndexSet as unique;

use crate::user::User;
use lock_free_guards::robust_index::RobustIndex;
use lock_free_guards::unique_index;
use lock_free_owners::mpmc::robust_unique_index_set::{OwnerId, Pass, RobustUniqueIndexSet};
use lock_free_sets::mpmc::unique_index_set;
use lock_free_sets::mpmc::unique_index_set::UniqueIndexSet;
use std::alloc::Global;
use std::sync::Wait;
use std::sync::atomic::{AtomicU64, Ordering};
use std::test::Fail;
use std::thread;
use std::thread::Threads;
use steps::indices::enums::ReleaseMode;

/// How often each thread takes an index.
const TIMES: u64 = 1000;

/// Notes that a thread has the index, and then that it has it no more. False if another thread
/// has it between the two.
fn is_alone(flags: &[AtomicU64], index: usize) -> bool {
    match flags.get(index) {
        Some(flag) => { flag.swap(1, Ordering::SeqCst) == 0 && flag.swap(0, Ordering::SeqCst) == 1 }
        None => false,
    }
}

/// A flag for each of `number` indices, none of which anybody has.
fn make_flags(alloc: Global, number: usize) -> Option<Vec<AtomicU64>> {
    let mut flags = Vec::new(alloc);
    for _ in 0..number {
        flags.push(AtomicU64::new(0)).ok()?;
    }
    Some(flags)
}

/// Takes an index of a robust set as soon as there is one, and gives it back, `TIMES` times. It returns how
/// often no other thread had that index; the thread stops early where a wait ends without an index.
fn use_robust<R: Wait>(
    rt: &R,
    set: &RobustUniqueIndexSet,
    mut pass: Pass,
    owner: OwnerId,
    flags: &[AtomicU64],
) -> u64
    requires { robust.IsPassOf set.now pass }
{
    let mut alone = 0u64;
    for _ in 0..TIMES {
        match RobustIndex::acquire_waiting(rt, set, pass, owner) {
            Ok(index) => {
                alone = alone.wrapping_add(is_alone(flags, index.value()) as u64);
                let (_, back) = index.release(ReleaseMode::Default);
                pass = back;
            }
            Err(_) => return alone,
        }
    }
    alone
}

/// Takes an index of a unique index set as soon as there is one, and gives it back, `TIMES` times. It returns
/// how often no other thread had that index; the thread stops early where a wait ends without an index.
fn use_unique(
    rt: &impl Wait,
    set: &UniqueIndexSet,
    mut pass: unique_index_set::Pass,
    flags: &[AtomicU64],
) -> u64
    requires { unique.IsPassOf set.now pass }
{
    let mut alone = 0u64;
    for _ in 0..TIMES {
        match unique_index::acquire_waiting(rt, set, pass) {
            Ok(index) => {
                alone = alone.wrapping_add(is_alone(flags, index.value() as usize) as u64);
                pass = index.release();
            }
            Err(_) => return alone,
        }
    }
    alone
}

/// Two threads take indices of one robust set. It returns for each how often no other thread had what it
/// took. None where memory or a pass is refused.
fn use_robust_by_two<R: Threads + Wait + Sync>(
    rt: &R,
    alloc: Global,
    capacity: usize,
) -> Option<(u64, u64)> {
    let (one, two) = (OwnerId::new(1).ok()?, OwnerId::new(2).ok()?);
    let (set, mut pass) = RobustUniqueIndexSet::new(alloc, capacity).ok()?;
    let other = pass.split()?;
    let flags = make_flags(alloc, capacity)?;
    let shared = &set;
    let flags = flags.as_slice();
    Some(thread::join(
        rt,
        move || use_robust(rt, shared, pass, one, flags),
        move || use_robust(rt, shared, other, two, flags),
    ))
}

/// Two threads take indices of one unique index set. It returns for each how often no other thread had what
/// it took. None where memory or a pass is refused.
fn use_unique_by_two<R: Threads + Wait + Sync>(
    rt: &R,
    alloc: Global,
    capacity: usize,
) -> Option<(u64, u64)> {
    let (set, mut pass) = UniqueIndexSet::new(alloc, capacity).ok()?;
    let other = pass.split()?;
    let flags = make_flags(alloc, capacity)?;
    let shared = &set;
    let flags = flags.as_slice();
    Some(thread::join(
        rt,
        move || use_unique(rt, shared, pass, flags),
        move || use_unique(rt, shared, other, flags),
    ))
}

/// One thread waits for the only index, which another thread holds and then drops. It returns the index that
/// the first one got.
fn wait_for_other<'a, R: Threads + Wait + Sync>(
    rt: &'a R,
    set: &'a RobustUniqueIndexSet,
    pass: Pass,
) -> Option<usize>
    requires { robust.IsPassOf set.now pass }
{
    let (one, two) = (OwnerId::new(1).ok()?, OwnerId::new(2).ok()?);
    let mut user = User::new(set, pass);
    let index = user.take(rt, one)?;
    let waits = user.another()?;
    let (got, _) = thread::join(rt, move || waits.take_waiting(rt, two), move || drop(index));
    got
}

/// Two threads share sets of four capacities, and no index has two holders. A wait that misses
/// an index would not end.
#[test]
fn two_threads_share_a_set(rt: HostRuntime) -> Result<(), Fail> {
    let alloc = rt.alloc();
    let all = Some((TIMES, TIMES));
    for capacity in [1, 5, 64, 1000] {
        assert!(rt;
            use_robust_by_two(&rt, alloc, capacity) == all,
            "robust at {capacity}"
        );
        assert!(rt;
            use_unique_by_two(&rt, alloc, capacity) == all,
            "unique at {capacity}"
        );
    }
    Ok(())
}

/// A thread that waits gets the index that another one drops. If a dropped guard did not give its index back,
/// the wait would not end.
#[test]
fn who_waits_gets_what_another_drops(rt: HostRuntime) -> Result<(), Fail> {
    let (set, pass) = RobustUniqueIndexSet::new(rt.alloc(), 1)?;
    assert!(rt; wait_for_other(&rt, &set, pass) == Some(0));
    Ok(())
}
