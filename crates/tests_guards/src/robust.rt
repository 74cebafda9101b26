//! Robust sets with guards, in one thread. No clause says that a call succeeds where an index is free, what a
//! dropped guard leaves, and that a wait ends at a lock.
ghost use Rattle.lock_free_owners.specs.RobustUniqueIndexSet.{IsPassOf};

use crate::user::User;
use lock_free_guards::robust_index::RobustIndex;
use lock_free_owners::mpmc::robust_unique_index_set::{OwnerId, Pass, RobustUniqueIndexSet};
use std::alloc::Global;
use std::sync::Wait;
use std::test::Fail;
use steps::indices::enums::{
    ReleaseMode, ReleaseState, RobustUniqueIndexSetReleaseError, UniqueIndexSetAcquireFailure,
};

/// Takes `number` indices for the owner. None where one is refused, or the list gets no memory.
fn take_many<'a, R: Wait>(
    rt: &'a R,
    alloc: Global,
    user: &mut User<'a>,
    owner: OwnerId,
    number: usize,
) -> Option<Vec<RobustIndex<'a, R>>> {
    let mut held = Vec::new(alloc);
    for _ in 0..number {
        held.push(user.take(rt, owner)?).ok()?;
    }
    Some(held)
}

/// Takes all indices and asks for one more, and gives one back by a call and the rest by drops. It says
/// whether all were out; whether the set was full, and the guard's index and owner are right; whether the
/// call said that the set is not locked; and whether no index is out in the end.
fn take_all<'a, R: Wait>(
    rt: &'a R,
    alloc: Global,
    set: &'a RobustUniqueIndexSet,
    pass: Pass,
) -> Option<[bool; 4]>
    requires { IsPassOf set.now pass }
{
    let owner = OwnerId::new(7).ok()?;
    let capacity = set.capacity();
    let mut user = User::new(set, pass);
    let mut held = take_many(rt, alloc, &mut user, owner, capacity)?;
    let all = user.out(rt) == capacity;
    let full = user.refusal(rt, owner) == Some(UniqueIndexSetAcquireFailure::OutOfIndices);
    let last = held.pop()?;
    let (below, his) = (last.value() < capacity, last.owner() == owner);
    let (answer, _pass) = last.release(ReleaseMode::Default);
    let given = answer == Ok(ReleaseState::Unlocked);
    drop(held);
    Some([all, full & below & his, given, user.out(rt) == 0])
}

/// Takes all indices, each second one for another owner. All users stop without a release. Recovers the one owner
/// twice, which has to answer `Unlocked`, and then the other. It returns how many came back each time and how many
/// were out then. Then the last recovery, which finds just one index
/// out, has to lock the set, and each later acquire has to be refused. None where an index is refused.
fn recover_each_second<'a, R: Wait>(
    rt: &'a R,
    set: &'a RobustUniqueIndexSet,
    pass: Pass,
) -> Option<([usize; 3], [bool; 2])>
    requires { IsPassOf set.now pass }
{
    let (dead, other) = (OwnerId::new(1).ok()?, OwnerId::new(2).ok()?);
    let mut user = User::new(set, pass);
    for at in 0..set.capacity() {
        let owner = if at % 2 == 0 { dead } else { other };
        if !user.take_and_die(rt, owner) {
            return None;
        }
    }
    let first = user.recover(rt, dead, ReleaseMode::Default);
    let again = user.recover(rt, dead, ReleaseMode::Default);
    let out = user.out(rt);
    if !user.take_and_die(rt, dead) {
        return None;
    }
    user.recover(rt, other, ReleaseMode::Default);
    let last = user.recover(rt, dead, ReleaseMode::LockIfLastIndex);
    let unlocked = first.state == ReleaseState::Unlocked && again.state == ReleaseState::Unlocked;
    let locked = last.state == ReleaseState::Locked && last.freed == 1;
    let refused = user.take_within(rt, 3, other) == Err(UniqueIndexSetAcquireFailure::IsLocked);
    let none = user.take_waiting(rt, other) == None;
    Some((
        [first.freed, again.freed, out],
        [unlocked, locked & refused & none],
    ))
}

/// Takes the only index, recovers its owner, and then releases the guard. It returns what the release
/// answers. None where the index was not taken or not recovered.
fn release_late<'a, R: Wait>(
    rt: &'a R,
    set: &'a RobustUniqueIndexSet,
    pass: Pass,
) -> Option<Result<ReleaseState, RobustUniqueIndexSetReleaseError>>
    requires { IsPassOf set.now pass }
{
    let owner = OwnerId::new(7).ok()?;
    let mut user = User::new(set, pass);
    let index = user.take(rt, owner)?;
    let recovery = user.recover(rt, owner, ReleaseMode::Default);
    if recovery.freed != 1 {
        return None;
    }
    let (answer, _pass) = index.release(ReleaseMode::Default);
    Some(answer)
}

/// Takes the only index, and gives it back so that the set is locked. It says whether tries were refused
/// before and the release locked, and why the next acquire is refused.
fn lock_by_release<'a, R: Wait>(
    rt: &'a R,
    set: &'a RobustUniqueIndexSet,
    pass: Pass,
) -> Option<(bool, Option<UniqueIndexSetAcquireFailure>)>
    requires { IsPassOf set.now pass }
{
    let owner = OwnerId::new(7).ok()?;
    let mut user = User::new(set, pass);
    let index = user.take(rt, owner)?;
    let full = user.take_within(rt, 0, owner) == Err(UniqueIndexSetAcquireFailure::OutOfIndices)
        && user.take_within(rt, 3, owner) == Err(UniqueIndexSetAcquireFailure::OutOfIndices);
    let (answer, _pass) = index.release(ReleaseMode::LockIfLastIndex);
    let locked = answer == Ok(ReleaseState::Locked);
    Some((full & locked, user.refusal(rt, owner)))
}

/// Guards give their indices back, by a call and by a drop, at four capacities. If one did not, an index
/// would be out in the end.
#[test]
fn guards_give_back(rt: HostRuntime) -> Result<(), Fail> {
    let alloc = rt.alloc();
    for capacity in [1, 5, 64, 1000] {
        let (set, pass) = RobustUniqueIndexSet::new(alloc, capacity)?;
        assert!(rt;
            take_all(&rt, alloc, &set, pass) == Some([true; 4]),
            "at {capacity}"
        );
    }
    Ok(())
}

/// The recovery of one owner frees that owner's indices once, and no other one's, at four capacities. The
/// columns are the capacity, how many the dead owner had, and how many were out after both recoveries.
#[test]
fn one_owner_is_recovered(rt: HostRuntime) -> Result<(), Fail> {
    for (capacity, his, left) in [(1, 1, 0), (5, 3, 2), (64, 32, 32), (1000, 500, 500)] {
        let (set, pass) = RobustUniqueIndexSet::new(rt.alloc(), capacity)?;
        let want = Some(([his, 0, left], [true; 2]));
        assert!(rt;
            recover_each_second(&rt, &set, pass) == want,
            "at {capacity}"
        );
    }
    Ok(())
}

/// A guard whose owner was recovered gives nothing back. If it did, it could free an index that somebody else
/// has by then.
#[test]
fn a_guard_of_a_recovered_owner_gives_nothing_back(rt: HostRuntime) -> Result<(), Fail> {
    let (set, pass) = RobustUniqueIndexSet::new(rt.alloc(), 1)?;
    let denied = RobustUniqueIndexSetReleaseError::IndexIsNotOwnedByProvidedOwner;
    assert!(rt; release_late(&rt, &set, pass) == Some(Err(denied)));
    Ok(())
}

/// A guard that gives the last index back in mode `LockIfLastIndex` locks the set, and the next acquire is
/// told of it.
#[test]
fn the_last_guard_locks(rt: HostRuntime) -> Result<(), Fail> {
    let (set, pass) = RobustUniqueIndexSet::new(rt.alloc(), 1)?;
    let locked = UniqueIndexSetAcquireFailure::IsLocked;
    assert!(rt; lock_by_release(&rt, &set, pass) == Some((true, Some(locked))));
    Ok(())
}
