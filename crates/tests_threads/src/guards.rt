//! Index sets with guards that give an index back as they are dropped, and acquires that wait or make a
//! number of tries.
ghost use Rattle.lock_free_owners.specs.RobustUniqueIndexSet as robust;
ghost use Rattle.lock_free_sets.specs.UniqueIndexSet as unique;

use crate::indices::{Guest, Refusal, play_guests};
use lock_free::mpmc::robust_unique_index_set::{OwnerId, Pass, RobustUniqueIndexSet};
use lock_free::mpmc::unique_index_set;
use lock_free::mpmc::unique_index_set::{UniqueIndex, UniqueIndexSet};
use lock_free::mpmc::unique_index_set_enums::{
    ReleaseMode, ReleaseState, UniqueIndexSetAcquireFailure,
};
use lock_free_guards::robust_index::RobustIndex;
use lock_free_guards::unique_index::acquire_within;
use std::sync::Wait;
use std::thread::Threads;
use tests_rows::desk::Desk;
use tests_rows::play::Turn;
use tests_rows::row::Row;

/// How many tries an acquire makes.
const TRIES: u64 = 3;

/// Why a try was refused.
fn refusal(failure: UniqueIndexSetAcquireFailure) -> Refusal {
    match failure {
        UniqueIndexSetAcquireFailure::OutOfIndices => Refusal::Full,
        UniqueIndexSetAcquireFailure::IsLocked => Refusal::Locked,
    }
}

/// Somebody who takes indices of a robust set with guards.
#[derive(Drop)]
struct RobustGuest<'a, R: Wait> {
    rt: &'a R,
    set: &'a RobustUniqueIndexSet,
    pass: Pass,
    owner: OwnerId,
    ghost of: { robust.IsPassOf set.now pass },
}

impl<'a, R: Wait> Guest for RobustGuest<'a, R> {
    type Held = RobustIndex<'a, R>;

    fn another(&mut self, owner: u64) -> Option<RobustGuest<'a, R>> {
        let owner = OwnerId::new(owner).ok()?;
        let pass = self.pass.split()?;
        Some(RobustGuest {
            rt: self.rt,
            set: self.set,
            pass,
            owner,
        })
    }

    fn take(&mut self, _rt: &impl Wait) -> Result<RobustIndex<'a, R>, Refusal> {
        let Some(pass) = self.pass.split() else {
            return Err(Refusal::Full);
        };
        match RobustIndex::acquire_within(self.rt, TRIES, self.set, pass, self.owner) {
            Ok(index) => Ok(index),
            Err((failure, _)) => Err(refusal(failure)),
        }
    }

    fn index(held: &RobustIndex<'a, R>) -> usize {
        held.value()
    }

    fn use_it(&mut self, _rt: &impl Wait, _held: &RobustIndex<'a, R>, _desk: &mut Desk<'_>) {}

    fn give(
        &mut self,
        _rt: &impl Wait,
        held: RobustIndex<'a, R>,
        mode: ReleaseMode,
    ) -> Option<ReleaseState> {
        if mode == ReleaseMode::Default {
            drop(held);
            return Some(ReleaseState::Unlocked);
        }
        let (state, _) = held.release(mode);
        state.ok()
    }

    fn number(&mut self, rt: &impl Wait) -> usize {
        self.set.borrowed_indices(rt, &mut self.pass)
    }

    fn is_locked(&mut self) -> bool {
        self.set.is_locked(&mut self.pass)
    }

    /// There is no turn of its own.
    fn own_turn(&mut self, _rt: &impl Wait, _desk: &mut Desk<'_>) -> Turn {
        Turn::Last
    }
}

/// Plays a round on a new robust set, whose indices are held by guards.
pub fn play_robust<R: Wait + Threads + Sync>(rt: &R, row: &mut Row<'_>) -> Option<()> {
    let (set, pass) = RobustUniqueIndexSet::new(row.alloc, row.capacity).ok()?;
    let guest = RobustGuest {
        rt,
        set: &set,
        pass,
        owner: OwnerId::new(0).ok()?,
    };
    play_guests(rt, row, guest)
}

/// Somebody who takes indices of a unique index set by tries.
#[derive(Drop)]
struct UniqueGuest<'a> {
    set: &'a UniqueIndexSet,
    pass: unique_index_set::Pass,
    ghost of: { unique.IsPassOf set.now pass },
}

impl<'a> Guest for UniqueGuest<'a> {
    type Held = UniqueIndex<'a>;

    fn another(&mut self, _owner: u64) -> Option<UniqueGuest<'a>> {
        let pass = self.pass.split()?;
        Some(UniqueGuest {
            set: self.set,
            pass,
        })
    }

    fn take(&mut self, rt: &impl Wait) -> Result<UniqueIndex<'a>, Refusal> {
        let Some(pass) = self.pass.split() else {
            return Err(Refusal::Full);
        };
        match acquire_within(rt, TRIES, self.set, pass) {
            Ok(index) => Ok(index),
            Err((failure, _)) => Err(refusal(failure)),
        }
    }

    fn index(held: &UniqueIndex<'a>) -> usize {
        held.value() as usize
    }

    fn use_it(&mut self, _rt: &impl Wait, _held: &UniqueIndex<'a>, _desk: &mut Desk<'_>) {}

    fn give(
        &mut self,
        rt: &impl Wait,
        held: UniqueIndex<'a>,
        mode: ReleaseMode,
    ) -> Option<ReleaseState> {
        if mode == ReleaseMode::Default {
            drop(held);
            return Some(ReleaseState::Unlocked);
        }
        let (state, _) = held.give_back_or_lock(rt);
        Some(state)
    }

    fn number(&mut self, _rt: &impl Wait) -> usize {
        self.set.borrowed_indices(&mut self.pass)
    }

    fn is_locked(&mut self) -> bool {
        self.set.is_locked(&mut self.pass)
    }

    /// There is no turn of its own.
    fn own_turn(&mut self, _rt: &impl Wait, _desk: &mut Desk<'_>) -> Turn {
        Turn::Last
    }
}

/// Plays a round on a new unique index set, whose indices are taken by tries and dropped.
pub fn play_unique<R: Wait + Threads + Sync>(rt: &R, row: &mut Row<'_>) -> Option<()> {
    let (set, pass) = UniqueIndexSet::new(row.alloc, row.capacity).ok()?;
    play_guests(rt, row, UniqueGuest { set: &set, pass })
}
