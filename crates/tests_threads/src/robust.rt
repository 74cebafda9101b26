//! Robust unique index sets, of which each thread takes indices for an owner.
use crate::indices::{Guest, Refusal, play_guests};
use lock_free::mpmc::robust_unique_index_set::{
    CallbackProgression, Handle, OwnerId, RobustUniqueIndexSet,
};
use lock_free::mpmc::unique_index_set_enums::{
    ReleaseMode, ReleaseState, UniqueIndexSetAcquireFailure,
};
use std::sync::Wait;
use std::thread::Threads;
use tests_rows::desk::Desk;
use tests_rows::play::Turn;
use tests_rows::row::Row;

/// How many indices an owner takes at most before it dies.
pub const MOST: u64 = 5;

/// A handle of a robust set, with the owner for which it takes indices.
struct SetOwner<'a> {
    set: Handle<'a>,
    owner: OwnerId,
}

impl<'a> Drop for SetOwner<'a> {
    fn drop(self) {
        let Self {
            set: _set,
            owner: _,
        } = self;
    }
}

impl<'a> SetOwner<'a> {
    /// Takes up to `MOST` indices for this owner, and returns how many they were.
    fn keep(&mut self, rt: &impl Wait, desk: &mut Desk<'_>) -> u64 {
        let mut number = 0u64;
        for _ in 0..MOST {
            desk.begin();
            if let Ok(index) = self.set.acquire(rt, self.owner) {
                desk.end("take", self.owner.value(), Some(index as u64));
                desk.check(desk.shared.swap(index, 1));
                number = number.wrapping_add(1);
            }
        }
        number
    }

    /// Recovers this owner, who counts as dead, and returns how many indices came back. The others are met as
    /// the call asks about an index, and each index is noted as free before it is.
    fn recover(&mut self, rt: &impl Wait, mode: ReleaseMode, desk: &mut Desk<'_>) -> u64 {
        let (dead, freed) = (self.owner, self.owner);
        let mut number = 0u64;
        desk.begin();
        let state = self.set.recover(
            rt,
            mode,
            &mut |owner, index| {
                if owner != dead {
                    return false;
                }
                desk.meet();
                desk.end("free", owner.value(), Some(index as u64));
                desk.check(desk.shared.swap(index, 0));
                true
            },
            &mut |owner, _index| {
                if owner == freed {
                    number = number.wrapping_add(1);
                }
            },
        );
        desk.end("recover", dead.value(), Some(number));
        desk.check(state == ReleaseState::Unlocked);
        number
    }
}

impl<'a> Guest for SetOwner<'a> {
    type Held = usize;

    fn another(&mut self, owner: u64) -> Option<SetOwner<'a>> {
        let owner = OwnerId::new(owner).ok()?;
        let set = self.set.split()?;
        Some(SetOwner { set, owner })
    }

    fn take(&mut self, rt: &impl Wait) -> Result<usize, Refusal> {
        match self.set.acquire(rt, self.owner) {
            Ok(index) => Ok(index),
            Err(UniqueIndexSetAcquireFailure::OutOfIndices) => Err(Refusal::Full),
            Err(UniqueIndexSetAcquireFailure::IsLocked) => Err(Refusal::Locked),
        }
    }

    fn index(held: &usize) -> usize {
        *held
    }

    /// Finds the owner's indices now and then, of which there is one at least.
    fn use_it(&mut self, _rt: &impl Wait, _held: &usize, desk: &mut Desk<'_>) {
        if desk.at % 16 == 0 {
            desk.begin();
            let found = self
                .set
                .find(self.owner, &mut |_| CallbackProgression::Continue);
            desk.end("find", self.owner.value(), Some(found as u64));
            desk.check(found >= 1);
        }
    }

    fn give(&mut self, rt: &impl Wait, held: usize, mode: ReleaseMode) -> Option<ReleaseState> {
        if held < self.set.capacity() {
            self.set.release(rt, held, self.owner, mode).ok()
        } else {
            None
        }
    }

    fn number(&mut self, rt: &impl Wait) -> usize {
        self.set.borrowed_indices(rt)
    }

    fn is_locked(&mut self) -> bool {
        self.set.is_locked()
    }

    /// Takes indices for the owner of this turn, dies with them, and is recovered. At each second turn the
    /// recovery asks for the lock at the last index, which is not due if others are out.
    fn own_turn(&mut self, rt: &impl Wait, desk: &mut Desk<'_>) -> Turn {
        let Ok(owner) = OwnerId::new(desk.at.wrapping_add(100)) else {
            return Turn::Last;
        };
        self.owner = owner;
        let kept = self.keep(rt, desk);
        if kept == 0 {
            return Turn::Nothing;
        }
        let mode = if desk.at % 2 == 0 {
            ReleaseMode::Default
        } else {
            ReleaseMode::LockIfLastIndex
        };
        let freed = self.recover(rt, mode, desk);
        desk.check(freed == kept);
        desk.check(self.set.find(owner, &mut |_| CallbackProgression::Stop) == 0);
        Turn::Counts
    }
}

/// Plays a round on a new set.
pub fn play_robust<R: Wait + Threads + Sync>(rt: &R, row: &mut Row<'_>) -> Option<()> {
    let (set, pass) = RobustUniqueIndexSet::new(row.alloc, row.capacity).ok()?;
    let guest = SetOwner {
        set: set.handle(pass),
        owner: OwnerId::new(0).ok()?,
    };
    play_guests(rt, row, guest)
}
