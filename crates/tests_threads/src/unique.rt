//! Unique index sets, by handles that the guards of indices take along.
use crate::indices::{Guest, Refusal, play_guests};
use lock_free::mpmc::unique_index_set::{Handle, UniqueIndex, UniqueIndexSet};
use lock_free::mpmc::unique_index_set_enums::{
    ReleaseMode, ReleaseState, UniqueIndexSetAcquireFailure,
};
use std::sync::Wait;
use std::thread::Threads;
use tests_rows::desk::Desk;
use tests_rows::play::Turn;
use tests_rows::row::Row;

/// At each turn whose number is a multiple of this, the index is taken by a handle that was split off, and
/// given back as its guard is dropped.
const SPLITS: u64 = 1_000;

/// Somebody with a handle. Another one, which counts, stays when an index has taken the first along.
#[derive(Drop)]
struct IndexGuest<'a> {
    handle: Option<Handle<'a>>,
    counts: Handle<'a>,
    turns: u64,
}

impl<'a> Guest for IndexGuest<'a> {
    type Held = UniqueIndex<'a>;

    fn another(&mut self, _owner: u64) -> Option<IndexGuest<'a>> {
        Some(IndexGuest {
            handle: self.counts.split(),
            counts: self.counts.split()?,
            turns: 0,
        })
    }

    fn take(&mut self, rt: &impl Wait) -> Result<UniqueIndex<'a>, Refusal> {
        let handle = match self.handle.take() {
            Some(handle) if self.turns % SPLITS != 0 => handle,
            kept => {
                self.handle = kept;
                match self.counts.split() {
                    Some(handle) => handle,
                    None => return Err(Refusal::Full),
                }
            }
        };
        match handle.acquire(rt) {
            Ok(index) => {
                self.turns = self.turns.wrapping_add(1);
                Ok(index)
            }
            Err((failure, handle)) => {
                self.handle = Some(handle);
                Err(match failure {
                    UniqueIndexSetAcquireFailure::OutOfIndices => Refusal::Full,
                    UniqueIndexSetAcquireFailure::IsLocked => Refusal::Locked,
                })
            }
        }
    }

    fn index(held: &UniqueIndex<'a>) -> usize {
        held.value() as usize
    }

    fn use_it(&mut self, _rt: &impl Wait, _held: &UniqueIndex<'a>, _desk: &mut Desk<'_>) {}

    fn give(
        &mut self,
        rt: &impl Wait,
        held: UniqueIndex<'a>,
        mode: ReleaseMode,
    ) -> Option<ReleaseState> {
        let (state, handle) = match mode {
            ReleaseMode::Default if self.handle.is_some() => {
                drop(held);
                return Some(ReleaseState::Unlocked);
            }
            ReleaseMode::Default => (ReleaseState::Unlocked, held.give_back()),
            ReleaseMode::LockIfLastIndex => held.give_back_or_lock(rt),
        };
        self.handle = Some(handle);
        Some(state)
    }

    fn number(&mut self, _rt: &impl Wait) -> usize {
        self.counts.borrowed_indices()
    }

    fn is_locked(&mut self) -> bool {
        self.counts.is_locked()
    }

    /// A unique index set has no turn of its own.
    fn own_turn(&mut self, _rt: &impl Wait, _desk: &mut Desk<'_>) -> Turn {
        Turn::Last
    }
}

/// Plays a round on a new set.
pub fn play_unique<R: Wait + Threads + Sync>(rt: &R, row: &mut Row<'_>) -> Option<()> {
    let (set, pass) = UniqueIndexSet::new(row.alloc, row.capacity).ok()?;
    let guest = IndexGuest {
        handle: None,
        counts: set.handle(pass),
        turns: 0,
    };
    play_guests(rt, row, guest)
}
