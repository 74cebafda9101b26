//! The robust index set, with its steps by hand. The container by hand has the same first words
//! and uses these calls.
ghost use Rattle.std.specs.Prelude.{◌≡◌, ◌+◌, ◌≤◌};

use super::Words;
use std::alloc::{AllocError, Global};
use std::sync::Wait;

/// The cell of an index that nobody has.
pub const EMPTY: u64 = u64::MAX;

/// The counter of a locked set.
pub const LOCKED: u64 = u64::MAX;

/// The counter at its end, where it stays.
const GREATEST: u64 = u64::MAX - 1;

/// A robust set: its words are the counter, the owner of each index, and those that a
/// container has behind them.
#[derive(Drop)]
pub struct Owners {
    pub words: Words,
    pub capacity: u32,
    ghost sized: { 1 + capacity ≤ words.size },
}

impl Owners {
    /// A set of which no index is out.
    pub fn new(alloc: Global, capacity: u32) -> Result<Owners, AllocError> {
        let mut numbers = Vec::from_elem(alloc, EMPTY, 1 + capacity as usize)?;
        numbers[0] = 0;
        let words = Words::new(alloc, numbers.as_slice())?;
        Ok(Owners { words, capacity })
    }

    /// Raises the counter by 1. False where the set is locked; a counter at its end stays.
    #[inline(always)]
    pub fn raise<R: Wait>(&mut self, rt: &R) -> bool
        ensures capacity { self.new.capacity ≡ self.old.capacity }
        ensures size { self.new.words.size ≡ self.old.words.size }
    {
        let mut counter = self.words.load(0);
        for _ in rt.forever() {
            if counter == LOCKED {
                return false;
            }
            if counter == GREATEST {
                return true;
            }
            let found = self.words.exchange(0, counter, counter.wrapping_add(1));
            if found == counter {
                return true;
            }
            counter = found;
        }
        unreachable!()
    }

    /// Takes the lowest index without an owner. None where there is none, or the set is locked or at its end.
    pub fn acquire<R: Wait>(&mut self, rt: &R, owner: u64) -> Option<u32>
        ensures capacity { self.new.capacity ≡ self.old.capacity }
        ensures size { self.new.words.size ≡ self.old.words.size }
    {
        let mut counter = self.words.load(0);
        for _ in rt.forever() {
            if counter == LOCKED || counter == GREATEST {
                return None;
            }
            for index in 0..self.capacity {
                if self.words.exchange(1 + index as usize, EMPTY, owner) == EMPTY {
                    return if self.raise(rt) { Some(index) } else { None };
                }
            }
            let found = self.words.exchange(0, counter, counter);
            if found == counter {
                return None;
            }
            counter = found;
        }
        unreachable!()
    }

    /// Gives the index back. False where the owner does not have it.
    pub fn release<R: Wait>(&mut self, rt: &R, index: u32, owner: u64) -> bool {
        if index >= self.capacity {
            return false;
        }
        if self.words.exchange(1 + index as usize, owner, EMPTY) != owner {
            return false;
        }
        self.raise(rt);
        true
    }

    /// The sum of the owner's indices, each plus 1.
    #[inline(never)]
    pub fn find(&mut self, owner: u64) -> u64 {
        let mut found = 0u64;
        for index in 0..self.capacity {
            if self.words.load(1 + index as usize) == owner {
                found = found.wrapping_add(1 + index as u64);
            }
        }
        found
    }

    /// Frees each index of this dead owner. False where the set is locked.
    #[inline(never)]
    pub fn recover<R: Wait>(&mut self, rt: &R, dead: u64) -> bool {
        if self.words.load(0) == LOCKED {
            return false;
        }
        for index in 0..self.capacity {
            if self.words.load(1 + index as usize) == dead
                && self.words.exchange(1 + index as usize, dead, EMPTY) == dead
                && !self.raise(rt)
            {
                return false;
            }
        }
        self.words.load(0) != LOCKED
    }
}
