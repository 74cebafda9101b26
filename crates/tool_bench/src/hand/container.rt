//! The container of numbers, with its steps by hand.
ghost use Rattle.std.specs.Prelude.{◌≡◌, ◌+◌, ◌<◌};

use super::Words;
use super::robust::{EMPTY, LOCKED, Owners};
use std::alloc::{AllocError, Global};
use std::sync::Wait;

/// A container: its words are the counter, the owner of each index, the number of changes, the number of each
/// element, and the elements.
#[derive(Drop)]
pub struct Values {
    owners: Owners,
    ghost sized: { owners.words.size ≡ 2 + (owners.capacity + owners.capacity) + owners.capacity },
}

impl Values {
    /// A container in which no value stands.
    pub fn new(alloc: Global, capacity: u32) -> Result<Values, AllocError> {
        let cells = capacity as usize;
        let mut numbers = Vec::from_elem(alloc, 0u64, 2 + (cells + cells) + cells)?;
        for index in 0..cells {
            numbers[1 + index] = EMPTY;
        }
        let words = Words::new(alloc, numbers.as_slice())?;
        let owners = Owners { words, capacity };
        Ok(Values { owners })
    }

    /// Adds the value for the owner, and returns its index. None where no index is free.
    #[inline(never)]
    pub fn add<R: Wait>(&mut self, rt: &R, value: u64, owner: u64) -> Option<u32> {
        let index = self.owners.acquire(rt, owner)?;
        if index >= self.owners.capacity {
            return None;
        }
        let cells = self.owners.capacity as usize;
        let number = 2 + cells + index as usize;
        let words = &mut self.owners.words;
        let found = words.load(number);
        if found % 2 == 1 {
            words.exchange(number, found, found.wrapping_add(1));
        }
        words.store(2 + (cells + cells) + index as usize, value);
        words.add(number, 1);
        words.add(1 + cells, 1);
        Some(index)
    }

    /// The value at this index, and the number of its element. None where no value stands, or it changed
    /// while it was copied.
    #[inline(always)]
    fn copied(&mut self, index: u32) -> Option<(u64, u64)>
        requires { index < self.old.owners.capacity }
        ensures { self.new.owners.capacity ≡ self.old.owners.capacity }
    {
        let cells = self.owners.capacity as usize;
        let number = 2 + cells + index as usize;
        let words = &mut self.owners.words;
        let found = words.load(number);
        if found % 2 == 0 {
            return None;
        }
        let value = words.load(2 + (cells + cells) + index as usize);
        if words.exchange(number, found, found) == found {
            Some((value, found))
        } else {
            None
        }
    }

    /// The sum of the owner's values.
    #[inline(never)]
    pub fn find(&mut self, owner: u64) -> u64 {
        let mut sum = 0u64;
        for index in 0..self.owners.capacity {
            if self.owners.words.load(1 + index as usize) == owner {
                if let Some((value, _)) = self.copied(index) {
                    sum = sum.wrapping_add(value);
                }
            }
        }
        sum
    }

    /// Frees this index of a dead owner, if that owner has it. False where the container is locked.
    #[inline(always)]
    fn frees<R: Wait>(&mut self, rt: &R, index: u32, dead: u64) -> bool
        requires { index < self.old.owners.capacity }
        ensures { self.new.owners.capacity ≡ self.old.owners.capacity }
    {
        let copied = self.copied(index);
        let number = 2 + self.owners.capacity as usize + index as usize;
        let words = &mut self.owners.words;
        if words.exchange(1 + index as usize, dead, EMPTY) != dead {
            return true;
        }
        if let Some((_, found)) = copied {
            words.exchange(number, found, found.wrapping_add(1));
        }
        self.owners.raise(rt)
    }

    /// Frees each index of this dead owner. False where the container is locked.
    #[inline(never)]
    pub fn recover<R: Wait>(&mut self, rt: &R, dead: u64) -> bool {
        let mut is_open = self.owners.words.load(0) != LOCKED;
        for index in 0..self.owners.capacity {
            if self.owners.words.load(1 + index as usize) == dead {
                is_open = is_open && self.frees(rt, index, dead);
            }
        }
        is_open = self.owners.words.load(0) != LOCKED && is_open;
        let changes = 1 + self.owners.capacity as usize;
        self.owners.words.add(changes, 1);
        is_open
    }
}
