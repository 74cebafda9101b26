//! The pop of an overflowing queue, with its steps by hand. The words are those that `steps::queues` names.
ghost use Rattle.std.specs.Prelude.{◌≡◌, ◌+◌, ◌<◌, ◌^◌};

use super::Words;
use std::alloc::{AllocError, Global};
use std::sync::Wait;

/// The cell of this position, which is below the number of cells.
#[inline(always)]
pub fn slot(slots: u32, position: u64) -> usize
    requires { 0 < slots }
    ensures { result < slots }
{
    (position % slots as u64) as usize
}

/// An overflowing queue of numbers. It has one cell more than its capacity.
#[derive(Drop)]
pub struct Overflowing {
    words: Words,
    capacity: u32,
    ghost few: { capacity + 1 < 2 ^ 32 },
    ghost some: { 0 < capacity },
    ghost sized: { words.size ≡ 4 + (capacity + 1) },
}

impl Overflowing {
    /// An empty queue. Memory counts as refused if the capacity is 0 or 2^32 - 1.
    pub fn new(alloc: Global, capacity: u32) -> Result<Overflowing, AllocError> {
        if capacity == 0 || capacity == u32::MAX {
            return Err(AllocError);
        }
        let numbers = Vec::from_elem(alloc, 0u64, 4 + (capacity as usize + 1))?;
        let words = Words::new(alloc, numbers.as_slice())?;
        Ok(Overflowing { words, capacity })
    }

    /// Takes the oldest number out. None where the queue is empty.
    #[inline(never)]
    pub fn pop<R: Wait>(&mut self, rt: &R) -> Option<u64> {
        let mut read = self.words.load(1);
        if self.words.load(0) == read {
            return None;
        }
        for _ in rt.forever() {
            let value = self.words.load(4 + slot(self.capacity + 1, read));
            let found = self.words.exchange(1, read, read.wrapping_add(1));
            if found == read {
                return Some(value);
            }
            read = found;
        }
        unreachable!()
    }
}
