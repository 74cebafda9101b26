//! The way of records that are copied into a buffer under a lock, and out of it again, with which the other
//! ways are compared.

use super::passing::{Ends, Reader, WAITING, Writer, word_of};
use std::alloc::{AllocError, Global};
use std::sync::{Mutex, Wait};

/// The records that wait, in cells that are used in turn. `put` and `taken` are the numbers of records that
/// were put and taken.
#[derive(Drop)]
pub struct Waiting {
    cells: Vec<Vec<u64>>,
    put: usize,
    taken: usize,
}

/// A record of `words` words, each of them 0.
pub fn blank(alloc: Global, words: usize) -> Result<Vec<u64>, AllocError> {
    vec![in alloc; 0u64; words]
}

impl Waiting {
    /// A buffer for `WAITING` records of `words` words.
    pub fn new(alloc: Global, words: usize) -> Result<Waiting, AllocError> {
        let mut cells = Vec::with_capacity(alloc, WAITING)?;
        for _ in 0..WAITING {
            cells.push(blank(alloc, words)?)?;
        }
        Ok(Waiting {
            cells,
            put: 0,
            taken: 0,
        })
    }

    /// Copies a record in. False where the buffer is full.
    #[inline(always)]
    fn put(&mut self, record: &[u64]) -> bool {
        if self.put.wrapping_sub(self.taken) >= WAITING {
            return false;
        }
        let Some(cell) = self.cells.get_mut(self.put % WAITING) else {
            return false;
        };
        if !copies(record, cell) {
            return false;
        }
        self.put = self.put.wrapping_add(1);
        true
    }

    /// Copies the oldest record out, and removes it if this reader is the last one. False
    /// where no record waits.
    #[inline(always)]
    fn take(&mut self, record: &mut [u64], is_last: bool) -> bool {
        if self.put == self.taken {
            return false;
        }
        let Some(cell) = self.cells.get(self.taken % WAITING) else {
            return false;
        };
        if !copies(cell, record) {
            return false;
        }
        if is_last {
            self.taken = self.taken.wrapping_add(1);
        }
        true
    }
}

/// Copies a record. False where the two are not equally long.
#[inline(always)]
fn copies(from: &[u64], to: &mut [u64]) -> bool {
    if from.len() != to.len() {
        return false;
    }
    to.copy_from_slice(from);
    true
}

/// The writer, which makes a record of its own and copies it in.
#[derive(Drop)]
pub struct Puts<'a> {
    waiting: &'a Mutex<Waiting>,
    record: Vec<u64>,
}

/// The readers, which copy each record out one after another.
#[derive(Drop)]
pub struct Takes<'a> {
    waiting: &'a Mutex<Waiting>,
    record: Vec<u64>,
    readers: usize,
}

impl<'a> Writer for Puts<'a> {
    #[inline(always)]
    fn write<R: Wait>(&mut self, rt: &R, number: u64) -> bool {
        for at in 0..self.record.len() {
            self.record[at] = word_of(number, at);
        }
        self.waiting.lock(rt).put(&self.record)
    }
}

impl<'a> Reader for Takes<'a> {
    #[inline(always)]
    fn read<R: Wait>(&mut self, rt: &R) -> Option<u64> {
        let mut sum = 0u64;
        for reader in 1..self.readers.saturating_add(1) {
            let is_last = reader == self.readers;
            if !self.waiting.lock(rt).take(&mut self.record, is_last) {
                return None;
            }
            for word in self.record.iter() {
                sum = sum.wrapping_add(*word);
            }
        }
        Some(sum)
    }
}

/// The two ends of this way, each with a record of its own to copy from or to.
pub fn ends<'a>(
    alloc: Global,
    waiting: &'a Mutex<Waiting>,
    words: usize,
    readers: usize,
) -> Result<Ends<Puts<'a>, Takes<'a>>, AllocError> {
    let made = blank(alloc, words)?;
    let read = blank(alloc, words)?;
    Ok(Ends {
        writer: Puts {
            waiting,
            record: made,
        },
        reader: Takes {
            waiting,
            record: read,
            readers,
        },
    })
}
