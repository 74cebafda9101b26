//! A way on which records go from a writer to a reader, by turns in one thread.

use std::sync::Wait;

/// How many records may wait on the way.
pub const WAITING: usize = 16;

/// The end of a way that makes records and passes them on.
pub trait Writer: Drop {
    /// Makes the record of this number, and passes it on. False where there was no room for it.
    fn write<R: Wait>(&mut self, rt: &R, number: u64) -> bool;
}

/// The end of a way that reads records.
pub trait Reader: Drop {
    /// Reads the next record, and returns the sum of its words. None where no record waits.
    fn read<R: Wait>(&mut self, rt: &R) -> Option<u64>;
}

/// The word at the place `at` of the record of this number.
#[inline(always)]
pub fn word_of(number: u64, at: usize) -> u64 {
    number.wrapping_add(at as u64)
}

/// The two ends of a way that records take.
pub struct Ends<W: Drop, D: Drop> {
    pub writer: W,
    pub reader: D,
}

impl<W: Drop, D: Drop> Drop for Ends<W, D> {
    fn drop(self) {
        let Self {
            writer: _writer,
            reader: _reader,
        } = self;
    }
}

impl<W: Writer, D: Reader> Ends<W, D> {
    /// Passes `records` records, each of which is read before the next one is made. It returns the sum of all
    /// words, and None where a record did not go or come.
    #[inline(never)]
    pub fn pass<R: Wait>(&mut self, rt: &R, records: u64) -> Option<u64> {
        let mut sum = 0u64;
        for number in 0..records {
            if !self.writer.write(rt, number) {
                return None;
            }
            sum = sum.wrapping_add(self.reader.read(rt)?);
        }
        Some(sum)
    }
}
