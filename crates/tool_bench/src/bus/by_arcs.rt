//! The way of records that the writer and the reader share by `Arc`, through a ring of `rtrb`.

use super::by_copy::blank;
use super::passing::{Ends, Reader, WAITING, Writer, word_of};
use rtrb::{Consumer, Producer, RingBuffer};
use std::alloc::{AllocError, Global};
use std::sync::{Arc, Wait};

/// A record that both ends may have.
type Shared = Arc<Vec<u64>, Global>;

/// The writer, which has all records. It writes one where it lies, if the reader has it no more, and passes a
/// clone of its `Arc` on.
pub struct Shares {
    ring: Producer<Shared>,
    records: Vec<Shared>,
}

impl Drop for Shares {
    fn drop(self) {
        let Self {
            ring: _ring,
            records: _records,
        } = self;
    }
}

/// The reader, which reads records where they lie.
#[derive(Drop)]
pub struct Looks {
    ring: Consumer<Shared>,
}

/// Writes the record of this number. False where somebody else still has the `Arc`.
#[inline(always)]
fn is_written(record: &mut Shared, number: u64) -> bool {
    let Some(words) = Arc::get_mut(record) else {
        return false;
    };
    for (at, word) in words.iter_mut().enumerate() {
        *word = word_of(number, at);
    }
    true
}

impl Writer for Shares {
    #[inline(always)]
    fn write<R: Wait>(&mut self, _rt: &R, number: u64) -> bool {
        let at = (number % WAITING as u64) as usize;
        let Some(record) = self.records.get_mut(at) else {
            return false;
        };
        if !is_written(record, number) {
            return false;
        }
        match Arc::try_clone(record) {
            Ok(record) => self.ring.push(record).is_ok(),
            Err(_) => false,
        }
    }
}

impl Reader for Looks {
    #[inline(always)]
    fn read<R: Wait>(&mut self, _rt: &R) -> Option<u64> {
        let record = self.ring.pop().ok()?;
        let mut sum = 0u64;
        for word in record.iter() {
            sum = sum.wrapping_add(*word);
        }
        Some(sum)
    }
}

/// The two ends, with `WAITING` records of `words` words.
pub fn ends(alloc: Global, words: usize) -> Result<Ends<Shares, Looks>, AllocError> {
    let mut records = Vec::with_capacity(alloc, WAITING)?;
    for _ in 0..WAITING {
        records.push(Arc::new(alloc, blank(alloc, words)?)?)?;
    }
    let (producer, consumer) = RingBuffer::new(alloc, WAITING)?;
    Ok(Ends {
        writer: Shares {
            ring: producer,
            records,
        },
        reader: Looks { ring: consumer },
    })
}
