//! The way of records that are written and read in the slots of a bus.

use super::by_copy::blank;
use super::passing::{Ends, Reader, WAITING, Writer, word_of};
use lock_free::mpmc::container::OwnerId;
use std::alloc::{AllocError, Global};
use std::sync::Wait;
use zero_copy_bus::bus::Sizes;
use zero_copy_bus::publisher::{Loan, Publisher};
use zero_copy_bus::subscriber::{Sample, Subscriber};

/// The sizes of a bus of this many subscribers. A queue has room for all slots, so no record is lost.
pub fn sizes_of(subscribers: usize) -> Sizes {
    Sizes {
        slots: WAITING,
        subscribers,
        queue: WAITING,
    }
}

/// Records of `words` words, one more than there are slots, which a publisher is given to write.
pub fn spares(alloc: Global, words: usize) -> Result<Vec<Vec<u64>>, AllocError> {
    let mut spares = Vec::with_capacity(alloc, WAITING + 1)?;
    for _ in 0..WAITING + 1 {
        spares.push(blank(alloc, words)?)?;
    }
    Ok(spares)
}

/// The writer, which publishes records.
#[derive(Drop)]
pub struct Publishes<'a> {
    publisher: Publisher<'a, Vec<u64>>,
}

/// The readers, which each receive every record.
#[derive(Drop)]
pub struct Receives<'a> {
    subscribers: Vec<Subscriber<'a, Vec<u64>>>,
}

impl<'a> Publishes<'a> {
    /// A slot to write in. Where no slot is free, the publisher first takes back what the readers gave back.
    #[inline(always)]
    fn next_loan<R: Wait>(&mut self, rt: &R) -> Option<Loan<'a, Vec<u64>>> {
        if let Ok(loan) = self.publisher.loan(rt) {
            return Some(loan);
        }
        self.publisher.collect();
        self.publisher.loan(rt).ok()
    }
}

impl<'a> Writer for Publishes<'a> {
    #[inline(always)]
    fn write<R: Wait>(&mut self, rt: &R, number: u64) -> bool {
        let Some(mut loan) = self.next_loan(rt) else {
            return false;
        };
        for (at, word) in loan.value.iter_mut().enumerate() {
            *word = word_of(number, at);
        }
        self.publisher.publish(loan);
        true
    }
}

/// Receives the next record of one reader, and returns the sum of its words. None where no record waits.
#[inline(always)]
fn read_next<R: Wait>(rt: &R, subscriber: &mut Subscriber<'_, Vec<u64>>) -> Option<u64> {
    let sample = subscriber.receive(rt)?;
    let sum = sum_of(subscriber, &sample);
    subscriber.give_back(sample);
    sum
}

/// The sum of the words of a record, read where it lies.
#[inline(always)]
fn sum_of(subscriber: &Subscriber<'_, Vec<u64>>, sample: &Sample) -> Option<u64> {
    let reading = subscriber.read(sample).ok()?;
    let mut sum = 0u64;
    for word in reading.get().iter() {
        sum = sum.wrapping_add(*word);
    }
    Some(sum)
}

impl<'a> Reader for Receives<'a> {
    #[inline(always)]
    fn read<R: Wait>(&mut self, rt: &R) -> Option<u64> {
        let mut sum = 0u64;
        for subscriber in self.subscribers.iter_mut() {
            sum = sum.wrapping_add(read_next(rt, subscriber)?);
        }
        Some(sum)
    }
}

/// The two ends: the publisher with `readers` subscribers. None where one is not let in,
/// or memory is refused.
pub fn ends<'a, R: Wait>(
    rt: &R,
    alloc: Global,
    publisher: Publisher<'a, Vec<u64>>,
    readers: usize,
) -> Option<Ends<Publishes<'a>, Receives<'a>>> {
    let mut publisher = publisher;
    let mut subscribers = Vec::with_capacity(alloc, readers).ok()?;
    for reader in 0..readers {
        let owner = OwnerId::new(reader as u64 + 1).ok()?;
        let seat = publisher.seat()?;
        let Ok(subscriber) = seat.join(rt, owner) else {
            return None;
        };
        subscribers.push(subscriber).ok()?;
    }
    publisher.update(rt);
    Some(Ends {
        writer: Publishes { publisher },
        reader: Receives { subscribers },
    })
}
