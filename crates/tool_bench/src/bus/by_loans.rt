//! The way of records that are written and read in the slots of a typed loan channel.

use super::passing::{Ends, Reader, Writer, word_of};
use std::alloc::Global;
use std::sync::Wait;
use zero_copy_loans::channel::Channel;
use zero_copy_loans::receiver::{Receiver, Sample};
use zero_copy_loans::sender::Sender;

/// The writer, which writes a record in the place of a loan, and sends it.
#[derive(Drop)]
pub struct Sends<'a> {
    sender: Sender<'a, Vec<u64>>,
}

/// The reader, which reads a record where it lies, and gives its place back.
#[derive(Drop)]
pub struct Gets<'a> {
    receiver: Receiver<'a, Vec<u64>>,
}

impl<'a> Writer for Sends<'a> {
    #[inline(always)]
    fn write<R: Wait>(&mut self, rt: &R, number: u64) -> bool {
        self.sender.take_back();
        let Ok(mut loan) = self.sender.loan(rt) else {
            return false;
        };
        for (at, word) in loan.value.iter_mut().enumerate() {
            *word = word_of(number, at);
        }
        self.sender.send(loan).is_none()
    }
}

/// The sum of the words of a record, read where it lies.
#[inline(always)]
fn sum_of(receiver: &Receiver<'_, Vec<u64>>, sample: &Sample) -> Option<u64> {
    let reading = receiver.read(sample).ok()?;
    let mut sum = 0u64;
    for word in reading.get().iter() {
        sum = sum.wrapping_add(*word);
    }
    Some(sum)
}

impl<'a> Reader for Gets<'a> {
    #[inline(always)]
    fn read<R: Wait>(&mut self, rt: &R) -> Option<u64> {
        let sample = self.receiver.receive(rt)?;
        let sum = sum_of(&self.receiver, &sample);
        self.receiver.give_back(sample);
        sum
    }
}

/// The two ends of a channel. None where they are refused.
pub fn ends(
    alloc: Global,
    channel: &mut Channel<Vec<u64>>,
    spares: Vec<Vec<u64>>,
) -> Option<Ends<Sends<'_>, Gets<'_>>> {
    let (sender, receiver) = channel.ends(alloc, spares)?;
    Some(Ends {
        writer: Sends { sender },
        reader: Gets { receiver },
    })
}
