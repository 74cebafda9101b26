//! A loan channel between two threads: what BUS.md shows.

use std::alloc::{AllocError, Global};
use std::sync::Wait;
use std::test::Fail;
use std::thread;
use zero_copy_loans::channel::Channel;
use zero_copy_loans::receiver::{Receiver, Sample};
use zero_copy_loans::sender::Sender;

/// Sends ten values, each of which is full of its number. Returns how many it sent.
fn send(rt: &impl Wait, sender: &mut Sender<'_, Vec<u8>>) -> u8 {
    for number in 0..10u8 {
        sender.take_back();
        let Ok(mut loan) = sender.loan(rt) else {
            return number;
        };
        loan.value.fill(number);
        sender.send(loan);
    }
    10
}

/// The first byte of a value, read where it lies.
fn first_of(receiver: &Receiver<'_, Vec<u8>>, sample: &Sample) -> Option<u8> {
    receiver.read(sample).ok()?.get().first().copied()
}

/// Reads values until the last one comes. A receiver that is slow misses the oldest.
fn receive(rt: &impl Wait, receiver: &mut Receiver<'_, Vec<u8>>) -> Option<u8> {
    for _ in rt.forever() {
        if let Some(sample) = receiver.receive(rt) {
            let first = first_of(receiver, &sample);
            receiver.give_back(sample);
            if first? == 9 {
                return first;
            }
        }
    }
    None
}

/// So many values to write.
fn values(alloc: Global, number: usize) -> Result<Vec<Vec<u8>>, AllocError> {
    let mut values = Vec::with_capacity(alloc, number)?;
    for _ in 0..number {
        values.push(vec![in alloc; 0u8; 4096]?)?;
    }
    Ok(values)
}

#[test]
fn one_sends_to_one(rt: HostRuntime) -> Result<(), Fail> {
    let (places, queue) = (4, 2);
    let values = values(rt.alloc(), places + 1)?;
    let mut channel = Channel::new(rt.alloc(), places, queue)?;
    let (mut sender, mut receiver) = channel.ends(rt.alloc(), values).ok_or("no ends")?;
    // (`join` calls its first closure last where no thread can be made)
    let (received, sent) = thread::join(
        &rt,
        || receive(&rt, &mut receiver),
        || send(&rt, &mut sender),
    );
    assert!(rt; received == Some(9) && sent == 10);
    Ok(())
}
