//! One thread publishes records, and two subscribers read all of them where they lie, each in a thread of its own.
use lock_free::mpmc::container::OwnerId;
use std::alloc::Global;
use std::sync::Wait;
use std::thread::Threads;
use std::{io, thread};
use zero_copy_bus::bus::{Bus, Sizes};
use zero_copy_bus::publisher::Publisher;
use zero_copy_bus::subscriber::Subscriber;

const RECORDS: u64 = 500;

/// A queue has as much room as there are slots, so that nobody loses a record.
const SIZES: Sizes = Sizes {
    slots: 8,
    subscribers: 2,
    queue: 8,
};

/// Publishes all records, each of which is full of its number.
fn publish(rt: &impl Wait, publisher: &mut Publisher<'_, Vec<u64>>) {
    for number in 0..RECORDS {
        let mut loan = publisher.loan_waiting(rt);
        loan.value.fill(number);
        publisher.publish(loan);
    }
}

/// Reads all records, and leaves: how many came until one was torn, or not the next one. None where one could not be read.
fn read(rt: &impl Wait, mut subscriber: Subscriber<'_, Vec<u64>>) -> Option<u64> {
    let mut whole = 0;
    for number in 0..RECORDS {
        let sample = subscriber.receive_waiting(rt);
        let is_whole = match subscriber.read(&sample) {
            Ok(reading) => Some(reading.get().iter().all(|word| *word == number)),
            Err(_) => None,
        };
        subscriber.give_back(sample);
        if !is_whole? {
            break;
        }
        whole = number + 1;
    }
    subscriber.leave(rt).ok()?;
    Some(whole)
}

/// How many records each of the two read, and how many slots are out then.
fn hear<R: Threads + Wait + Sync>(
    rt: &R,
    publisher: &mut Publisher<'_, Vec<u64>>,
) -> Option<(u64, u64, usize)> {
    let one = publisher.subscribe(rt, OwnerId::new(1).ok()?).ok()?;
    let other = publisher.subscribe(rt, OwnerId::new(2).ok()?).ok()?;
    let ((first, second), _) = thread::join(
        rt,
        move || thread::join(rt, move || read(rt, one), move || read(rt, other)),
        || publish(rt, publisher),
    );
    publisher.update(rt);
    Some((first?, second?, publisher.borrowed()))
}

/// The same on a new bus. None where there is no memory, or one could not subscribe, read or leave.
fn run<R: Threads + Wait + Sync>(rt: &R, alloc: Global) -> Option<(u64, u64, usize)> {
    let mut records = Vec::new(alloc);
    for _ in 0..SIZES.slots + 1 {
        records.push(vec![in alloc; 0; 64].ok()?).ok()?;
    }
    let Ok((mut bus, pass)) = Bus::new(alloc, SIZES) else {
        return None;
    };
    let mut publisher = bus.publisher(rt, alloc, pass, records).ok()?;
    hear(rt, &mut publisher)
}

/// Publishes all records, and prints how many each subscriber read, and how many slots are out.
pub fn report<R: Threads + Wait + Print + Sync>(rt: &R, alloc: Global) -> io::Result<()> {
    match run(rt, alloc) {
        Some((one, other, out)) => println!(rt;
            "records read: {one} and {other}; slots out: {out}"
        ),
        None => println!(rt; "no memory"),
    }
}
