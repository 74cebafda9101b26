//! A bus from one publisher to two subscribers, each in a thread of its own: what BUS.md shows.

use lock_free::mpmc::container::OwnerId;
use std::sync::Wait;
use std::test::Fail;
use std::thread;
use std::thread::Threads;
use zero_copy_bus::bus::{Bus, Sizes};
use zero_copy_bus::publisher::Publisher;
use zero_copy_bus::subscriber::Subscriber;

/// Publishes ten records, each of which is full of its number. Returns how many it published.
fn publish(rt: &impl Wait, publisher: &mut Publisher<'_, Vec<u8>>) -> u8 {
    for number in 0..10u8 {
        publisher.collect();
        let Ok(mut loan) = publisher.loan(rt) else {
            return number;
        };
        loan.value.fill(number);
        publisher.publish(loan);
    }
    10
}

/// Reads records until the last one comes. A subscriber that is slow misses the oldest.
fn receive(rt: &impl Wait, subscriber: &mut Subscriber<'_, Vec<u8>>) -> Option<u8> {
    for _ in rt.forever() {
        if let Some(sample) = subscriber.receive(rt) {
            let first = match subscriber.read(&sample) {
                Ok(reading) => reading.get().first().copied(),
                Err(_) => None,
            };
            subscriber.give_back(sample);
            if first? == 9 {
                return first;
            }
        }
    }
    None
}

/// Receives in two threads, and publishes in a third. `join` calls its first closure last where no thread can be made.
fn run<R: Threads + Wait + Sync>(
    rt: &R,
    publisher: &mut Publisher<'_, Vec<u8>>,
    one: &mut Subscriber<'_, Vec<u8>>,
    two: &mut Subscriber<'_, Vec<u8>>,
) -> ((Option<u8>, Option<u8>), u8) {
    thread::join(
        rt,
        move || thread::join(rt, move || receive(rt, one), move || receive(rt, two)),
        move || publish(rt, publisher),
    )
}

#[test]
fn one_publishes_to_two(rt: HostRuntime) -> Result<(), Fail> {
    let sizes = Sizes {
        slots: 7,
        subscribers: 2,
        queue: 2,
    };
    let (mut bus, pass) = Bus::new(rt.alloc(), sizes)?;
    let mut records = Vec::with_capacity(rt.alloc(), sizes.slots + 1)?;
    for _ in 0..sizes.slots + 1 {
        records.push(vec![in rt.alloc(); 0u8; 4096]?)?;
    }
    let mut publisher = bus.publisher(&rt, rt.alloc(), pass, records)?;
    let seat = publisher.seat().ok_or("no seat is free")?;
    let other = publisher.seat().ok_or("no seat is free")?;
    let mut one = seat.join(&rt, OwnerId::new(1)?).map_err(|_| "refused")?;
    let mut two = other.join(&rt, OwnerId::new(2)?).map_err(|_| "refused")?;
    publisher.update(&rt); // without it nobody receives anything
    let (received, published) = run(&rt, &mut publisher, &mut one, &mut two);
    assert!(rt; received == (Some(9), Some(9)) && published == 10);
    Ok(())
}
