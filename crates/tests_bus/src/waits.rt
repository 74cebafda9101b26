//! A subscriber waits for a publisher that comes late, and a publisher waits until a slot comes back. Both
//! wait by calls that have no limit, and by calls with a limit of tries.
use crate::limit::{TURNS, wait_and_rest, wait_for};
use crate::stage::{Failure, some};
use crate::words::{Words, spares};
use lock_free::mpmc::container::OwnerId;
use std::alloc::Global;
use std::sync::Wait;
use std::sync::atomic::{AtomicU64, Ordering};
use std::test::Fail;
use std::thread;
use std::thread::Threads;
use zero_copy_bus::bus::{Bus, Sizes};
use zero_copy_bus::publisher::Publisher;
use zero_copy_bus::subscriber::Subscriber;

/// The sizes of a bus on which both slots may wait in the queue.
const SIZES: Sizes = Sizes {
    slots: 2,
    subscribers: 1,
    queue: 2,
};

/// Publishes the records 0, 1 and 2 once the subscriber is about to wait. Before the third loan, which has to
/// wait until a slot comes back, it tells so by `loans`. False where the subscriber does not come, or a
/// record is not served to it.
fn publish_late(
    rt: &impl Wait,
    publisher: &mut Publisher<'_, Words>,
    receives: &AtomicU64,
    loans: &AtomicU64,
) -> bool {
    let mut right = wait_for(receives, 1);
    for at in 0..3u64 {
        if at == 2 {
            loans.store(1, Ordering::SeqCst);
        }
        let loan = publisher.loan_waiting(rt);
        right &= publisher.publish(loan) == 1;
    }
    right
}

/// Tells by `receives` that it is about to wait, receives two records, and keeps both until the publisher is
/// about to wait for a slot. Then it gives the first one back, and receives the third. It returns whether the
/// records have the numbers 0, 1 and 2, and the third lies in the slot of the first.
fn receive_early(
    rt: &impl Wait,
    subscriber: &mut Subscriber<'_, Words>,
    receives: &AtomicU64,
    loans: &AtomicU64,
) -> bool {
    receives.store(1, Ordering::SeqCst);
    let first = subscriber.receive_waiting(rt);
    let second = subscriber.receive_waiting(rt);
    let mut right = wait_for(loans, 1);
    let slot = first.slot();
    right &= first.number() == 0 && second.number() == 1 && second.slot() != slot;
    right &= subscriber.give_back(first);
    let third = subscriber.receive_waiting(rt);
    right &= third.number() == 2 && third.slot() == slot;
    right &= subscriber.give_back(second);
    right & subscriber.give_back(third)
}

/// Runs the publisher and the subscriber in two threads, and says whether both went well. `join` calls its
/// first closure last where no thread can be made.
fn run<R: Threads + Wait + Sync>(
    rt: &R,
    publisher: &mut Publisher<'_, Words>,
    subscriber: &mut Subscriber<'_, Words>,
) -> bool {
    let (receives, loans) = (AtomicU64::new(0), AtomicU64::new(0));
    let (receives, loans) = (&receives, &loans);
    let (has_received, has_published) = thread::join(
        rt,
        move || receive_early(rt, subscriber, receives, loans),
        move || publish_late(rt, publisher, receives, loans),
    );
    has_received && has_published
}

/// Makes a bus with two slots, its publisher and a subscriber of this owner, and runs `run` on it.
fn run_anew<R: Threads + Wait + Sync>(
    rt: &R,
    alloc: Global,
    owner: OwnerId,
) -> Result<bool, Failure> {
    let (mut bus, pass) = Bus::new(alloc, SIZES)?;
    let records = spares(alloc, SIZES.slots + 1, 1)?;
    let mut publisher = bus.publisher(rt, alloc, pass, records)?;
    let mut subscriber = some(publisher.subscribe(rt, owner).ok())?;
    Ok(run(rt, &mut publisher, &mut subscriber))
}

/// A call that waits ends as soon as what it waits for is there. If it missed that, the test would not end.
#[test]
fn who_waits_gets_what_comes(rt: HostRuntime) -> Result<(), Fail> {
    assert!(rt; run_anew(&rt, rt.alloc(), OwnerId::new(1)?)?);
    Ok(())
}

/// The sizes of a bus with one slot, so that publisher and subscriber take turns.
const ONE_SLOT: Sizes = Sizes {
    slots: 1,
    subscribers: 1,
    queue: 1,
};

/// How many records go through the one slot.
const ROUNDS: u64 = 32;

/// Publishes `ROUNDS` records through the one slot, by tries. The subscriber gives the slot back some turns
/// after the publisher has begun to try for a loan, and the publisher publishes some turns after the
/// subscriber has begun to try. It returns how many records it published; fewer than `ROUNDS` where a wait
/// reached its limit.
fn publish_in_turn(
    rt: &impl Wait,
    publisher: &mut Publisher<'_, Words>,
    receives: &AtomicU64,
    loans: &AtomicU64,
) -> u64 {
    for number in 0..ROUNDS {
        loans.store(number, Ordering::SeqCst);
        let Some(loan) = publisher.loan_within(rt, TURNS) else {
            return number;
        };
        if !wait_and_rest(receives, number.wrapping_add(1)) {
            return number;
        }
        publisher.publish(loan);
    }
    loans.store(ROUNDS, Ordering::SeqCst);
    ROUNDS
}

/// Receives `ROUNDS` records by tries, each published some turns after the tries have begun. It gives a
/// record back some turns after the publisher has begun to try for a loan. It returns how many records came
/// in order before one did not come, had another number, or a wait reached its limit.
fn receive_in_turn(
    rt: &impl Wait,
    subscriber: &mut Subscriber<'_, Words>,
    receives: &AtomicU64,
    loans: &AtomicU64,
) -> u64 {
    for number in 0..ROUNDS {
        receives.store(number.wrapping_add(1), Ordering::SeqCst);
        let Some(sample) = subscriber.receive_within(rt, TURNS) else {
            return number;
        };
        let is_right = sample.number() == number && wait_and_rest(loans, number.wrapping_add(1));
        subscriber.give_back(sample);
        if !is_right {
            return number;
        }
    }
    ROUNDS
}

/// Runs `publish_in_turn` and `receive_in_turn` in two threads, and says whether all records
/// went out and came in.
fn run_in_turn<R: Threads + Wait + Sync>(
    rt: &R,
    publisher: &mut Publisher<'_, Words>,
    subscriber: &mut Subscriber<'_, Words>,
) -> bool {
    let (receives, loans) = (AtomicU64::new(0), AtomicU64::new(0));
    let (receives, loans) = (&receives, &loans);
    let (received, published) = thread::join(
        rt,
        move || receive_in_turn(rt, subscriber, receives, loans),
        move || publish_in_turn(rt, publisher, receives, loans),
    );
    received == ROUNDS && published == ROUNDS
}

/// Makes a bus with one slot, its publisher and a subscriber of this owner, and runs `run_in_turn` on it.
fn run_in_turn_anew<R: Threads + Wait + Sync>(
    rt: &R,
    alloc: Global,
    owner: OwnerId,
) -> Result<bool, Failure> {
    let (mut bus, pass) = Bus::new(alloc, ONE_SLOT)?;
    let records = spares(alloc, ONE_SLOT.slots + 1, 1)?;
    let mut publisher = bus.publisher(rt, alloc, pass, records)?;
    let mut subscriber = some(publisher.subscribe(rt, owner).ok())?;
    Ok(run_in_turn(rt, &mut publisher, &mut subscriber))
}

/// A call with a limit of tries looks anew at each try, so it finds what comes after its first try. A call
/// that looked only once would return None here.
#[test]
fn each_try_looks_anew(rt: HostRuntime) -> Result<(), Fail> {
    assert!(rt; run_in_turn_anew(&rt, rt.alloc(), OwnerId::new(1)?)?);
    Ok(())
}
