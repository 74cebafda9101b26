//! Two buses, a topic each, with a publisher in a thread of its own; a third thread subscribes to both, and looks at a bus
//! once it is told that the topic has news.
use super::error::RunError;
use lock_free::mpmc::container::OwnerId;
use std::alloc::{AllocError, Global};
use std::sync::Wait;
use std::thread::Threads;
use std::{io, thread};
use zero_copy_bus::bus::{Bus, Sizes};
use zero_copy_bus::news::{Listener, News, Notifier};
use zero_copy_bus::publisher::Publisher;
use zero_copy_bus::subscriber::{Sample, Subscriber};

/// How many records each publisher publishes.
const RECORDS: u64 = 1000;

const WORDS: usize = 64;

/// A queue has as much room as there are slots, so that nobody loses a record.
const SIZES: Sizes = Sizes {
    slots: 16,
    subscribers: 1,
    queue: 16,
};

/// Records to write, one more than there are slots.
fn spares(alloc: Global) -> Result<Vec<Vec<u64>>, AllocError> {
    let mut spares = Vec::new(alloc);
    for _ in 0..SIZES.slots + 1 {
        spares.push(vec![in alloc; 0u64; WORDS]?)?;
    }
    Ok(spares)
}

/// Publishes all records of a topic, each of which is full of its number, and tells of each.
fn publish_all(
    rt: &impl Wait,
    publisher: &mut Publisher<'_, Vec<u64>>,
    mut notifier: Notifier<'_>,
    topic: usize,
) {
    for number in 0..RECORDS {
        let mut loan = publisher.loan_waiting(rt);
        loan.value.fill(number);
        publisher.publish(loan);
        notifier.notify(rt, topic);
    }
}

/// Whether a record was published with this number, and each of its words is the same.
fn is_whole(subscriber: &Subscriber<'_, Vec<u64>>, sample: &Sample, number: u64) -> bool {
    let Ok(reading) = subscriber.read(sample) else {
        return false;
    };
    let words = reading.get();
    for word in words.iter() {
        if *word != number {
            return false;
        }
    }
    words.len() == WORDS && reading.number() == number
}

/// Reads what waits at a topic: how many records, where each is whole and the next one. None where one is not.
fn read_waiting(
    rt: &impl Wait,
    subscriber: &mut Subscriber<'_, Vec<u64>>,
    first: u64,
) -> Option<u64> {
    let mut number = first;
    for _ in 0..SIZES.queue {
        let Some(sample) = subscriber.receive(rt) else {
            break;
        };
        let is_right = is_whole(subscriber, &sample, number);
        subscriber.give_back(sample);
        if !is_right {
            return None;
        }
        number = number.checked_add(1)?;
    }
    Some(number)
}

/// What came of each topic.
#[derive(Clone, Copy)]
struct Came {
    first: u64,
    second: u64,
}

/// Reads both topics as it is told of news, until all has come.
fn read_both(
    rt: &impl Wait,
    listener: &mut Listener<'_>,
    one: &mut Subscriber<'_, Vec<u64>>,
    other: &mut Subscriber<'_, Vec<u64>>,
) -> Option<Came> {
    let (mut first, mut second) = (0, 0);
    for _ in rt.forever() {
        if first >= RECORDS && second >= RECORDS {
            break;
        }
        match listener.next(rt) {
            Some(0) => first = read_waiting(rt, one, first)?,
            Some(_) => second = read_waiting(rt, other, second)?,
            None => thread::yield_now(),
        }
    }
    Some(Came { first, second })
}

/// Reads both topics, and takes part no more.
fn listen(
    rt: &impl Wait,
    mut listener: Listener<'_>,
    mut one: Subscriber<'_, Vec<u64>>,
    mut other: Subscriber<'_, Vec<u64>>,
) -> Option<Came> {
    let came = read_both(rt, &mut listener, &mut one, &mut other)?;
    one.leave(rt).ok()?;
    other.leave(rt).ok()?;
    Some(came)
}

/// One who takes part in a topic.
fn subscribe<'a>(
    rt: &impl Wait,
    publisher: &mut Publisher<'a, Vec<u64>>,
    owner: OwnerId,
) -> Result<Subscriber<'a, Vec<u64>>, RunError> {
    let Some(seat) = publisher.seat() else {
        return Err(RunError::NoPlace);
    };
    let Ok(subscriber) = seat.join(rt, owner) else {
        return Err(RunError::NotLetIn);
    };
    publisher.update(rt);
    Ok(subscriber)
}

/// Runs all three threads: what came, or None where a record was torn or out of its order.
fn side_by_side<R: Threads + Wait + Sync>(
    rt: &R,
    one: &mut Publisher<'_, Vec<u64>>,
    other: &mut Publisher<'_, Vec<u64>>,
    first: Subscriber<'_, Vec<u64>>,
    second: Subscriber<'_, Vec<u64>>,
    tells: Notifier<'_>,
    also: Notifier<'_>,
    listener: Listener<'_>,
) -> Option<Came> {
    let (_, came) = thread::join(
        rt,
        move || thread::join(
            rt,
            move || publish_all(rt, one, tells, 0),
            move || publish_all(rt, other, also, 1),
        ),
        move || listen(rt, listener, first, second),
    );
    came
}

/// Takes part in both, and runs the threads.
fn talk_with<R: Threads + Wait + Sync>(
    rt: &R,
    one: &mut Publisher<'_, Vec<u64>>,
    other: &mut Publisher<'_, Vec<u64>>,
    tells: Notifier<'_>,
    also: Notifier<'_>,
    listener: Listener<'_>,
) -> Result<Came, RunError> {
    let owner = OwnerId::new(1)?;
    let first = subscribe(rt, one, owner)?;
    let second = subscribe(rt, other, owner)?;
    match side_by_side(rt, one, other, first, second, tells, also, listener) {
        Some(came) => Ok(came),
        None => Err(RunError::Torn),
    }
}

/// Makes the ends of the news, and runs the threads.
fn talk<R: Threads + Wait + Sync>(
    rt: &R,
    news: &mut News,
    one: &mut Publisher<'_, Vec<u64>>,
    other: &mut Publisher<'_, Vec<u64>>,
) -> Result<Came, RunError> {
    let Some((mut tells, listener)) = news.ends() else {
        return Err(RunError::NoPlace);
    };
    let Some(also) = tells.split() else {
        return Err(RunError::NoPlace);
    };
    talk_with(rt, one, other, tells, also, listener)
}

/// Says how many slots are out, once all have left.
fn tell(
    rt: &(impl Wait + Print),
    one: &mut Publisher<'_, Vec<u64>>,
    other: &mut Publisher<'_, Vec<u64>>,
) -> Result<(), RunError> {
    one.update(rt);
    other.update(rt);
    let first = one.borrowed();
    let second = other.borrowed();
    println!(rt; "slots out in the end: {first} and {second}")?;
    Ok(())
}

/// Has both publishers publish in two threads while a third thread reads both topics, and prints what came.
fn talk_and_tell<R: Threads + Wait + Print + Sync>(
    rt: &R,
    alloc: Global,
    one: &mut Publisher<'_, Vec<u64>>,
    other: &mut Publisher<'_, Vec<u64>>,
) -> Result<(), RunError> {
    let mut news = News::new(alloc, 2)?;
    let came = talk(rt, &mut news, one, other)?;
    println!(rt;
        "records that came whole and in order: {} and {}",
        came.first, came.second
    )?;
    tell(rt, one, other)
}

/// Makes the second bus.
fn run_beside<R: Threads + Wait + Print + Sync>(
    rt: &R,
    alloc: Global,
    one: &mut Publisher<'_, Vec<u64>>,
) -> Result<(), RunError> {
    let (mut bus, pass) = Bus::new(alloc, SIZES)?;
    let mut other = bus.publisher(rt, alloc, pass, spares(alloc)?)?;
    talk_and_tell(rt, alloc, one, &mut other)
}

/// Makes the first bus, and runs the rest beside its publisher.
fn run<R: Threads + Wait + Print + Sync>(rt: &R, alloc: Global) -> Result<(), RunError> {
    let (mut bus, pass) = Bus::new(alloc, SIZES)?;
    let mut one = bus.publisher(rt, alloc, pass, spares(alloc)?)?;
    run_beside(rt, alloc, &mut one)
}

/// Prints what came of the talk.
pub fn report<R: Threads + Wait + Print + Sync>(rt: &R, alloc: Global) -> io::Result<()> {
    println!(rt; "in three threads, with two topics")?;
    match run(rt, alloc) {
        Ok(()) => Ok(()),
        Err(error) => println!(rt; "{error}"),
    }
}
