//! A pipeline of three threads: a source, a worker with an inbox, and a sink. No function has a contract, and none needs a
//! proof file.

use lock_free::spsc::index_queue::{Consumer, IndexQueue, Producer};
use std::alloc::Global;
use std::sync::Wait;
use std::thread::Threads;
use std::{io, thread};

/// The number that ends a stage.
const END: u64 = u64::MAX;

/// Pushes a number as soon as there is room.
fn push_waiting(rt: &impl Wait, outbox: &mut Producer<'_>, number: u64) {
    for _ in rt.forever() {
        if outbox.push(number) {
            return;
        }
        thread::yield_now();
    }
}

/// Pops a number as soon as there is one.
fn pop_waiting(rt: &impl Wait, inbox: &mut Consumer<'_>) -> u64 {
    for _ in rt.forever() {
        if let Some(number) = inbox.pop() {
            return number;
        }
        thread::yield_now();
    }
    unreachable!()
}

/// A source: sends the numbers below `count`, and then the end.
fn produce(rt: &impl Wait, outbox: Producer<'_>, count: u64) {
    let mut outbox = outbox;
    for number in 0..count {
        push_waiting(rt, &mut outbox, number);
    }
    push_waiting(rt, &mut outbox, END);
}

/// A worker with an inbox: sends on three times each number that comes, until the end, and then the end.
fn work(rt: &impl Wait, inbox: Consumer<'_>, outbox: Producer<'_>) {
    let (mut inbox, mut outbox) = (inbox, outbox);
    for _ in rt.forever() {
        let number = pop_waiting(rt, &mut inbox);
        if number == END {
            break;
        }
        push_waiting(rt, &mut outbox, number.wrapping_mul(3));
    }
    push_waiting(rt, &mut outbox, END);
}

/// A sink: adds up what comes, until the end.
fn add_up(rt: &impl Wait, inbox: Consumer<'_>) -> u64 {
    let (mut inbox, mut sum) = (inbox, 0u64);
    for _ in rt.forever() {
        let number = pop_waiting(rt, &mut inbox);
        if number == END {
            break;
        }
        sum = sum.wrapping_add(number);
    }
    sum
}

/// Runs the source and the worker each in a thread of its own, and the sink in this one.
fn run_all<'a, 'b, R: Threads + Wait + Sync>(
    rt: &R,
    (source, inbox): (Producer<'a>, Consumer<'a>),
    (outbox, sink): (Producer<'b>, Consumer<'b>),
    count: u64,
) -> Option<u64> {
    thread::scope(thread::scope_env(), rt, |scope| {
        let first = scope.spawn(move || work(rt, inbox, outbox)).ok()?;
        let second = scope.spawn(move || produce(rt, source, count)).ok()?;
        let sum = add_up(rt, sink);
        first.join(rt);
        second.join(rt);
        Some(sum)
    })
}

/// The sum of three times each number below `count`, by a pipeline. None where there is no memory, or no thread.
fn run<R: Threads + Wait + Sync>(rt: &R, alloc: Global, count: u64) -> Option<u64> {
    let (first, pass) = IndexQueue::new(alloc, 4).ok()?;
    let (second, other) = IndexQueue::new(alloc, 4).ok()?;
    run_all(rt, first.ends(pass)?, second.ends(other)?, count)
}

/// Sends a thousand numbers through the pipeline, and prints the sum.
pub fn report<R: Threads + Wait + Print + Sync>(rt: &R, alloc: Global) -> io::Result<()> {
    match run(rt, alloc, 1000) {
        Some(sum) => println!(rt; "sum at the end of the pipeline: {sum}"),
        None => println!(rt; "no memory, or no thread"),
    }
}
