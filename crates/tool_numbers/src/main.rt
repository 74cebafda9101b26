//! Sends 1,000 numbers from one thread to another through a queue that has room for eight, and prints what came.
#![tactic(auto)]

use lock_free_sp::spsc::index_queue::{Consumer, IndexQueue, Producer};
use std::sync::Wait;
use std::{io, thread};

/// Pushes the numbers below 1,000, each as soon as there is room.
fn send(rt: &impl Wait, producer: &mut Producer<'_>) -> u64 {
    let mut sent = 0;
    for _ in rt.forever() {
        if sent >= 1000 {
            break;
        }
        if producer.push(sent) {
            sent += 1;
        } else {
            thread::yield_now();
        }
    }
    sent
}

/// Pops 1,000 numbers, each as soon as it is there: how many came, and whether each was the next one.
fn receive(rt: &impl Wait, consumer: &mut Consumer<'_>) -> (u64, bool) {
    let (mut received, mut in_order) = (0, true);
    for _ in rt.forever() {
        if received >= 1000 {
            break;
        }
        if let Some(number) = consumer.pop() {
            in_order &= number == received;
            received += 1;
        }
    }
    (received, in_order)
}

fn main(rt: HostRuntime) -> io::Result<()> {
    let Ok((queue, pass)) = IndexQueue::new(rt.alloc(), 8) else {
        return println!(rt; "no memory");
    };
    let Some((mut producer, mut consumer)) = queue.ends(pass) else {
        return println!(rt; "no further pass");
    };
    let (sent, (received, in_order)) = thread::join(
        &rt,
        || send(&rt, &mut producer),
        || receive(&rt, &mut consumer),
    );
    println!(rt; "sent: {sent}, received: {received}")?;
    println!(rt; "received in the order sent: {in_order}")?;
    println!(rt; "left in the queue: {}", consumer.len(&rt))
}
