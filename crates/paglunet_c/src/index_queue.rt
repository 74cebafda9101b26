//! The index queue, after `IndexQueue` of the Rust crate: one producer and one consumer, and numbers of 64 bits.
ghost use Rattle.std.specs.Prelude.{◌≡◌, None, IsSome};
ghost use Rattle.paglunet_c.specs.IndexQueue.{Makes, Splits, AcquiresProducer, AcquiresConsumer, Releases, Pushes, Pops, Peeks, TellsCapacity};

use crate::handle::Handle;
use crate::held::Held;
use crate::loose::Loose;
use crate::status;
use lock_free_queues::spsc::index_queue::IndexQueue;
use std::alloc::Global;

/// Makes a queue for at most `capacity` numbers, and fills an empty handle with a pass of it. It answers OK, or, with the
/// handle still empty, PROVIDED_CAPACITY_GREATER_THAN_MAX_CAPACITY for a capacity above 2^32 - 1, or NO_MEMORY.
#[unsafe(no_mangle)]
pub extern "C" fn paglunet_index_queue_new(
    alloc: Global,
    capacity: usize,
    queue: &mut Handle,
) -> u32
    requires { queue.old.held ≡ None }
    ensures { Makes capacity result queue.new.held }
{
    match IndexQueue::new(alloc, capacity) {
        Ok((_queue, pass)) => match Box::new(alloc, Held::IndexPass(pass)) {
            Ok(held) => {
                queue.put(Loose::of(held));
                status::OK
            }
            Err(_) => status::NO_MEMORY,
        },
        Err(error) => status::of_creation(error),
    }
}

/// Fills an empty handle with a further pass of the queue. It answers OK, NO_MEMORY or WRONG_HANDLE, and then the other
/// handle is still empty. At most one atomic step.
#[unsafe(no_mangle)]
pub extern "C" fn paglunet_index_queue_split(
    alloc: Global,
    queue: &mut Handle,
    other: &mut Handle,
) -> u32
    requires full { IsSome queue.old.held }
    requires empty { other.old.held ≡ None }
    ensures { Splits result queue.old.held queue.new.held other.new.held }
{
    let mut held = queue.take(alloc).into_box();
    let status = match &mut *held {
        Held::IndexPass(pass) => match pass.split() {
            Some(further) => match Box::new(alloc, Held::IndexPass(further)) {
                Ok(further) => {
                    other.put(Loose::of(further));
                    status::OK
                }
                Err(_) => status::NO_MEMORY,
            },
            None => status::NO_MEMORY,
        },
        _ => status::WRONG_HANDLE,
    };
    queue.put(Loose::of(held));
    status
}

/// Gives the handle's pass the producer's role. It answers OK, TAKEN or WRONG_HANDLE. At most one atomic step.
#[unsafe(no_mangle)]
pub extern "C" fn paglunet_index_queue_acquire_producer(alloc: Global, queue: &mut Handle) -> u32
    requires { IsSome queue.old.held }
    ensures { AcquiresProducer result queue.old.held queue.new.held }
{
    let mut held = queue.take(alloc).into_box();
    let (next, status) = match Box::replace(&mut held, Held::Nothing) {
        Held::IndexPass(pass) => match pass.acquire_producer() {
            Ok(producer) => (Held::IndexProducer(producer), status::OK),
            Err(pass) => (Held::IndexPass(pass), status::TAKEN),
        },
        other => (other, status::WRONG_HANDLE),
    };
    drop(Box::replace(&mut held, next));
    queue.put(Loose::of(held));
    status
}

/// Gives the handle's pass the consumer's role. It answers OK, TAKEN or WRONG_HANDLE. At most one atomic step.
#[unsafe(no_mangle)]
pub extern "C" fn paglunet_index_queue_acquire_consumer(alloc: Global, queue: &mut Handle) -> u32
    requires { IsSome queue.old.held }
    ensures { AcquiresConsumer result queue.old.held queue.new.held }
{
    let mut held = queue.take(alloc).into_box();
    let (next, status) = match Box::replace(&mut held, Held::Nothing) {
        Held::IndexPass(pass) => match pass.acquire_consumer() {
            Ok(consumer) => (Held::IndexConsumer(consumer), status::OK),
            Err(pass) => (Held::IndexPass(pass), status::TAKEN),
        },
        other => (other, status::WRONG_HANDLE),
    };
    drop(Box::replace(&mut held, next));
    queue.put(Loose::of(held));
    status
}

/// Gives the handle's role back, and its pass stays. It answers OK or WRONG_HANDLE. At most one atomic step.
#[unsafe(no_mangle)]
pub extern "C" fn paglunet_index_queue_release(alloc: Global, queue: &mut Handle) -> u32
    requires { IsSome queue.old.held }
    ensures { Releases result queue.old.held queue.new.held }
{
    let mut held = queue.take(alloc).into_box();
    let (next, status) = match Box::replace(&mut held, Held::Nothing) {
        Held::IndexProducer(producer) => (Held::IndexPass(producer.release()), status::OK),
        Held::IndexConsumer(consumer) => (Held::IndexPass(consumer.release()), status::OK),
        other => (other, status::WRONG_HANDLE),
    };
    drop(Box::replace(&mut held, next));
    queue.put(Loose::of(held));
    status
}

/// Appends a number. It answers OK, FULL or WRONG_HANDLE. At most 4 atomic steps.
#[unsafe(no_mangle)]
pub extern "C" fn paglunet_index_queue_push(alloc: Global, producer: &mut Handle, value: u64) -> u32
    requires { IsSome producer.old.held }
    ensures { Pushes value result producer.old.held producer.new.held }
{
    let mut held = producer.take(alloc).into_box();
    let status = match &mut *held {
        Held::IndexProducer(end) => {
            if end.push(value) {
                status::OK
            } else {
                status::FULL
            }
        }
        _ => status::WRONG_HANDLE,
    };
    producer.put(Loose::of(held));
    status
}

/// Takes the oldest number, and writes it to `value` if it answers OK. It answers OK, EMPTY or WRONG_HANDLE. At most 4
/// atomic steps.
#[unsafe(no_mangle)]
pub extern "C" fn paglunet_index_queue_pop(
    alloc: Global,
    consumer: &mut Handle,
    value: &mut u64,
) -> u32
    requires { IsSome consumer.old.held }
    ensures { Pops value.new result consumer.old.held consumer.new.held }
{
    let mut held = consumer.take(alloc).into_box();
    let status = match &mut *held {
        Held::IndexConsumer(end) => match end.pop() {
            Some(popped) => {
                *value = popped;
                status::OK
            }
            None => status::EMPTY,
        },
        _ => status::WRONG_HANDLE,
    };
    consumer.put(Loose::of(held));
    status
}

/// Writes the oldest number, which stays, to `value` if it answers OK. It answers OK, EMPTY or WRONG_HANDLE. At most 3
/// atomic steps.
#[unsafe(no_mangle)]
pub extern "C" fn paglunet_index_queue_peek(
    alloc: Global,
    consumer: &mut Handle,
    value: &mut u64,
) -> u32
    requires { IsSome consumer.old.held }
    ensures { Peeks value.new result consumer.old.held consumer.new.held }
{
    let mut held = consumer.take(alloc).into_box();
    let status = match &mut *held {
        Held::IndexConsumer(end) => match end.peek() {
            Some(oldest) => {
                *value = oldest;
                status::OK
            }
            None => status::EMPTY,
        },
        _ => status::WRONG_HANDLE,
    };
    consumer.put(Loose::of(held));
    status
}

/// Writes the queue's capacity to `capacity` if it answers OK. It answers OK, or WRONG_HANDLE for a handle with a role. No
/// atomic step.
#[unsafe(no_mangle)]
pub extern "C" fn paglunet_index_queue_capacity(
    alloc: Global,
    queue: &mut Handle,
    capacity: &mut usize,
) -> u32
    requires { IsSome queue.old.held }
    ensures { TellsCapacity capacity.new result queue.old.held queue.new.held }
{
    let mut held = queue.take(alloc).into_box();
    let status = match &mut *held {
        Held::IndexPass(pass) => {
            *capacity = pass.capacity();
            status::OK
        }
        _ => status::WRONG_HANDLE,
    };
    queue.put(Loose::of(held));
    status
}
