//! Numbers that go into a queue, of which one waits when it is closed: what comes of it is proved from contracts alone.

ghost use Rattle.std.specs.Prelude.{◌≡◌, Some, None, IfOk};

use lock_free::mpmc::unique_index_set_enums::UniqueIndexCreationError;
use lock_free::spsc::index_queue::IndexQueue;
use std::alloc::Global;
use std::io;
use thiserror::Error;

/// Why the program did not get to its end.
#[derive(Debug, Drop, Error)]
pub enum ClosingError {
    #[error("not made: {0}")]
    NotMade(#[from] UniqueIndexCreationError),
    #[error("no further pass")]
    NoPass,
    #[error("another has the role")]
    Taken,
    #[error("no room")]
    Full,
    #[error("nothing waits")]
    Empty,
}

/// What was popped of the shared queue, and then of the sequential queue that its `close` returns.
#[derive(Drop)]
pub struct Popped {
    pub shared: u64,
    pub first: Option<u64>,
    pub second: Option<u64>,
}

/// Pushes 1 and 2, pops, closes the queue and pops twice more: 1 comes, then 2, which waited in the end, and nothing
/// else did.
pub fn push_pop_and_close(alloc: Global) -> Result<Popped, ClosingError>
    ensures { IfOk result (λ p. (p.shared ≡ 1) × (p.first ≡ Some 2) × (p.second ≡ None)) }
{
    let (queue, mut mine) = IndexQueue::new(alloc, 4)?;
    let other = mine.split().ok_or(ClosingError::NoPass)?;
    let Ok(mut producer) = queue.acquire_producer(mine) else {
        return Err(ClosingError::Taken);
    };
    if !producer.push(1) {
        return Err(ClosingError::Full);
    }
    if !producer.push(2) {
        return Err(ClosingError::Full);
    }
    let Ok(mut consumer) = queue.acquire_consumer(other) else {
        return Err(ClosingError::Taken);
    };
    let Some(shared) = consumer.pop() else {
        return Err(ClosingError::Empty);
    };
    let mut pass = producer.release();
    pass.join(consumer.release());
    let mut list = queue.close(pass)?;
    let first = list.pop();
    let second = list.pop();
    Ok(Popped {
        shared,
        first,
        second,
    })
}

/// Closes a queue in which one waits, and prints what was popped before and after.
pub fn report(rt: &impl Print, alloc: Global) -> io::Result<()> {
    match push_pop_and_close(alloc) {
        Ok(popped) => println!(rt;
            "popped {}; once it was closed {:?}, then {:?}",
            popped.shared, popped.first, popped.second
        ),
        Err(error) => println!(rt; "{error}"),
    }
}
