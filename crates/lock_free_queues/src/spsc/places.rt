//! The positions and the words of a queue that opens after a number of pushes and pops.
ghost use Rattle.std.specs.Prelude.{◌≡◌, ◌<◌, ◌^◌, ◌∷◌, ◌++◌, [], min, replicate, IfOk};
ghost use Rattle.lock_free_queues.specs.Queues.Opened.{position_at};

use std::alloc::{AllocError, Global};
use steps::queues::ring::{CONSUMER, FIRST_CELL, PRODUCER, READ, WRITE};

/// Returns where both positions stand at the opening. Without capacity nothing was pushed.
pub fn start_at(capacity: u32, position: u64) -> u64
    ensures { result ≡ position_at capacity position }
{
    if capacity == 0 { 0 } else { position }
}

/// Returns how many cells the pushes have used.
pub fn cells_used(capacity: u32, position: u64) -> u64
    ensures { result ≡ min position capacity }
{
    let capacity = capacity as u64;
    if position < capacity {
        position
    } else {
        capacity
    }
}

/// Returns the words of a queue that opens with both positions at `start`. Both roles are free. Behind them
/// stand `cells` zeros for the cells, and one zero more.
pub fn empty_words(alloc: Global, cells: usize, start: u64) -> Result<Vec<u64>, AllocError>
    requires { cells < 2 ^ 63 }
    ensures { IfOk result (λ words. words.items ≡ start ∷ start ∷ 1 ∷ 1 ∷ (replicate cells 0 ++ 0 ∷ [])) }
{
    let mut words = Vec::from_elem(alloc, 0u64, FIRST_CELL + cells + 1)?;
    words[WRITE] = start;
    words[READ] = start;
    words[PRODUCER] = 1;
    words[CONSUMER] = 1;
    Ok(words)
}
