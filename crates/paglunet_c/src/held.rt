//! What may lie behind a handle.
use lock_free_queues::spsc::index_queue;

/// A pass or a guard of a structure. Each owns all that it needs.
#[derive(Drop)]
pub enum Held {
    /// Stands for a value that a call has taken out. No call leaves it behind.
    Nothing,
    /// A pass of an index queue, with no role.
    IndexPass(index_queue::Pass),
    /// The guard of an index queue that pushes.
    IndexProducer(index_queue::Producer<'static>),
    /// The guard of an index queue that pops.
    IndexConsumer(index_queue::Consumer<'static>),
}
