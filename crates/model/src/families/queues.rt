//! The queues: their calls by name, who holds their roles, and what stands in the files beside this one.
pub mod calls;
pub mod effects;

/// The least and the greatest capacity of a queue.
pub const CAPACITIES: (u64, u64) = (0, u32::MAX as u64);

/// Which queue it is.
#[derive(Clone, Copy)]
pub enum QueueKind {
    IndexQueue,
    /// The overflowing queue of indices.
    Overflow,
    /// The bounded queue of the machine's own values.
    Queue,
}

/// A call of a queue by its name and arguments. Which of the pushes a kind has depends on its values.
#[derive(Clone, Copy, PartialEq, Eq)]
pub enum QueueStart<T> {
    AcquireProducer,
    ReleaseProducer,
    AcquireConsumer,
    ReleaseConsumer,
    /// Of a number, in the queues of indices.
    PushIndex(u64),
    /// Of a value of the machine's own type.
    Push(T),
    Pop,
    /// Asks for the oldest value, which stays. The overflowing queue has no such call. Only the holder of the consumer's
    /// role asks.
    Peek,
    /// Asks whether a party holds the producer's role.
    HasProducer,
    /// Asks whether a party holds the consumer's role.
    HasConsumer,
    Len,
    IsEmpty,
    IsFull,
}

/// The parties that hold the roles: from the end of an acquire that answers true to the end of the giving back.
#[derive(Clone, Copy)]
pub struct Roles {
    pub producer: Option<u32>,
    pub consumer: Option<u32>,
}
