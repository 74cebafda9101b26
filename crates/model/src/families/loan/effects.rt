//! What a step of a call of a loan channel does.

/// What the next step of a call does to the channel, and whether a call acts there.
#[derive(Clone, Copy)]
pub enum Effect {
    /// Nothing that is written down.
    Quiet,
    /// The index that a loan answers is claimed, where the step ends it so.
    Claims,
    /// This index is published by its send, which acts later.
    Publishes(u32),
    /// This index is published by its send, which acts with None.
    PublishesAndActs(u32),
    /// The send of the first index hands out the second, and acts with it.
    TakesOut(u32, u64),
    /// A receive finds that nothing waits, and acts with None.
    FindsNone,
    /// A receive hands out this index, and acts with it; then the send of this other index by this party acts with None.
    Receives(u64, Option<(u32, u64)>),
    /// A reclaim hands out this index.
    HandsOut(u64),
    /// This index is given back.
    Returns(u64),
    /// This index is taken back.
    TakesBack(u64),
    /// This index is freed.
    Frees(u32),
}
