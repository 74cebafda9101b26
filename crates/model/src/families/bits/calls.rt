//! The calls of the bit sets under way.
use steps::bits::bit_set::{ResetNext, Set};
use steps::bits::counting_bit_set;
use steps::bits::looks::{Count, IsSet};
use steps::bits::reset_all::ResetAll;
use steps::copied::OneWord;
use steps::routine::Running;

/// A call of a bit set or of a counting bit set under way.
#[derive(Drop)]
pub enum BitsFlight {
    Set(Running<Set, u64, ()>),
    ResetNext(Running<ResetNext, (), ()>),
    ResetAll(Running<ResetAll, (), OneWord>),
    /// `set` of a counting bit set.
    Count(Running<counting_bit_set::Set, u64, ()>),
    /// `reset_all` of a counting bit set.
    TakeAll(Running<ResetAll, (), OneWord>),
    IsSet(Running<IsSet, u64, ()>),
    /// `count` of a counting bit set.
    CountOf(Running<Count, u64, ()>),
}
