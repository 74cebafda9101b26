//! The bit sets and the counting bit sets: their calls by name, and what stands in the files beside this one.
pub mod calls;

/// The least and the greatest capacity of a bit set and of a counting bit set.
pub const CAPACITIES: (u64, u64) = (0, u32::MAX as u64);

/// A call of a bit set or of a counting bit set by its name and arguments.
#[derive(Clone, Copy, PartialEq, Eq)]
pub enum BitsStart {
    /// Sets the bit, or adds 1 to the count of the place.
    Set(u64),
    /// Resets the next bit that stands. A counting bit set has no such call.
    ResetNext,
    /// Clears all bits, or takes out all counts.
    ResetAll,
    /// Asks whether the bit stands. A counting bit set has no such call.
    IsSet(u64),
    /// Asks for the count of the place. A bit set has no such call.
    Count(u64),
}
