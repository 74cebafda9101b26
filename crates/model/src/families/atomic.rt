//! The single value, which one producer stores and anyone loads: its calls by name, and what stands in the files beside
//! this one.
pub mod calls;

/// The least and the greatest capacity: there is one value.
pub const CAPACITIES: (u64, u64) = (1, 1);

/// A call of the single value by its name and arguments.
#[derive(Clone, Copy, PartialEq, Eq)]
pub enum AtomicStart<T> {
    AcquireProducer,
    ReleaseProducer,
    /// Only the holder of the producer's role stores.
    Store(T),
    Load,
    /// Asks whether a party holds the producer's role.
    HasProducer,
    /// Asks for the version, which each store makes greater by 1.
    Version,
}
