//! Numbers as pairs, of which a torn one is told from each that was written.

/// A pair of two numbers, of which the second is the complement of the first in each value that is pushed.
pub type Pair = (u64, u64);

/// A number that a torn value stands for.
pub const TORN: u64 = u64::MAX;

/// The pair of a number.
pub fn pair_of(number: u64) -> Pair {
    (number, !number)
}

/// The number of a pair, or `TORN` if the halves do not belong together.
pub fn number_of_pair(pair: Pair) -> u64 {
    if pair.1 == !pair.0 { pair.0 } else { TORN }
}
