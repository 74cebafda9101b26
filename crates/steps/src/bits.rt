//! The calls of the bit sets and of the counting bit sets.
//!
//! The words of a bit set are its reset position and then its elements, each with the flags of 64
//! places: the place b is the bit b mod 64 of the element b / 64. Flags past the capacity stay clear.
//! The words of a counting bit set are its counts, one for each place.
pub mod bit_set;
pub mod counting_bit_set;
pub mod flags;
pub mod looks;
pub mod reset_all;
