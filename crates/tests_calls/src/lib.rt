//! Values for tests: of three, 16 and 128 words, and values that are made of a number so that a
//! torn one is recognized.
#![tactic(auto)]

pub mod long_values;
pub mod numbered;
