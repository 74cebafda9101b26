//! Tests of streams with an end, over a queue (`uses_streams`) and over slots (`zero_copy_streams`). Others
//! are of calls of a queue's ends that wait, make a number of tries, or push or pop many values.
#![tactic(auto)]

#[cfg(test)]
mod queue_ends;
#[cfg(test)]
mod slots;
#[cfg(test)]
mod streams;
#[cfg(test)]
mod structs;
#[cfg(test)]
pub mod twins;
