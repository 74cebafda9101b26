//! Tests of `zero_copy_slots` and of the typed loan channel and the pool of `zero_copy_loans`, for what no
//! clause says. They are rows of steps in one thread, many sizes, and runs of two threads.
#![tactic(auto)]

#[cfg(test)]
mod calls;
#[cfg(test)]
mod examples;
#[cfg(test)]
mod readers;
#[cfg(test)]
mod rooms;
#[cfg(test)]
mod sizes;
#[cfg(test)]
mod slots;
#[cfg(test)]
mod turns;
#[cfg(test)]
pub mod twins;
