//! Tests of the bus of `zero_copy_bus`, for what no clause says. They are rows of steps in one thread, runs
//! of two and of four threads, and the program that BUS.md shows.
#![tactic(auto)]

#[cfg(test)]
mod example;
#[cfg(test)]
mod lanes;
#[cfg(test)]
mod limit;
#[cfg(test)]
mod rejoins;
#[cfg(test)]
mod rooms;
#[cfg(test)]
mod stage;
#[cfg(test)]
mod threads;
#[cfg(test)]
mod turns;
#[cfg(test)]
mod waits;
#[cfg(test)]
mod words;
