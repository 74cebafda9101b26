//! Waits between threads that end where their caller says so.
#![tactic(auto)]

#[cfg(test)]
mod stops;
