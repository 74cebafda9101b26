//! The examples that README.md, CALLING.md and the doc comments show, as tests, and values whose impls
//! `bin/words` writes.
#![tactic(auto)]

#[cfg(test)]
mod fields;
#[cfg(test)]
mod handles;
#[cfg(test)]
mod one_caller;
#[cfg(test)]
mod percent;
#[cfg(test)]
mod readme;
#[cfg(test)]
mod roles;
#[cfg(test)]
mod span;
#[cfg(test)]
mod structures;
