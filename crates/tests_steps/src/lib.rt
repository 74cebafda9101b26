//! Calls of `steps`, driven alone over a list of words, and the small items of that crate. The texts of
//! `tests_scripts` play calls of whole machines. Only these tests compare a call taken by value with
//! the same call taken in place, count steps at values of one, two, three and 128 words, and look into
//! a call that is stopped.
#![tactic(auto)]

#[cfg(test)]
mod container;
#[cfg(test)]
mod drive;
#[cfg(test)]
mod driven;
#[cfg(test)]
mod queues;
#[cfg(test)]
mod rows;
#[cfg(test)]
mod small;
#[cfg(test)]
mod values;
