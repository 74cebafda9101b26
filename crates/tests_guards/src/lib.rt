//! Tests of `lock_free_guards` for what no clause says, in one thread and between two. They are about guards
//! of indices with owners, the recovery of one owner, acquires that wait, and splits in many.
#![tactic(auto)]

#[cfg(test)]
mod robust;
#[cfg(test)]
mod shown;
#[cfg(test)]
mod splits;
#[cfg(test)]
mod threads;
#[cfg(test)]
pub mod twins;
#[cfg(test)]
mod unique;
#[cfg(test)]
mod user;
