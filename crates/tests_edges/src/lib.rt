//! Tests of the threaded types that no script of `tests_forms` can play. They are about types that may cross
//! threads, memory that is refused (`bin/try-memory`) or freed, closures that capture, a state that outlives
//! its container, and what the ends of a queue tell of it.
#![tactic(auto)]

#[cfg(test)]
mod closes;
#[cfg(test)]
mod closures;
#[cfg(test)]
mod crossing;
#[cfg(test)]
mod freed;
#[cfg(test)]
mod loans;
#[cfg(test)]
mod openings;
#[cfg(test)]
mod plain_containers;
#[cfg(test)]
mod states;
#[cfg(test)]
mod tells;
