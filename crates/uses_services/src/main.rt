//! Seven programs of a user, each in a module that stands by itself, with what it needs of `specs` and `proofs`. All run in turn.
#![tactic(auto)]

mod counters;
mod images;
mod jobs;
mod pool;
mod records;
mod registry;
mod sensor;

use std::io;

/// Runs all seven programs.
fn main(rt: HostRuntime) -> io::Result<()> {
    jobs::report(&rt, rt.alloc())?;
    sensor::report(&rt, rt.alloc())?;
    pool::report(&rt, rt.alloc())?;
    counters::report(&rt, rt.alloc())?;
    images::report(&rt, rt.alloc())?;
    records::report(&rt, rt.alloc())?;
    registry::report(&rt, rt.alloc())
}
