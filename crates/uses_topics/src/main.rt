//! A bus of `zero_copy_bus` at work: first step by step in one thread, then two buses between threads, of which one thread
//! reads both as it is told of news.
#![tactic(auto)]

mod error;
mod topics;
mod walk;

use std::io;

fn main(rt: HostRuntime) -> io::Result<()> {
    walk::report(&rt, rt.alloc())?;
    topics::report(&rt, rt.alloc())
}
