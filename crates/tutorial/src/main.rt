//! The program of the tutorial, a file for each step.
#![tactic(auto)]

mod alone;
mod offers;
mod threads;
mod waits;

use std::io;

fn main(rt: HostRuntime) -> io::Result<()> {
    let alloc = rt.alloc();
    println!(rt; "alone: {:?}", alone::push_and_pop(alloc))?;
    println!(rt; "between threads: {:?}", threads::cross(&rt, alloc, 1000))?;
    println!(rt; "offered: {:?}", offers::fill(alloc))?;
    println!(rt; "waited: {:?}", waits::push_two(&rt, alloc))?;
    Ok(())
}
