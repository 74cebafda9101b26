//! Times threaded calls against the same steps written by hand, or against what a user would take instead,
//! and prints a table. The first argument is what the name of a row begins with, or `all`; without one it
//! times nothing. With a second one, `together`, it times the rows in which several threads make the calls at
//! once. `bus` prints a table of its own, of records that go from one end to another. `bin/bench` builds it
//! and runs it.
#![tactic(auto)]

mod bits;
mod bus;
mod container;
mod hand;
mod looks;
mod queues;
mod robust;
mod timing;
mod unique;
mod value;

use std::alloc::Global;
use std::sync::Wait;
use std::thread::Threads;
use std::time::CpuClock;
use std::{env, io};
use timing::Asked;

/// Prints the rows that are asked for, at these capacities. The single value, which has no
/// capacity, has its rows once.
fn print_rows<R: Wait + Threads + CpuClock + Print + Sync>(
    rt: &R,
    alloc: Global,
    asked: &Asked<'_>,
    capacities: &[u32],
) -> Option<()> {
    value::rows(rt, alloc, asked, 1)?;
    for capacity in capacities.iter() {
        queues::rows(rt, alloc, asked, *capacity)?;
        bits::rows(rt, alloc, asked, *capacity)?;
        unique::rows(rt, alloc, asked, *capacity)?;
        robust::rows(rt, alloc, asked, *capacity)?;
        container::rows(rt, alloc, asked, *capacity)?;
        looks::rows(rt, alloc, asked, *capacity)?;
    }
    Some(())
}

/// Reads the arguments, and prints the table that they ask for.
fn main(rt: HostRuntime) -> io::Result<()> {
    let mut args = env::args(&rt)?;
    let _program = args.next();
    let Some(beginning) = args.next() else {
        return println!(rt;
            "bench: what does the name of a row begin with? `all` is every row, `bus` the table of the bus"
        );
    };
    if beginning.as_str() == "bus" {
        return bus::print_table(&rt, rt.alloc());
    }
    println!(rt; "| call | capacity | driven, ns | beside | ns | ratio |")?;
    println!(rt; "|---|---|---|---|---|---|")?;
    let asked = Asked {
        beginning: beginning.as_str(),
        together: args.next().is_some(),
    };
    let printed = if asked.together {
        print_rows(&rt, rt.alloc(), &asked, &[64])
    } else {
        print_rows(&rt, rt.alloc(), &asked, &[8, 64, 1024, 10_000])
    };
    match printed {
        Some(()) => Ok(()),
        None => println!(rt; "no memory, no further pass or no clock"),
    }
}
