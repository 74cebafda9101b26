//! Programs of users over `lock_free`: each module here is one, which stands by itself, with
//! its proofs in the folder of its name and the files of `specs/` and `proofs/` that it and they import. Its name as
//! the argument runs it alone; with none all run in turn.
#![tactic(auto)]

mod bells;
mod closing;
mod leases;
mod pool;
mod relay;
mod relay_overflow;
mod relay_readings;
mod shapes;

use std::alloc::Global;
use std::process::ExitCode;
use std::sync::Wait;
use std::thread::Threads;
use std::{env, io};

/// The names of the programs, in the order in which all run.
const NAMES: [&str; 8] = [
    "relay",
    "relay_overflow",
    "relay_readings",
    "bells",
    "pool",
    "leases",
    "closing",
    "shapes",
];

/// Runs the program that has this place in `NAMES`, and none where there is no such place.
fn run_at<R: Threads + Wait + Print + Sync>(
    rt: &R,
    alloc: Global,
    number: usize,
) -> io::Result<()> {
    match number {
        0 => relay::report(rt, alloc),
        1 => relay_overflow::report(rt, alloc),
        2 => relay_readings::report(rt, alloc),
        3 => bells::report(rt, alloc),
        4 => pool::report(rt, alloc),
        5 => leases::report(rt, alloc),
        6 => closing::report(rt, alloc),
        7 => shapes::report(rt, alloc),
        _ => Ok(()),
    }
}

/// Runs the program of this name, and answers whether there is one.
fn run<R: Threads + Wait + Print + Sync>(rt: &R, alloc: Global, name: &str) -> io::Result<bool> {
    for number in 0..NAMES.len() {
        if NAMES[number] == name {
            run_at(rt, alloc, number)?;
            return Ok(true);
        }
    }
    Ok(false)
}

/// Runs all programs, each below a line with its name.
fn run_all<R: Threads + Wait + Print + Sync>(rt: &R, alloc: Global) -> io::Result<()> {
    for number in 0..NAMES.len() {
        println!(rt; "== {}", NAMES[number])?;
        run_at(rt, alloc, number)?;
    }
    Ok(())
}

/// Runs the program that the first argument names, or all of them if there is none. It exits with 2 if no
/// program has that name.
fn main(rt: HostRuntime) -> io::Result<ExitCode> {
    let mut args = env::args(&rt)?;
    let _program = args.next();
    let Some(name) = args.next() else {
        run_all(&rt, rt.alloc())?;
        return Ok(ExitCode::SUCCESS);
    };
    if run(&rt, rt.alloc(), name.as_str())? {
        return Ok(ExitCode::SUCCESS);
    }
    eprintln!(rt; "clients: no program is named {name}")?;
    Ok(ExitCode::from(2))
}
