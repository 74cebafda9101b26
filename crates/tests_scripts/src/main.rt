//! Plays calls over written words: the calls of a machine without its rules. The first line of standard input
//! is that of a schedule. Each later line is a turn of a schedule, or writes words, or asks what a call that
//! is stopped would do next. What comes of each line is printed below its number. `tests/rows` makes the
//! lines of blocks with the head `bare`, and says what has to come. After the argument `checks` it prints
//! whether runs and machines are right where no text says so.
#![tactic(auto)]

mod bare;
mod calls;
mod failures;
mod lists;
mod seats;
mod sizes;
mod three;
mod wrong;

use bare::play;
use schedule::input::whole_input;
use schedule::output::put;
use schedule::pen::Pen;
use seats::Seats;
use std::alloc::Global;
use std::io::{Read, Write};
use std::process::ExitCode;
use std::{env, io, str};

/// Makes the checks that no text can say, and prints a line for each, with `true` where it holds.
fn check(rt: &impl Print, alloc: Global) -> io::Result<()> {
    let reads = failures::reads_end_right(alloc).unwrap_or(false);
    println!(rt; "reads that fail or are interrupted: {reads}")?;
    println!(rt; "writes: {}", failures::writes_end_right(alloc))?;
    println!(rt; "what is told of a run: {}", failures::are_told(alloc))?;
    println!(rt;
        "calls that a kind does not have: {}",
        wrong::are_refused(alloc)
    )?;
    println!(rt; "the numbers of refusals: {}", wrong::have_numbers())?;
    println!(rt; "lists of turns: {}", lists::are_taken(alloc))?;
    println!(rt; "values of three words: {}", three::of_three_words(alloc))?;
    println!(rt;
        "values of one word, two and 128: {}",
        sizes::of_three_sizes(alloc)
    )
}

/// Reads all lines, plays them, and prints what comes of them. It returns the exit status: 0, 1 where
/// reading, writing or memory failed, and 2 where the first line opens nothing.
fn run<R: Read, W: Write>(alloc: Global, reader: &mut R, writer: &mut W) -> u8 {
    let Ok(input) = whole_input(alloc, reader) else {
        return 1;
    };
    let Ok(text) = str::from_utf8(&input) else {
        return 2;
    };
    let mut pen = Pen::new(alloc);
    let is_read = play(alloc, Seats::new(alloc), text, &mut pen).is_some();
    let Ok(printed) = pen.done() else {
        return 1;
    };
    if put(writer, printed.as_bytes()).is_err() {
        return 1;
    }
    if is_read { 0 } else { 2 }
}

/// With an argument it makes the checks, and otherwise it plays the lines of standard input.
fn main(rt: HostRuntime) -> io::Result<ExitCode> {
    if env::args(&rt)?.len() > 1 {
        check(&rt, rt.alloc())?;
        return Ok(ExitCode::SUCCESS);
    }
    let exit = run(rt.alloc(), &mut rt.stdin(), &mut rt.stdout());
    Ok(ExitCode::from(exit))
}
