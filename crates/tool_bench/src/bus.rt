//! The table of records that go through the bus of `zero_copy_bus`, through the loan channel of
//! `zero_copy_loans`, and by `Arc` through a ring. Each is compared with records that are copied through a
//! buffer under a lock.

mod by_arcs;
mod by_bus;
mod by_copy;
mod by_loans;
mod passing;

use crate::timing::{ROUNDS, median, quotient};
use by_bus::{sizes_of, spares};
use by_copy::Waiting;
use passing::{Ends, Reader, WAITING, Writer};
use std::alloc::Global;
use std::io;
use std::sync::{Mutex, Wait};
use std::time::CpuClock;
use zero_copy_bus::bus::Bus;
use zero_copy_bus::error::BusError;
use zero_copy_loans::channel::Channel;

/// What a row is about: how many words a record has, how many readers read each of them, and how many records
/// a round passes.
#[derive(Clone, Copy)]
struct Passed {
    words: usize,
    readers: usize,
    records: u64,
}

/// The sizes of the rows: how many words a record has, and how many records a round passes.
const SIZES: [(usize, u64); 5] = [
    (8, 50_000),
    (128, 20_000),
    (512, 10_000),
    (8192, 1_000),
    (131_072, 100),
];

/// Passes the records of one round. It returns the nanoseconds of the processor that this took, and the sum
/// of the words that were read. None where a record did not come, or the clock fails.
fn time<W: Writer, D: Reader, R: Wait + CpuClock>(
    rt: &R,
    ends: &mut Ends<W, D>,
    passed: &Passed,
) -> Option<(u64, u64)> {
    let start = rt.thread_cpu_time().ok()?;
    let sum = ends.pass(rt, passed.records)?;
    let taken = rt.thread_cpu_time().ok()?.saturating_sub(start).as_nanos();
    Some((u64::try_from(taken).ok()?, sum))
}

/// What the rounds of a row came to, as medians. `ours` and `copies` are records a second, by the row's own
/// way and by copies; `ratio` is the first divided by the second, in hundredths; `same` says that both ways
/// read the same words.
#[derive(Clone, Copy)]
struct Came {
    ours: u64,
    copies: u64,
    ratio: u64,
    same: bool,
}

/// Passes the records of all rounds, by the row's own way and by copies in turn. None where a record did not
/// come, or the clock fails.
fn rounds<W: Writer, D: Reader, X: Writer, Y: Reader, R: Wait + CpuClock>(
    rt: &R,
    passed: &Passed,
    ours: &mut Ends<W, D>,
    copies: &mut Ends<X, Y>,
) -> Option<Came> {
    let mut of_ours = [0u64; ROUNDS];
    let mut of_copies = [0u64; ROUNDS];
    let mut ratios = [0u64; ROUNDS];
    let mut same = true;
    for round in 0..ROUNDS {
        let (first, sum) = time(rt, ours, passed)?;
        let (second, other) = time(rt, copies, passed)?;
        same = same && sum == other;
        of_ours[round] = quotient(passed.records, first, 1_000_000_000);
        of_copies[round] = quotient(passed.records, second, 1_000_000_000);
        ratios[round] = quotient(second, first, 100);
    }
    Some(Came {
        ours: median(&of_ours),
        copies: median(&of_copies),
        ratio: median(&ratios),
        same,
    })
}

/// Passes the records of all rounds by the row's own way and by copies, which go through a new buffer under a
/// lock. None where memory is refused, a record did not come, or the clock fails.
fn rounds_beside<W: Writer, D: Reader, R: Wait + CpuClock>(
    rt: &R,
    alloc: Global,
    passed: &Passed,
    ours: &mut Ends<W, D>,
) -> Option<Came> {
    let waiting = Waiting::new(alloc, passed.words).ok()?;
    let shared = Mutex::new(waiting);
    let mut copies = by_copy::ends(alloc, &shared, passed.words, passed.readers).ok()?;
    rounds(rt, passed, ours, &mut copies)
}

/// What a row of the bus came to. None where memory is refused, a subscriber is not let in, a record did not
/// come, or the clock fails.
fn run_bus<R: Wait + CpuClock>(
    rt: &R,
    alloc: Global,
    passed: &Passed,
) -> Result<Option<Came>, BusError> {
    let (mut bus, pass) = Bus::new(alloc, sizes_of(passed.readers))?;
    let Ok(spares) = spares(alloc, passed.words) else {
        return Ok(None);
    };
    let publisher = bus.publisher(rt, alloc, pass, spares)?;
    let Some(mut ends) = by_bus::ends(rt, alloc, publisher, passed.readers) else {
        return Ok(None);
    };
    Ok(rounds_beside(rt, alloc, passed, &mut ends))
}

/// What a row of the typed loan channel came to, which has one reader.
fn run_loans<R: Wait + CpuClock>(rt: &R, alloc: Global, passed: &Passed) -> Option<Came> {
    let spares = spares(alloc, passed.words).ok()?;
    let mut channel = Channel::new(alloc, WAITING, WAITING).ok()?;
    let mut ends = by_loans::ends(alloc, &mut channel, spares)?;
    rounds_beside(rt, alloc, passed, &mut ends)
}

/// What a row of records in an `Arc` came to, which go through a ring with one reader.
fn run_arcs<R: Wait + CpuClock>(rt: &R, alloc: Global, passed: &Passed) -> Option<Came> {
    let mut ends = by_arcs::ends(alloc, passed.words).ok()?;
    rounds_beside(rt, alloc, passed, &mut ends)
}

/// Prints the line of a row: the way, the bytes of a record, the readers, and what the rounds came to.
fn print_row(rt: &impl Print, way: &str, passed: &Passed, came: Option<Came>) -> io::Result<()> {
    let Some(came) = came else {
        return println!(rt; "{way}: no memory, no clock, or no record");
    };
    let said = if came.same {
        ""
    } else {
        " not the same answers"
    };
    println!(rt;
        "| {way} | {} | {} | {} | {} | {}.{}{} |{said}",
        passed.words.saturating_mul(8),
        passed.readers,
        came.ours,
        came.copies,
        came.ratio / 100,
        came.ratio / 10 % 10,
        came.ratio % 10
    )
}

/// Prints the lines of one size of records and one number of readers. The loan channel and the ring have
/// lines for one reader only.
fn print_rows<R: Wait + CpuClock + Print>(
    rt: &R,
    alloc: Global,
    passed: &Passed,
) -> io::Result<()> {
    let by_bus = run_bus(rt, alloc, passed).unwrap_or(None);
    print_row(rt, "the bus", passed, by_bus)?;
    if passed.readers == 1 {
        print_row(rt, "the loan channel", passed, run_loans(rt, alloc, passed))?;
        print_row(rt, "Arc and rtrb", passed, run_arcs(rt, alloc, passed))?;
    }
    Ok(())
}

/// Prints the table, for each size of records with one, two and four readers.
pub fn print_table<R: Wait + CpuClock + Print>(rt: &R, alloc: Global) -> io::Result<()> {
    println!(rt;
        "| by | bytes | subscribers | this way, a second | copied through a Mutex and a Vec, a second | ratio |"
    )?;
    println!(rt; "|---|---|---|---|---|---|")?;
    for (words, records) in &SIZES {
        for readers in [1, 2, 4] {
            let passed = Passed {
                words: *words,
                readers,
                records: *records,
            };
            print_rows(rt, alloc, &passed)?;
        }
    }
    Ok(())
}
