//! Buffers of one pool go through four threads: each thread is handed one, fills it and gives it back, and then each takes one
//! from the pool and adds up what lies there. Proved: what a thread reads was filled by the thread whose number it comes with.
#![tactic(auto)]

ghost use Rattle.std.specs.Prelude.{◌≡◌, IfSome};

use std::alloc::Global;
use std::process::ExitCode;
use std::sync::Wait;
use std::thread::Threads;
use std::{io, thread};
use zero_copy_loans::pool::{Buffer, Lender, Pool};
use zero_copy_slots::Keeps;

/// How many bytes a buffer has.
const BYTES: usize = 1_000;

/// What lies in a buffer, and who has filled it.
#[derive(Drop)]
struct Filled {
    by: u64,
    bytes: Vec<u8>,
}

/// The rule that a buffer has the number of the thread that has filled it.
struct ByNumber;

impl Keeps<Filled> for ByNumber {
    ghost holds = { λ number filled. filled.by ≡ number };
}

/// Fills a buffer with the number of the thread, and gives it back: whether it lies in the pool.
fn fills(alloc: Global, mut buffer: Buffer<'_, Filled, ByNumber>, by: u8) -> bool {
    let Ok(bytes) = vec![in alloc; by; BYTES] else {
        return false;
    };
    buffer.number = by as u64;
    buffer.value = Some(Filled {
        by: by as u64,
        bytes,
    });
    buffer.give_back().is_ok()
}

/// What a thread has read: the number that a buffer came with, who has filled it, and what its bytes add up to.
#[derive(Clone, Copy)]
struct Read {
    number: u64,
    by: u64,
    total: u64,
}

/// Takes a buffer, reads it where it lies, and gives it back. None where there is none, or nothing lies there.
fn reads(rt: &impl Wait, lender: &mut Lender<'_, Filled, ByNumber>) -> Option<Read>
    ensures { IfSome result (λ r. r.by ≡ r.number) }
{
    let buffer = lender.acquire(rt).ok()?;
    let Some(filled) = &buffer.value else {
        return None;
    };
    let mut total = 0u64;
    for byte in filled.bytes.iter() {
        total = total.wrapping_add(*byte as u64);
    }
    let read = Read {
        number: buffer.number,
        by: filled.by,
        total,
    };
    let _ = buffer.give_back();
    Some(read)
}

/// Four threads are handed a buffer each, which they fill.
fn fill_all<R: Threads + Wait + Sync>(
    rt: &R,
    alloc: Global,
    lender: &mut Lender<'_, Filled, ByNumber>,
) -> Option<bool> {
    let one = lender.acquire(rt).ok()?;
    let two = lender.acquire(rt).ok()?;
    let three = lender.acquire(rt).ok()?;
    let four = lender.acquire(rt).ok()?;
    let ((first, second), (third, fourth)) = thread::join(
        rt,
        move || thread::join(
            rt,
            move || fills(alloc, one, 1),
            move || fills(alloc, two, 2),
        ),
        move || thread::join(
            rt,
            move || fills(alloc, three, 3),
            move || fills(alloc, four, 4),
        ),
    );
    Some(first && second && third && fourth)
}

/// Four threads read a buffer each: what its bytes add up to. None where one finds none.
fn read_all<R: Threads + Wait + Sync>(
    rt: &R,
    lender: &mut Lender<'_, Filled, ByNumber>,
) -> Option<[Read; 4]> {
    let mut second = lender.split()?;
    let mut third = lender.split()?;
    let mut fourth = lender.split()?;
    let ((one, two), (three, four)) = thread::join(
        rt,
        move || thread::join(
            rt,
            move || reads(rt, lender),
            move || reads(rt, &mut second),
        ),
        move || thread::join(
            rt,
            move || reads(rt, &mut third),
            move || reads(rt, &mut fourth),
        ),
    );
    Some([one?, two?, three?, four?])
}

/// The same on a new pool of four buffers. None where there is no memory, or no buffer.
fn run<R: Threads + Wait + Sync>(rt: &R, alloc: Global) -> Option<[Read; 4]> {
    let mut pool: Pool<Filled, ByNumber> = Pool::new(alloc, 4).ok()?;
    let mut lender = pool.lender()?;
    if !fill_all(rt, alloc, &mut lender)? {
        return None;
    }
    read_all(rt, &mut lender)
}

/// Whether a buffer was read whole.
fn is_whole(read: Read) -> bool {
    read.by == read.number && read.total == read.by.wrapping_mul(BYTES as u64)
}

/// Runs the four threads, and prints how many buffers were read whole.
fn main(rt: HostRuntime) -> io::Result<ExitCode> {
    let Some(all) = run(&rt, rt.alloc()) else {
        eprintln!(rt; "no memory, or no buffer")?;
        return Ok(ExitCode::FAILURE);
    };
    let whole = all.iter().filter(|read| is_whole(**read)).count();
    println!(rt; "buffers filled: 4, read whole: {whole}")?;
    Ok(ExitCode::SUCCESS)
}
