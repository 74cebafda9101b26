//! Times a call and what it is compared with by turns, in one thread or in several at once, and prints the
//! medians of the rounds.

use std::alloc::Global;
use std::sync::Wait;
use std::thread::Threads;
use std::time::CpuClock;
use std::{io, thread};

/// How many rounds each row has. In a round the call and what it is compared with are timed once each.
pub const ROUNDS: usize = 11;

/// How many nanoseconds of the processor the calls of one round take at least, so that the
/// clock is fine enough.
const LONG_ENOUGH: u64 = 2_000_000;

/// A row of the table: a call, and what it is compared with, which is the same steps by hand or what a user
/// would take instead. Both answer a number, by which a difference in what they do is seen, and are given how
/// many calls came before in their round.
pub trait Row<T> {
    /// The name of the row, by which it is asked for.
    const NAME: &'static str;

    /// What the call is compared with.
    const BESIDE: &'static str = "by hand";

    /// Makes the call once.
    fn ours<R: Wait>(on: &mut T, rt: &R, number: u64) -> u64;

    /// Does once what the call is compared with.
    fn theirs<R: Wait>(on: &mut T, rt: &R, number: u64) -> u64;
}

/// What a thread needs to make the calls of a row, so that several threads can make them at once.
pub trait Another: Drop + Sized {
    /// Another one of the same. None where no further pass can be counted.
    fn another(&mut self) -> Option<Self>;
}

/// The rows that are asked for: what their names begin with, or `all`, and whether they are
/// timed in several threads.
#[derive(Clone, Copy)]
pub struct Asked<'a> {
    pub beginning: &'a str,
    pub together: bool,
}

/// The call as a function that is not inlined, so that the loop around it is the same on both sides.
#[inline(never)]
fn ours<X: Row<T>, T, R: Wait>(rt: &R, on: &mut T, number: u64) -> u64 {
    X::ours(on, rt, number)
}

/// What the call is compared with, as a function that is not inlined.
#[inline(never)]
fn theirs<X: Row<T>, T, R: Wait>(rt: &R, on: &mut T, number: u64) -> u64 {
    X::theirs(on, rt, number)
}

/// Makes `calls` calls, of the row's own or of what it is compared with. It returns the nanoseconds of the
/// processor that they took, and the sum of their answers.
fn time<X: Row<T>, T, R: Wait + CpuClock>(
    rt: &R,
    on: &mut T,
    is_ours: bool,
    calls: u64,
) -> io::Result<(u64, u64)> {
    let mut sum = 0u64;
    let start = rt.thread_cpu_time()?;
    for number in 0..calls {
        let answer = if is_ours {
            ours::<X, T, R>(rt, on, number)
        } else {
            theirs::<X, T, R>(rt, on, number)
        };
        sum = sum.wrapping_add(answer);
    }
    let taken = rt.thread_cpu_time()?.saturating_sub(start).as_nanos();
    Ok((u64::try_from(taken).unwrap_or(u64::MAX), sum))
}

/// How many calls take long enough on both sides. It is a power of two, found by doubling.
fn enough<X: Row<T>, T, R: Wait + CpuClock>(rt: &R, on: &mut T) -> io::Result<u64> {
    let mut calls = 1u64;
    for _ in 0..30 {
        let (first, _) = time::<X, T, R>(rt, on, true, calls)?;
        let (second, _) = time::<X, T, R>(rt, on, false, calls)?;
        if first >= LONG_ENOUGH && second >= LONG_ENOUGH || calls > 1 << 30 {
            break;
        }
        calls = calls * 2;
    }
    Ok(calls)
}

/// One thread's means to make the calls, and what its calls of a round took, with the sum of their answers.
#[derive(Drop)]
struct Caller<T: Drop> {
    on: T,
    taken: u64,
    sum: u64,
    // These words keep the numbers of two callers out of one cache line.
    _apart: [u64; 16],
}

/// `number` callers, each with another one of `on`. None where memory or a further pass is refused.
fn callers<T: Another>(alloc: Global, on: &mut T, number: usize) -> Option<Vec<Caller<T>>> {
    let mut all = Vec::new(alloc);
    for _ in 0..number {
        let caller = Caller {
            on: on.another()?,
            taken: 0,
            sum: 0,
            _apart: [0; 16],
        };
        all.push(caller).ok()?;
    }
    Some(all)
}

/// Lets each caller make `calls` calls at the same time, in a thread of its own. It returns the sum of what
/// they took, and of their answers. A caller whose clock fails counts as 0.
fn time_all<X: Row<T> + Send, T: Drop + Send, R: Wait + Threads + CpuClock + Sync>(
    rt: &R,
    callers: &mut [Caller<T>],
    is_ours: bool,
    calls: u64,
) -> (u64, u64) {
    thread::for_each_mut(
        rt,
        callers,
        4,
        &|_, caller: &mut Caller<T>| {
            let (taken, sum) = time::<X, T, R>(rt, &mut caller.on, is_ours, calls).unwrap_or((
                0, 0,
            ));
            caller.taken = taken;
            caller.sum = sum;
        },
    );
    let mut taken = 0u64;
    let mut sum = 0u64;
    for caller in callers.iter() {
        taken = taken.saturating_add(caller.taken);
        sum = sum.wrapping_add(caller.sum);
    }
    (taken, sum)
}

/// The middle one of the rounds' numbers.
pub fn median(numbers: &[u64; ROUNDS]) -> u64 {
    let mut sorted = *numbers;
    sorted.sort_unstable();
    sorted[ROUNDS / 2]
}

/// The quotient in units of 1 / `parts`, as 250 for 2.5 with `parts` 100. It is 0 where `by` is 0.
pub fn quotient(number: u64, by: u64, parts: u64) -> u64 {
    number.saturating_mul(parts).checked_div(by).unwrap_or(0)
}

/// What the rounds of a row came to. These are tenths of nanoseconds for a call on both sides, hundredths of
/// their ratio, and whether both sides gave the same answers in all rounds.
#[derive(Clone, Copy)]
struct Came {
    ours: [u64; ROUNDS],
    theirs: [u64; ROUNDS],
    ratios: [u64; ROUNDS],
    same: bool,
}

impl Came {
    fn new() -> Came {
        Came {
            ours: [0; ROUNDS],
            theirs: [0; ROUNDS],
            ratios: [0; ROUNDS],
            same: true,
        }
    }

    /// Notes a round: what `calls` calls took on both sides, and the sums of their answers.
    fn note(&mut self, round: usize, calls: u64, ours: (u64, u64), theirs: (u64, u64)) {
        if round < ROUNDS {
            self.ours[round] = quotient(ours.0, calls, 10);
            self.theirs[round] = quotient(theirs.0, calls, 10);
            self.ratios[round] = quotient(ours.0, theirs.0, 100);
        }
        self.same = self.same && ours.1 == theirs.1;
    }
}

/// Prints the line of a row: the medians, what the call is compared with, and whether the answers differed.
/// Those of several threads are not compared, since they depend on who comes first.
fn print_row<X: Row<T>, T, R: Print>(
    rt: &R,
    capacity: u32,
    threads: usize,
    came: &Came,
) -> io::Result<()> {
    let (ours, theirs, ratio) = (
        median(&came.ours),
        median(&came.theirs),
        median(&came.ratios),
    );
    print!(rt; "| {}", X::NAME)?;
    if threads > 1 {
        print!(rt; ", {threads} threads")?;
    }
    let said = if came.same || threads > 1 {
        ""
    } else {
        " not the same answers"
    };
    println!(rt;
        " | {capacity} | {}.{} | {} | {}.{} | {}.{}{} |{said}",
        ours / 10,
        ours % 10,
        X::BESIDE,
        theirs / 10,
        theirs % 10,
        ratio / 100,
        ratio / 10 % 10,
        ratio % 10
    )
}

/// Times the row in this many threads at once, and prints its line. None where memory, a further
/// pass or the clock fails.
fn in_threads<X: Row<T> + Send, T: Another + Send, R: Wait + Threads + CpuClock + Print + Sync>(
    rt: &R,
    alloc: Global,
    capacity: u32,
    threads: usize,
    on: &mut T,
) -> Option<()> {
    let calls = enough::<X, T, R>(rt, on).ok()?;
    let mut callers = callers(alloc, on, threads)?;
    let all = calls.saturating_mul(threads as u64);
    let mut came = Came::new();
    for round in 0..ROUNDS {
        let ours = time_all::<X, T, R>(rt, &mut callers, true, calls);
        let theirs = time_all::<X, T, R>(rt, &mut callers, false, calls);
        came.note(round, all, ours, theirs);
    }
    print_row::<X, T, R>(rt, capacity, threads, &came).ok()
}

/// Times the row in one thread, and prints its line.
fn in_one<X: Row<T>, T, R: Wait + CpuClock + Print>(
    rt: &R,
    capacity: u32,
    on: &mut T,
) -> io::Result<()> {
    let calls = enough::<X, T, R>(rt, on)?;
    let mut came = Came::new();
    for round in 0..ROUNDS {
        let ours = time::<X, T, R>(rt, on, true, calls)?;
        let theirs = time::<X, T, R>(rt, on, false, calls)?;
        came.note(round, calls, ours, theirs);
    }
    print_row::<X, T, R>(rt, capacity, 1, &came)
}

impl<'a> Asked<'a> {
    /// Whether a row of this name is asked for.
    fn is_of(&self, name: &str) -> bool {
        self.beginning == "all" || name.starts_with(self.beginning)
    }

    /// Times and prints a row of one thread, if it is asked for. None where the clock fails, or
    /// nothing can be printed.
    pub fn alone<X: Row<T>, T, R: Wait + CpuClock + Print>(
        &self,
        rt: &R,
        capacity: u32,
        on: &mut T,
    ) -> Option<()> {
        if self.together || !self.is_of(X::NAME) {
            return Some(());
        }
        in_one::<X, T, R>(rt, capacity, on).ok()
    }

    /// Times and prints a row in one thread, or in two and in four at once, as is asked for. None where
    /// memory, a further pass, the clock or the print fails.
    pub fn both<X: Row<T> + Send, T: Another + Send, R: Wait + Threads + CpuClock + Print + Sync>(
        &self,
        rt: &R,
        alloc: Global,
        capacity: u32,
        on: &mut T,
    ) -> Option<()> {
        if !self.together || !self.is_of(X::NAME) {
            return self.alone::<X, T, R>(rt, capacity, on);
        }
        in_threads::<X, T, R>(rt, alloc, capacity, 2, on)?;
        in_threads::<X, T, R>(rt, alloc, capacity, 4, on)
    }
}
