//! A page of eight counters: three threads count events, and a fourth takes the counts out at the same time. No event is lost.
use lock_free::mpmc::counting_bit_set::{CountingBitSet, Handle};
use std::alloc::Global;
use std::thread::Threads;
use std::{io, thread};

const EVENTS: usize = 8;

/// How often each thread counts each event, and how often the counts are taken out beside it.
const ROUNDS: u64 = 1000;

type Totals = [u64; EVENTS];

/// Counts each event `ROUNDS` times.
fn count(mut page: Handle<'_>) {
    for _ in 0..ROUNDS {
        for event in 0..EVENTS {
            if event < page.capacity() {
                page.set(event);
            }
        }
    }
}

/// Takes all counts out, and adds them up.
fn collect(page: &mut Handle<'_>, totals: &mut Totals) {
    page.reset_all(&mut |state| {
        if let Some(total) = totals.get_mut(state.bit()) {
            *total = total.wrapping_add(state.count());
        }
    });
}

/// Takes all counts out `ROUNDS` times, and adds them up.
fn collect_all(page: &mut Handle<'_>) -> Totals {
    let mut totals = [0; EVENTS];
    for _ in 0..ROUNDS {
        collect(page, &mut totals);
        thread::yield_now();
    }
    totals
}

/// How often each event was counted in all. None where there is no memory, or no further handle.
fn run<R: Threads + Sync>(rt: &R, alloc: Global) -> Option<Totals> {
    let (page, pass) = CountingBitSet::new(alloc, EVENTS).ok()?;
    let mut mine = page.handle(pass);
    let (one, two, three) = (mine.split()?, mine.split()?, mine.split()?);
    let (_, (_, mut totals)) = thread::join(
        rt,
        move || thread::join(rt, move || count(one), move || count(two)),
        || thread::join(rt, move || count(three), || collect_all(&mut mine)),
    );
    collect(&mut mine, &mut totals);
    Some(totals)
}

/// Counts the events, and prints the totals that were taken out.
pub fn report<R: Threads + Print + Sync>(rt: &R, alloc: Global) -> io::Result<()> {
    match run(rt, alloc) {
        Some(totals) => println!(rt; "events counted: {totals:?}"),
        None => println!(rt; "no memory"),
    }
}
