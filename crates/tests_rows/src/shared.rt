//! What the threads of a row tell each other.
use std::alloc::Global;
use std::sync::atomic::{AtomicU64, Ordering};
use std::thread;

/// What is added to `come` by a thread that ends: from then on no meeting waits.
const LEFT: u64 = 1 << 40;
/// How often who waits for the others looks before it lets others run. As long as it keeps its processor, the calls of all run
/// side by side once the last one comes; one that had let others run would come back when their calls are over.
const LOOKS: u64 = 200_000;

/// What the threads of a round share beside the structure.
#[derive(Drop)]
pub struct Shared {
    /// A number that rises by 1 at each look.
    clock: AtomicU64,
    /// How many times a thread has come to a meeting.
    come: AtomicU64,
    /// How many threads have ended of those that end by their number of turns.
    ended: AtomicU64,
    /// For each index whether somebody holds it: 1 where somebody does.
    flags: Vec<AtomicU64>,
}

impl Shared {
    /// What threads share that hold indices below `number`. None where memory is refused.
    pub fn new(alloc: Global, number: usize) -> Option<Shared> {
        let mut flags = Vec::with_capacity(alloc, number).ok()?;
        for _ in 0..number {
            flags.push(AtomicU64::new(0)).ok()?;
        }
        Some(Shared {
            clock: AtomicU64::new(0),
            come: AtomicU64::new(0),
            ended: AtomicU64::new(0),
            flags,
        })
    }

    /// The time, which rises by 1 at each look.
    pub fn now(&self) -> u64 {
        self.clock.fetch_add(1, Ordering::SeqCst)
    }

    /// Comes to a meeting, and waits until `all` have come over all meetings so far, or a thread has ended.
    /// False if that is not so after `limit` looks.
    pub fn meet(&self, all: u64, limit: u64) -> bool {
        self.come.fetch_add(1, Ordering::SeqCst);
        for looks in 0..limit {
            if self.come.load(Ordering::SeqCst) >= all {
                return true;
            }
            if looks >= LOOKS {
                thread::yield_now();
            }
        }
        false
    }

    /// Notes that a thread has ended, and whether it ended by its number of turns.
    pub fn end(&self, is_worker: bool) {
        self.come.fetch_add(LEFT, Ordering::SeqCst);
        self.ended.fetch_add(is_worker as u64, Ordering::SeqCst);
    }

    /// How many threads have ended of those that end by their number of turns.
    pub fn ended(&self) -> u64 {
        self.ended.load(Ordering::SeqCst)
    }

    /// Notes that somebody holds this index (`new` 1), or that nobody does (0). False if that was noted before.
    pub fn swap(&self, index: usize, new: u64) -> bool {
        match self.flags.get(index) {
            Some(flag) => flag.swap(new, Ordering::SeqCst) != new,
            None => false,
        }
    }
}
