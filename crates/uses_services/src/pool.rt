//! A pool of four whose users are owners. One of them dies with two in hand: a recovery frees just these, and in the end all four can
//! be had again.
use lock_free::mpmc::robust_unique_index_set::{Handle, OwnerId, RobustUniqueIndexSet};
use lock_free::mpmc::unique_index_set_enums::ReleaseMode;
use lock_free_guards::owner_recovery::recover_owner;
use lock_free_guards::robust_index::RobustIndex;
use std::alloc::Global;
use std::sync::Wait;
use std::thread::Threads;
use std::{io, thread};

/// Takes up to `number` indices as this owner, and gives none back. Returns how many it got.
fn take(rt: &impl Wait, mut pool: Handle<'_>, owner: OwnerId, number: usize) -> usize {
    for got in 0..number {
        if pool.acquire(rt, owner).is_err() {
            return got;
        }
    }
    number
}

/// Returns how many indices the owner that died had taken, how many of them came back, and how many could be
/// had in the end. None where there is no memory, or no further pass.
fn run<R: Threads + Wait + Sync>(rt: &R, alloc: Global) -> Option<(usize, usize, usize)> {
    let (living, dying) = (OwnerId::new(1).ok()?, OwnerId::new(2).ok()?);
    let (pool, mut pass) = RobustUniqueIndexSet::new(alloc, 4).ok()?;
    let dies = pool.handle(pass.split()?);
    let lives = pass.split()?;
    let (taken, kept) = thread::join(
        rt,
        move || take(rt, dies, dying, 2),
        || RobustIndex::acquire(rt, &pool, lives, living),
    );
    let freed = recover_owner(rt, &pool, &mut pass, dying, ReleaseMode::Default).freed;
    // (what the living one has came back by no recovery)
    drop(kept.ok()?);
    Some((taken, freed, take(rt, pool.handle(pass), living, 5)))
}

/// Has one owner die with indices in hand, and prints how many came back, and how many could be had.
pub fn report<R: Threads + Wait + Print + Sync>(rt: &R, alloc: Global) -> io::Result<()> {
    match run(rt, alloc) {
        Some((taken, freed, had)) => println!(rt;
            "one died with {taken}, of which {freed} came back; {had} could be had then"
        ),
        None => println!(rt; "no memory"),
    }
}
