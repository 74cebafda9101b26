//! A registry: two threads replace an entry each, and a third looks until it has seen the last of both. None that it sees is torn.
use lock_free::mpmc::container::{
    Container, ContainerHandle, ContainerState, Handle, OwnerId, entries,
};
use lock_free::mpmc::unique_index_set_enums::ReleaseMode;
use std::alloc::Global;
use std::sync::Wait;
use std::thread::Threads;
use std::{io, thread};

/// An entry: the same number twice.
type Entry = (u64, u64);

const LAST: u64 = 999;

/// Adds an entry for this owner, and replaces it until it is the last.
fn replace(
    rt: &impl Wait,
    mut registry: Handle<'_, Entry>,
    owner: OwnerId,
) -> Option<ContainerHandle> {
    let mine = registry.add(rt, (0, 0), owner).ok()?;
    for number in 1..LAST + 1 {
        let key = mine;
        registry.replace(key, (number, number)).ok()?;
    }
    Some(mine)
}

/// How many entries a state shows that are the last, or None where one is torn.
fn last_ones(state: &ContainerState<Entry>) -> Option<u64> {
    let mut number = 0u64;
    for (_, entry) in entries(state) {
        if entry.0 != entry.1 {
            return None;
        }
        number = number.wrapping_add(u64::from(entry.0 == LAST));
    }
    Some(number)
}

/// Looks until it sees both of the last entries: false where one was torn. None without memory for a state, or after 2^26 looks.
fn look(rt: &impl Wait, mut registry: Handle<'_, Entry>) -> Option<bool> {
    let mut state = registry.get_state(rt).ok()?;
    for _ in 0..1u64 << 26 {
        match last_ones(&state) {
            Some(2) => return Some(true),
            Some(_) => thread::yield_now(),
            None => return Some(false),
        }
        if registry.is_state_of(&state) {
            registry.update_state(rt, &mut state);
        }
    }
    None
}

/// Whether no entry was torn, and how many are left where one of two is removed. None where there is no memory, or no further handle.
fn run<R: Threads + Wait + Sync>(rt: &R, alloc: Global) -> Option<(bool, usize)> {
    let (one, two) = (OwnerId::new(1).ok()?, OwnerId::new(2).ok()?);
    let (registry, pass) = Container::new(alloc, 2, 0).ok()?;
    let mut mine = registry.handle(pass);
    let (looks, first, second) = (mine.split()?, mine.split()?, mine.split()?);
    let (whole, (key, other)) = thread::join(
        rt,
        move || look(rt, looks),
        move || thread::join(
            rt,
            move || replace(rt, first, one),
            move || replace(rt, second, two),
        ),
    );
    other?;
    mine.remove(rt, key?, ReleaseMode::Default).ok()?;
    Some((whole?, mine.len(rt)))
}

/// Replaces the entries, and prints whether each that was seen was whole, and how many are left.
pub fn report<R: Threads + Wait + Print + Sync>(rt: &R, alloc: Global) -> io::Result<()> {
    match run(rt, alloc) {
        Some((whole, left)) => println!(rt; "entries whole: {whole}; left: {left}"),
        None => println!(rt; "no memory"),
    }
}
