//! The rows of the unique index set: an index is taken and given back, compared with what a
//! user would take instead.
ghost use Rattle.lock_free.specs.UniqueIndexSet.{IsPassOf};

use crate::timing::{Another, Asked, Row};
use lock_free::mpmc::unique_index_set::{Pass, UniqueIndexSet};
use slab::Slab;
use std::alloc::{AllocError, Global};
use std::sync::{Mutex, Wait};
use std::thread::Threads;
use std::time::CpuClock;

/// The name of both rows.
const NAME: &str = "unique index set: acquire and release";

/// The answer of a row that got no index; no index is so great.
const NONE: u64 = 1 << 32;

/// A unique index set with a pass, and what a user would take instead. That is a slab, which only one thread
/// can use, and the free indices in a vector under a lock.
struct Unique<'a> {
    set: &'a UniqueIndexSet,
    pass: Pass,
    slab: Option<Slab<u64>>,
    free: &'a Mutex<Vec<u32>>,
    ghost of: { IsPassOf set.now pass },
}

impl<'a> Drop for Unique<'a> {
    fn drop(self) {
        let Self {
            set: _,
            pass: _pass,
            slab: _slab,
            free: _,
        } = self;
    }
}

impl<'a> Another for Unique<'a> {
    fn another(&mut self) -> Option<Unique<'a>> {
        let pass = self.pass.split()?;
        Some(Unique {
            set: self.set,
            pass,
            slab: None,
            free: self.free,
        })
    }
}

impl<'a> Unique<'a> {
    /// Takes an index and gives it back: its number, or `NONE`.
    #[inline(always)]
    fn turns<R: Wait>(&mut self, rt: &R) -> u64 {
        match self.set.acquire_raw_index(rt, &mut self.pass) {
            Ok(index) => {
                self.set.release_raw_index(index, &mut self.pass);
                index as u64
            }
            Err(_) => NONE,
        }
    }
}

/// An index is taken and given back, compared with an insert and a remove of a slab.
struct BesideSlab;

impl<'a> Row<Unique<'a>> for BesideSlab {
    const NAME: &'static str = NAME;

    const BESIDE: &'static str = "`slab`";

    fn ours<R: Wait>(on: &mut Unique<'a>, rt: &R, _number: u64) -> u64 {
        on.turns(rt)
    }

    fn theirs<R: Wait>(on: &mut Unique<'a>, _rt: &R, number: u64) -> u64 {
        let Some(slab) = &mut on.slab else {
            return NONE;
        };
        let Ok(key) = slab.insert(number) else {
            return NONE;
        };
        match slab.try_remove(key) {
            Some(_) => key as u64,
            None => NONE,
        }
    }
}

/// An index is taken and given back, compared with a pop and a push of the free indices under a lock.
struct BesideStack;

impl<'a> Row<Unique<'a>> for BesideStack {
    const NAME: &'static str = NAME;

    const BESIDE: &'static str = "`Mutex<Vec>`";

    fn ours<R: Wait>(on: &mut Unique<'a>, rt: &R, _number: u64) -> u64 {
        on.turns(rt)
    }

    fn theirs<R: Wait>(on: &mut Unique<'a>, rt: &R, _number: u64) -> u64 {
        let popped = on.free.lock(rt).pop();
        match popped {
            Some(index) if on.free.lock(rt).push(index).is_ok() => index as u64,
            _ => NONE,
        }
    }
}

/// The free indices, with the lowest one on top.
fn free(alloc: Global, capacity: u32) -> Result<Vec<u32>, AllocError> {
    let mut free = Vec::new(alloc);
    for index in 0..capacity {
        free.push(capacity - 1 - index)?;
    }
    Ok(free)
}

/// Times and prints the rows of the unique index set that are asked for, the second one also in several
/// threads. None where memory, a further pass or the clock fails.
pub fn rows<R: Wait + Threads + CpuClock + Print + Sync>(
    rt: &R,
    alloc: Global,
    asked: &Asked<'_>,
    capacity: u32,
) -> Option<()> {
    let free = Mutex::new(free(alloc, capacity).ok()?);
    let slab = Slab::with_capacity(alloc, capacity as usize).ok()?;
    let (set, pass) = UniqueIndexSet::new(alloc, capacity as usize).ok()?;
    let mut on = Unique {
        set: &set,
        pass,
        slab: Some(slab),
        free: &free,
    };
    asked.alone::<BesideSlab, Unique<'_>, R>(rt, capacity, &mut on)?;
    asked.both::<BesideStack, Unique<'_>, R>(rt, alloc, capacity, &mut on)
}
