//! The rows of the container's calls on values, compared with the same steps by hand and with what a user
//! would take instead.

use crate::hand::container as by_hand;
use crate::timing::{Another, Asked, Row};
use lock_free::mpmc::container::{CallbackProgression, Container, Handle, OwnerId};
use lock_free::mpmc::unique_index_set_enums::{ReleaseMode, ReleaseState};
use slab::Slab;
use std::alloc::Global;
use std::sync::{Mutex, Wait};
use std::thread::Threads;
use std::time::CpuClock;

/// A handle of a container with the owner that adds numbers, and the slab under a lock that a
/// user would take instead.
#[derive(Drop)]
struct Adds<'a> {
    container: Handle<'a, u64>,
    owner: OwnerId,
    slab: &'a Mutex<Slab<u64>>,
}

impl<'a> Another for Adds<'a> {
    fn another(&mut self) -> Option<Adds<'a>> {
        let container = self.container.split()?;
        Some(Adds {
            container,
            owner: self.owner,
            slab: self.slab,
        })
    }
}

/// Adds a number and removes it, compared with an insert and a remove of a slab under a lock.
struct AddRemove;

impl<'a> Row<Adds<'a>> for AddRemove {
    const NAME: &'static str = "container: add and remove";

    const BESIDE: &'static str = "`Mutex<Slab>`";

    fn ours<R: Wait>(on: &mut Adds<'a>, rt: &R, number: u64) -> u64 {
        match on.container.add(rt, number, on.owner) {
            Ok(handle) => {
                let removed = on.container.remove(rt, handle, ReleaseMode::Default);
                removed.is_ok() as u64
            }
            Err(_) => 2,
        }
    }

    fn theirs<R: Wait>(on: &mut Adds<'a>, rt: &R, number: u64) -> u64 {
        let inserted = on.slab.lock(rt).insert(number);
        match inserted {
            Ok(key) if on.slab.lock(rt).try_remove(key).is_some() => 1,
            _ => 2,
        }
    }
}

/// A container of numbers with the owner that adds (7 by hand) and a dead owner (9 by hand). Beside it are
/// the container by hand, and the vector under a lock that a user would take instead.
struct Values<'a> {
    container: Handle<'a, u64>,
    owner: OwnerId,
    dead: OwnerId,
    hand: by_hand::Values,
    list: &'a Mutex<Vec<u64>>,
}

impl<'a> Drop for Values<'a> {
    fn drop(self) {
        let Self {
            container: _container,
            owner: _,
            dead: _,
            hand: _hand,
            list: _,
        } = self;
    }
}

impl<'a> Values<'a> {
    /// Adds the number 7 `number` times, in the container and in the one by hand.
    fn fill<R: Wait>(&mut self, rt: &R, number: u32) {
        for _ in 0..number {
            let _ = self.container.add(rt, 7, self.owner);
            self.hand.add(rt, 7, 7);
        }
    }

    /// Finds the owner's numbers, and sums them.
    #[inline(never)]
    fn finds(&mut self) -> u64 {
        let mut sum = 0u64;
        self.container.find(
            self.owner,
            &mut |value, _| {
                sum = sum.wrapping_add(value);
                CallbackProgression::Continue
            },
        );
        sum
    }

    /// Recovers the dead owner. 1 where the container is not locked, which is the rule, and 0 where it is.
    #[inline(never)]
    fn recovers<R: Wait>(&mut self, rt: &R) -> u64 {
        let mode = ReleaseMode::Default;
        match self.container.recover(rt, self.dead, &mut |_| true, mode) {
            ReleaseState::Unlocked => 1,
            ReleaseState::Locked => 0,
        }
    }
}

/// Adds a number for the dead owner, and recovers that owner.
struct RecoverOne;

impl<'a> Row<Values<'a>> for RecoverOne {
    const NAME: &'static str = "container: add, and recover of it";

    fn ours<R: Wait>(on: &mut Values<'a>, rt: &R, number: u64) -> u64 {
        let _ = on.container.add(rt, number, on.dead);
        on.recovers(rt)
    }

    fn theirs<R: Wait>(on: &mut Values<'a>, rt: &R, number: u64) -> u64 {
        on.hand.add(rt, number, 9);
        on.hand.recover(rt, 9) as u64
    }
}

/// Recovers the dead owner, who has no number, in a container that is full.
struct RecoverFull;

impl<'a> Row<Values<'a>> for RecoverFull {
    const NAME: &'static str = "container: recover of a full one, none freed";

    fn ours<R: Wait>(on: &mut Values<'a>, rt: &R, _number: u64) -> u64 {
        on.recovers(rt)
    }

    fn theirs<R: Wait>(on: &mut Values<'a>, rt: &R, _number: u64) -> u64 {
        on.hand.recover(rt, 9) as u64
    }
}

/// Finds the numbers of the owner that adds, and sums them, compared with the same steps by hand.
struct FindEach;

impl<'a> Row<Values<'a>> for FindEach {
    const NAME: &'static str = "container: find of each value";

    fn ours<R: Wait>(on: &mut Values<'a>, _rt: &R, _number: u64) -> u64 {
        on.finds()
    }

    fn theirs<R: Wait>(on: &mut Values<'a>, _rt: &R, _number: u64) -> u64 {
        on.hand.find(7)
    }
}

/// Finds the numbers of the owner that adds, and sums them, compared with a sum over a vector under a lock.
struct FindBeside;

impl<'a> Row<Values<'a>> for FindBeside {
    const NAME: &'static str = "container: find of each value";

    const BESIDE: &'static str = "`Mutex<Vec>`";

    fn ours<R: Wait>(on: &mut Values<'a>, _rt: &R, _number: u64) -> u64 {
        on.finds()
    }

    fn theirs<R: Wait>(on: &mut Values<'a>, rt: &R, _number: u64) -> u64 {
        let mut sum = 0u64;
        for value in on.list.lock(rt).iter() {
            sum = sum.wrapping_add(*value);
        }
        sum
    }
}

/// Times and prints the rows of the container that are asked for: two of an empty one and three of a full
/// one. None where memory, a further pass or the clock fails.
pub fn rows<R: Wait + Threads + CpuClock + Print + Sync>(
    rt: &R,
    alloc: Global,
    asked: &Asked<'_>,
    capacity: u32,
) -> Option<()> {
    let (owner, dead) = OwnerId::new(7).ok().zip(OwnerId::new(9).ok())?;
    let number = capacity as usize;
    let slab = Mutex::new(Slab::with_capacity(alloc, number).ok()?);
    let list = Mutex::new(Vec::from_elem(alloc, 7u64, number).ok()?);
    let hand = by_hand::Values::new(alloc, capacity).ok()?;
    let (container, pass) = Container::new(alloc, number, 1).ok()?;
    let mut adds = Adds {
        container: container.handle(pass),
        owner,
        slab: &slab,
    };
    asked.both::<AddRemove, Adds<'_>, R>(rt, alloc, capacity, &mut adds)?;
    let mut on = Values {
        container: adds.container.split()?,
        owner,
        dead,
        hand,
        list: &list,
    };
    asked.alone::<RecoverOne, Values<'_>, R>(rt, capacity, &mut on)?;
    on.fill(rt, capacity);
    asked.alone::<RecoverFull, Values<'_>, R>(rt, capacity, &mut on)?;
    asked.alone::<FindEach, Values<'_>, R>(rt, capacity, &mut on)?;
    asked.alone::<FindBeside, Values<'_>, R>(rt, capacity, &mut on)
}
