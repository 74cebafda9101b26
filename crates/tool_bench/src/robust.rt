//! The rows of the robust index set, compared with the same steps by hand.
ghost use Rattle.lock_free.specs.RobustUniqueIndexSet.{IsPassOf};

use crate::hand::robust as by_hand;
use crate::timing::{Asked, Row};
use lock_free::mpmc::robust_unique_index_set::{
    CallbackProgression, OwnerId, Pass, RobustUniqueIndexSet,
};
use lock_free::mpmc::unique_index_set_enums::{ReleaseMode, ReleaseState};
use std::alloc::Global;
use std::sync::Wait;
use std::time::CpuClock;

/// A robust set with a pass, the set by hand, the owner that acquires (7 by hand), and a
/// dead owner (9 by hand).
struct Robust<'a> {
    set: &'a RobustUniqueIndexSet,
    pass: Pass,
    owner: OwnerId,
    dead: OwnerId,
    hand: by_hand::Owners,
    ghost of: { IsPassOf set.now pass },
}

impl<'a> Drop for Robust<'a> {
    fn drop(self) {
        let Self {
            set: _,
            pass: _pass,
            owner: _,
            dead: _,
            hand: _hand,
        } = self;
    }
}

impl<'a> Robust<'a> {
    /// Takes `number` indices for the owner in both sets.
    fn fill<R: Wait>(&mut self, rt: &R, number: u32) {
        for _ in 0..number {
            let _ = self.set.acquire(rt, self.owner, &mut self.pass);
            self.hand.acquire(rt, 7);
        }
    }

    /// Recovers the dead owner. 1 where the set is not locked, which is the rule, and 0 where it is.
    #[inline(never)]
    fn recovers<R: Wait>(&mut self, rt: &R) -> u64 {
        let dead = self.dead;
        let state = self.set.recover(
            rt,
            ReleaseMode::Default,
            &mut |owner, _| owner == dead,
            &mut |_, _| {},
            &mut self.pass,
        );
        match state {
            ReleaseState::Unlocked => 1,
            ReleaseState::Locked => 0,
        }
    }
}

/// Takes an index for the owner, and gives it back.
struct Turns;

impl<'a> Row<Robust<'a>> for Turns {
    const NAME: &'static str = "robust index set: acquire and release";

    fn ours<R: Wait>(on: &mut Robust<'a>, rt: &R, _number: u64) -> u64 {
        match on.set.acquire(rt, on.owner, &mut on.pass) {
            Ok(index) => {
                let mode = ReleaseMode::Default;
                let released = on.set.release(rt, index, on.owner, mode, &mut on.pass);
                released.is_ok() as u64
            }
            Err(_) => 2,
        }
    }

    fn theirs<R: Wait>(on: &mut Robust<'a>, rt: &R, _number: u64) -> u64 {
        match on.hand.acquire(rt, 7) {
            Some(index) => on.hand.release(rt, index, 7) as u64,
            None => 2,
        }
    }
}

/// Takes an index for the dead owner, and recovers it.
struct RecoverOne;

impl<'a> Row<Robust<'a>> for RecoverOne {
    const NAME: &'static str = "robust index set: acquire, and recover of it";

    fn ours<R: Wait>(on: &mut Robust<'a>, rt: &R, _number: u64) -> u64 {
        let _ = on.set.acquire(rt, on.dead, &mut on.pass);
        on.recovers(rt)
    }

    fn theirs<R: Wait>(on: &mut Robust<'a>, rt: &R, _number: u64) -> u64 {
        on.hand.acquire(rt, 9);
        on.hand.recover(rt, 9) as u64
    }
}

/// Recovers the dead owner, who has no index, in a set that is full.
struct RecoverFull;

impl<'a> Row<Robust<'a>> for RecoverFull {
    const NAME: &'static str = "robust index set: recover of a full one, none freed";

    fn ours<R: Wait>(on: &mut Robust<'a>, rt: &R, _number: u64) -> u64 {
        on.recovers(rt)
    }

    fn theirs<R: Wait>(on: &mut Robust<'a>, rt: &R, _number: u64) -> u64 {
        on.hand.recover(rt, 9) as u64
    }
}

/// Finds the owner's indices, and sums them.
struct FindEach;

impl<'a> Row<Robust<'a>> for FindEach {
    const NAME: &'static str = "robust index set: find of each index";

    fn ours<R: Wait>(on: &mut Robust<'a>, _rt: &R, _number: u64) -> u64 {
        let mut sum = 0u64;
        on.set.find(
            on.owner,
            &mut |index| {
                sum = sum.wrapping_add((index as u64).wrapping_add(1));
                CallbackProgression::Continue
            },
            &mut on.pass,
        );
        sum
    }

    fn theirs<R: Wait>(on: &mut Robust<'a>, _rt: &R, _number: u64) -> u64 {
        on.hand.find(7)
    }
}

/// Times and prints the rows of the robust set that are asked for: two of an empty set and two of a full one.
/// None where memory or the clock fails.
pub fn rows<R: Wait + CpuClock + Print>(
    rt: &R,
    alloc: Global,
    asked: &Asked<'_>,
    capacity: u32,
) -> Option<()> {
    let (owner, dead) = OwnerId::new(7).ok().zip(OwnerId::new(9).ok())?;
    let hand = by_hand::Owners::new(alloc, capacity).ok()?;
    let (set, pass) = RobustUniqueIndexSet::new(alloc, capacity as usize).ok()?;
    let mut on = Robust {
        set: &set,
        pass,
        owner,
        dead,
        hand,
    };
    asked.alone::<Turns, Robust<'_>, R>(rt, capacity, &mut on)?;
    asked.alone::<RecoverOne, Robust<'_>, R>(rt, capacity, &mut on)?;
    on.fill(rt, capacity);
    asked.alone::<RecoverFull, Robust<'_>, R>(rt, capacity, &mut on)?;
    asked.alone::<FindEach, Robust<'_>, R>(rt, capacity, &mut on)
}
