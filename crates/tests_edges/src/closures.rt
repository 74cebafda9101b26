//! Closures that a set calls. Some index an array by what the set tells them, which is safe by the clauses
//! about its capacity, and some set places of the set that calls them.
ghost use Rattle.std.specs.Prelude.{◌≡◌};
ghost use Rattle.lock_free.specs.RobustUniqueIndexSet.{capacity_of, IsPassOf};

use lock_free::mpmc::bit_set::BitSet;
use lock_free::mpmc::counting_bit_set::CountingBitSet;
use lock_free::mpmc::robust_unique_index_set::{
    CallbackProgression, OwnerId, Pass, RobustUniqueIndexSet,
};
use lock_free::mpmc::unique_index_set_enums::ReleaseMode;
use lock_free::mpmc::{bit_set, counting_bit_set};
use std::sync::Wait;
use std::test::Fail;

/// A user of a robust set of 100 indices, by a pass.
struct User<'a> {
    set: &'a RobustUniqueIndexSet,
    pass: Pass,
    ghost of: { IsPassOf set.now pass },
    ghost sized: { capacity_of set.now ≡ 100 },
}

impl<'a> Drop for User<'a> {
    fn drop(self) {
        let Self {
            set: _,
            pass: _pass,
        } = self;
    }
}

impl<'a> User<'a> {
    /// Acquires all 100 indices for three owners in turn. True if each acquire gives the next index.
    fn fill(&mut self, rt: &impl Wait, owners: &[OwnerId; 3]) -> bool {
        let mut right = true;
        for index in 0..100usize {
            let acquired = self.set.acquire(rt, owners[index % 3], &mut self.pass);
            right &= acquired == Ok(index);
        }
        right
    }

    /// Marks the indices of the owner in the array, and returns how many they were.
    fn mark(&mut self, owner: OwnerId, marks: &mut [bool; 100]) -> usize {
        self.set.find(
            owner,
            &mut |index| {
                marks[index] = true;
                CallbackProgression::Continue
            },
            &mut self.pass,
        )
    }

    /// Recovers those indices of the dead owner that have no mark, and returns how many they were.
    fn free(&mut self, rt: &impl Wait, dead: OwnerId, marks: &[bool; 100]) -> usize {
        let mut freed = 0usize;
        self.set.recover(
            rt,
            ReleaseMode::Default,
            &mut |owner, index| owner == dead && !marks[index],
            &mut |_, _| freed = freed.wrapping_add(1),
            &mut self.pass,
        );
        freed
    }

    /// How many indices the owner has.
    fn find(&mut self, owner: OwnerId) -> usize {
        self.set.find(
            owner,
            &mut |_| CallbackProgression::Continue,
            &mut self.pass,
        )
    }
}

/// Whether the marks are at the indices of the first of three owners, and at no other.
fn are_right(marks: &[bool; 100]) -> bool {
    let mut right = true;
    for index in 0..100usize {
        right &= marks[index] == (index % 3 == 0);
    }
    right
}

/// Marks the 34 indices of the first owner, and frees the 33 of the third. True if these are the numbers, the
/// marks are right, and the second owner still has its 33.
fn mark_and_free(rt: &impl Wait, user: &mut User<'_>, owners: &[OwnerId; 3]) -> bool {
    let mut table = [false; 100];
    let mut right = user.fill(rt, owners);
    right &= user.mark(owners[0], &mut table) == 34;
    right &= user.free(rt, owners[2], &table) == 33;
    right &= are_right(&table);
    right &= user.find(owners[1]) == 33;
    right & (user.find(owners[2]) == 0)
}

/// A closure may use an index of the set as a place of an array of 100, without a test. Were an index not
/// below the capacity, the proof of this function would fail.
#[test]
fn closures_that_index(rt: HostRuntime) -> Result<(), Fail> {
    let owners = [OwnerId::new(1)?, OwnerId::new(2)?, OwnerId::new(3)?];
    let (set, pass) = RobustUniqueIndexSet::new(rt.alloc(), 100)?;
    let mut user = User { set: &set, pass };
    assert!(rt; mark_and_free(&rt, &mut user, &owners));
    Ok(())
}

/// Sets a place of a bit set. False where there is no such place, or it was set already.
fn set_place(rt: &impl Wait, handle: &mut bit_set::Handle<'_>, place: usize) -> bool {
    place < handle.capacity() && handle.set(rt, place)
}

/// The places that `reset_all` hands out, as one number with three digits each. While it hands out place 0,
/// the places 1 and 64 are set by another handle: the first in the word that the call has just taken, the
/// second in the next word.
fn reset_places(
    rt: &impl Wait,
    handle: &mut bit_set::Handle<'_>,
    other: &mut bit_set::Handle<'_>,
) -> u64 {
    let mut digits = 0u64;
    handle.reset_all(&mut |place| {
        digits = digits.wrapping_mul(1000).wrapping_add(place as u64);
        if place == 0 {
            set_place(rt, other, 1);
            set_place(rt, other, 64);
        }
    });
    digits
}

/// A place in a later word that is set while `reset_all` runs is handed out by the same call. A place in the
/// word that it has taken stands, and comes by the next call. The bit sets have 66, 130 and 1,000 places. A
/// failure says that a place was lost or handed out twice.
#[test]
fn a_closure_that_sets_places(rt: HostRuntime) -> Result<(), Fail> {
    for last in [65, 129, 999usize] {
        let (set, pass) = BitSet::new(rt.alloc(), last.wrapping_add(1))?;
        let mut handle = set.handle(pass);
        let mut other = handle.split().ok_or("no further handle")?;
        assert!(rt; set_place(&rt, &mut handle, 0) && set_place(&rt, &mut handle, last));
        assert!(rt;
            reset_places(&rt, &mut handle, &mut other) == 64_000u64.wrapping_add(last as u64)
        );
        assert!(rt; handle.reset_next(&rt) == Some(1) && handle.reset_next(&rt).is_none());
    }
    Ok(())
}

/// Adds 1 to the count of a place, where there is such a place.
fn count_place(handle: &mut counting_bit_set::Handle<'_>, place: usize) {
    if place < handle.capacity() {
        handle.set(place);
    }
}

/// The places and counts that `reset_all` hands out, as one number with a digit for each. While it hands out
/// place 0 or 1, the next place is counted by another handle, and at place 1 place 0 too.
fn take_out(
    handle: &mut counting_bit_set::Handle<'_>,
    other: &mut counting_bit_set::Handle<'_>,
) -> u64 {
    let mut digits = 0u64;
    handle.reset_all(&mut |state| {
        digits = digits
            .wrapping_mul(10)
            .wrapping_add(state.bit() as u64)
            .wrapping_mul(10)
            .wrapping_add(state.count());
        if state.bit() == 1 {
            count_place(other, 0);
        }
        if state.bit() < 2 {
            count_place(other, state.bit().wrapping_add(1));
        }
    });
    digits
}

/// A count that is added at a later place while `reset_all` runs is handed out by the same call, and one that
/// is added at an earlier place by the next call. The sets have 3, 140 and 1,000 places. A failure says that
/// a count was lost or handed out twice.
#[test]
fn a_closure_that_counts_places(rt: HostRuntime) -> Result<(), Fail> {
    for capacity in [3, 140, 1000] {
        let (set, pass) = CountingBitSet::new(rt.alloc(), capacity)?;
        let mut handle = set.handle(pass);
        let mut other = handle.split().ok_or("no further handle")?;
        for place in 0..3usize {
            count_place(&mut handle, place);
        }
        assert!(rt; take_out(&mut handle, &mut other) == 11_222);
        assert!(rt; take_out(&mut handle, &mut other) == 11_121);
    }
    Ok(())
}
