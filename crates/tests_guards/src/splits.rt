//! Splits in many (`split_many`) of each type of handle and of pass that has them.
use lock_free_guards::splits::split_many;
use lock_free_owners::mpmc::container::Container;
use lock_free_owners::mpmc::robust_unique_index_set::RobustUniqueIndexSet;
use lock_free_owners::mpmc::{container, robust_unique_index_set as robust};
use lock_free_sets::mpmc::bit_set::BitSet;
use lock_free_sets::mpmc::unique_index_set::UniqueIndexSet;
use lock_free_sets::mpmc::{bit_set, unique_index_set as unique};
use std::alloc::Global;
use std::test::Fail;

/// Splits a handle or a pass of this type by 0, 2, 3 and 8 splits, one after another, each of what the last
/// one left. True if all succeed.
macro_rules! is_split {
    ($alloc:expr, $whole:expr, $kind:ty) => {
        split_many::<0, $kind>($alloc, $whole).is_some()
            & split_many::<2, $kind>($alloc, $whole).is_some()
            & split_many::<3, $kind>($alloc, $whole).is_some()
            & split_many::<8, $kind>($alloc, $whole).is_some()
    };
}

/// Splits a pass of a unique index set and one of a robust set, and says for each whether it
/// can be split in many.
fn split_passes(alloc: Global) -> Option<[bool; 2]> {
    let (_set, mut pass) = UniqueIndexSet::new(alloc, 2).ok()?;
    let of_unique = is_split!(alloc, &mut pass, unique::Pass);
    let (_set, mut pass) = RobustUniqueIndexSet::new(alloc, 2).ok()?;
    let of_robust = is_split!(alloc, &mut pass, robust::Pass);
    Some([of_unique, of_robust])
}

/// Splits a handle of a unique index set and one of a robust set, and says for each whether it
/// can be split in many.
fn split_handles(alloc: Global) -> Option<[bool; 2]> {
    let (set, pass) = UniqueIndexSet::new(alloc, 2).ok()?;
    let mut handle = set.handle(pass);
    let of_unique = is_split!(alloc, &mut handle, unique::Handle<'_>);
    let (set, pass) = RobustUniqueIndexSet::new(alloc, 2).ok()?;
    let mut handle = set.handle(pass);
    let of_robust = is_split!(alloc, &mut handle, robust::Handle<'_>);
    Some([of_unique, of_robust])
}

/// Splits a handle of a bit set and one of a container, and says for each whether it can be split in many.
fn split_of_others(alloc: Global) -> Option<[bool; 2]> {
    let (set, pass) = BitSet::new(alloc, 9).ok()?;
    let mut handle = set.handle(pass);
    let of_set = is_split!(alloc, &mut handle, bit_set::Handle<'_>);
    let (values, pass) = Container::<u64>::new(alloc, 4, 1).ok()?;
    let mut handle = values.handle(pass);
    let of_container = is_split!(alloc, &mut handle, container::Handle<'_, u64>);
    Some([of_set, of_container])
}

/// Each type can be split in one, three, four and nine. A refusal would say that a split
/// was lost or not made.
#[test]
fn each_is_split_in_many(rt: HostRuntime) -> Result<(), Fail> {
    assert!(rt; split_passes(rt.alloc()) == Some([true; 2]));
    assert!(rt; split_handles(rt.alloc()) == Some([true; 2]));
    assert!(rt; split_of_others(rt.alloc()) == Some([true; 2]));
    Ok(())
}
