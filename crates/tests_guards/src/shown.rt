//! What `Debug` shows of sets, handles and guards. The fields that are left out are shown by two dots.
use lock_free_guards::robust_index::RobustIndex;
use lock_free_owners::mpmc::robust_unique_index_set::{OwnerId, RobustUniqueIndexSet};
use lock_free_sets::mpmc::unique_index_set::UniqueIndexSet;
use std::alloc::Global;
use std::fmt::Debug;
use std::sync::Wait;
use std::test::Fail;

/// Whether `Debug` shows the value by this text.
fn is_shown<T: Debug>(alloc: Global, value: &T, text: &str) -> bool {
    match format!(in alloc; "{value:?}") {
        Ok(said) => said.as_str() == text,
        Err(_) => false,
    }
}

/// Whether a unique index set, a handle and a guard of its first index show themselves by their texts. None
/// where one is refused.
fn show_unique(rt: &impl Wait, alloc: Global) -> Option<[bool; 3]> {
    let (set, pass) = UniqueIndexSet::new(alloc, 2).ok()?;
    let of_set = is_shown(alloc, &set, "UniqueIndexSet { capacity: 2, .. }");
    let handle = set.handle(pass);
    let of_handle = is_shown(alloc, &handle, "Handle { .. }");
    let index = handle.acquire(rt).ok()?;
    let of_index = is_shown(alloc, &index, "UniqueIndex { index: 0, .. }");
    Some([of_set, of_handle, of_index])
}

/// Whether a guard of a robust set shows its owner and its index. None where it is refused.
fn show_robust(rt: &impl Wait, alloc: Global) -> Option<bool> {
    let owner = OwnerId::new(7).ok()?;
    let (set, pass) = RobustUniqueIndexSet::new(alloc, 4).ok()?;
    let index = RobustIndex::acquire(rt, &set, pass, owner).ok()?;
    let text = "RobustIndex { owner: OwnerId { number: 7 }, index: 0, .. }";
    Some(is_shown(alloc, &index, text))
}

/// A guard shows its index and, of a robust set, its owner, and not the pass within it.
#[test]
fn guards_show_themselves(rt: HostRuntime) -> Result<(), Fail> {
    assert!(rt; show_unique(&rt, rt.alloc()) == Some([true; 3]));
    assert!(rt; show_robust(&rt, rt.alloc()) == Some(true));
    Ok(())
}
