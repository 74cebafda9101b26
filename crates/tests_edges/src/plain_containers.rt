//! Containers of one caller: a state that is refused memory, and values of 128 words.
use plain::Container;
use std::alloc::Global;
use std::test::Fail;
use steps::container::state::ContainerState;
use steps::enums::{CallbackProgression, OwnerId, UniqueIndexCreationError};
use steps::indices::enums::{ReleaseMode, ReleaseState};
use tests_calls::long_values::Greatest;
use tests_calls::numbered::Numbered;

/// Adds the value of this number for the owner. True if it gets this index, and its handle has this owner and
/// the container's number 9.
fn add<T: Numbered>(container: &mut Container<T>, value: u64, owner: OwnerId, index: u32) -> bool {
    match container.add(T::of_number(value), owner) {
        Ok(handle) => handle.index == index && handle.owner == owner && handle.container == 9,
        Err(_) => false,
    }
}

/// A state of the container. None where memory is refused.
fn state_of(container: &mut Container<u64>) -> Option<ContainerState<u64>> {
    container.get_state().ok()
}

/// Whether the state still shows the container as it is: no change since, two values, and no lock.
fn is_unchanged(container: &mut Container<u64>, state: &mut ContainerState<u64>) -> bool {
    let same = container.is_state_of(state) && !container.update_state(state);
    let number = container.len();
    same && number == 2 && !container.is_empty() && !container.is_locked()
}

/// Takes two states of a container with the values 5 and 6. True if the second one shows these, and the first
/// one, taken before, sees no change. None where memory is refused to one of them.
fn second_state(container: &mut Container<u64>) -> Option<bool> {
    let mut first = state_of(container)?;
    let second = state_of(container);
    if !is_unchanged(container, &mut first) {
        return Some(false);
    }
    let second = second?;
    Some((second.get(0), second.get(1), second.get(2)) == (Some(&5), Some(&6), None))
}

/// Makes a container of capacity 3 with the values 5 and 6, and plays `second_state` on it.
fn of_two(alloc: Global, owner: OwnerId) -> Result<Option<bool>, UniqueIndexCreationError> {
    let mut container = Container::<u64>::new(alloc, 3, 9)?;
    let added = add(&mut container, 5, owner, 0) & add(&mut container, 6, owner, 1);
    Ok(second_state(&mut container).map(|right| right && added))
}

/// Where memory is refused to a state, the test fails by `no memory` alone. The first state then shows that
/// the refusal has changed nothing in the container.
#[test]
fn a_refused_state(rt: HostRuntime) -> Result<(), Fail> {
    let owner = OwnerId::new(1)?;
    let right = of_two(rt.alloc(), owner)?.ok_or("no memory")?;
    assert!(rt; right);
    Ok(())
}

/// Finds the owner's values. True if they are 1 at index 0 and 4 at index 1, both in the
/// container of number 9.
fn find(container: &mut Container<Greatest>, owner: OwnerId) -> bool {
    let mut digits = 0u64;
    let found = container.find(
        owner,
        &mut |value, handle| {
            digits = digits
                .wrapping_mul(10)
                .wrapping_add(value.number())
                .wrapping_mul(10)
                .wrapping_add(handle.index as u64)
                .wrapping_mul(10)
                .wrapping_add(handle.container);
            CallbackProgression::Continue
        },
    );
    found == 2 && digits == 109_419
}

/// Recovers the owner's two values, with a lock at the last index. True if it asks about 1 and then 4, and
/// the container is locked then.
fn recover(container: &mut Container<Greatest>, owner: OwnerId) -> bool {
    let mut digits = 0u64;
    let state = container.recover(
        owner,
        &mut |value| {
            digits = digits.wrapping_mul(10).wrapping_add(value.number());
            true
        },
        ReleaseMode::LockIfLastIndex,
    );
    digits == 14 && state == ReleaseState::Locked
}

/// Values of 128 words, the most that there are, are added, found and recovered whole by one caller.
#[test]
fn values_of_128_words(rt: HostRuntime) -> Result<(), Fail> {
    let owner = OwnerId::new(1)?;
    let mut container = Container::<Greatest>::new(rt.alloc(), 2, 9)?;
    let mut right = add(&mut container, 1, owner, 0) & add(&mut container, 4, owner, 1);
    right &= find(&mut container, owner);
    right &= recover(&mut container, owner);
    assert!(rt; right);
    Ok(())
}
