//! States of a container between threads: one that is refused memory, one that outlives its container, and
//! one whose entries are listed.
ghost use Rattle.lock_free.specs.Container.Names.{IsPassOf};

use lock_free::mpmc::container::{
    CallbackProgression, Container, ContainerState, OwnerId, Pass, entries,
};
use lock_free::mpmc::unique_index_set_enums::{ReleaseMode, UniqueIndexCreationError};
use std::alloc::Global;
use std::sync::Wait;
use std::test::Fail;

/// A user of a container, by a pass.
struct User<'a> {
    container: &'a Container<u32>,
    pass: Pass<u32>,
    ghost of: { IsPassOf container.now pass },
}

impl<'a> Drop for User<'a> {
    fn drop(self) {
        let Self {
            container: _,
            pass: _pass,
        } = self;
    }
}

impl<'a> User<'a> {
    /// Adds a value for this owner. False where it is refused.
    fn add(&mut self, rt: &impl Wait, value: u32, owner: OwnerId) -> bool {
        self.container.add(rt, value, owner, &mut self.pass).is_ok()
    }

    /// A state of the container. None where memory is refused.
    fn state(&mut self, rt: &impl Wait) -> Option<ContainerState<u32>> {
        self.container.get_state(rt, &mut self.pass).ok()
    }

    /// Whether the state still shows the container as it is: no change since, two values, and no lock.
    fn is_unchanged(&mut self, rt: &impl Wait, state: &mut ContainerState<u32>) -> bool {
        let same = self.container.is_state_of(state)
            && !self.container.update_state(rt, state, &mut self.pass);
        let number = self.container.len(rt, &mut self.pass);
        same && number == 2 && !self.container.is_locked(&mut self.pass)
    }
}

/// The indices and values that a state shows, as one number with a digit for each: 516 says 5 at index 0 and
/// 6 at index 1.
fn shown(state: &ContainerState<u32>) -> u64 {
    let mut digits = 0u64;
    state.for_each(|index, value| {
        digits = digits
            .wrapping_mul(10)
            .wrapping_add(index as u64)
            .wrapping_mul(10)
            .wrapping_add(*value as u64);
        CallbackProgression::Continue
    });
    digits
}

/// The indices and values that `entries` lists of a state, as one number with a digit for
/// each, as in `shown`.
fn listed(state: &ContainerState<u32>) -> u64 {
    let mut digits = 0u64;
    for (index, value) in entries(state) {
        digits = digits
            .wrapping_mul(10)
            .wrapping_add(index as u64)
            .wrapping_mul(10)
            .wrapping_add(*value as u64);
    }
    digits
}

/// Takes two states of a container with the values 5 and 6. True if the second one shows these, and the first
/// one, taken before, sees no change. None where memory is refused to one of them.
fn second_state(rt: &impl Wait, user: &mut User<'_>) -> Option<bool> {
    let mut first = user.state(rt)?;
    let second = user.state(rt);
    if !user.is_unchanged(rt, &mut first) {
        return Some(false);
    }
    Some(shown(&second?) == 516)
}

/// Makes a container of capacity 3 with the values 5 and 6, and plays `second_state` on it.
fn of_two(
    rt: &impl Wait,
    alloc: Global,
    owner: OwnerId,
) -> Result<Option<bool>, UniqueIndexCreationError> {
    let (container, pass) = Container::new(alloc, 3, 5)?;
    let mut user = User {
        container: &container,
        pass,
    };
    let added = user.add(rt, 5, owner) & user.add(rt, 6, owner);
    Ok(second_state(rt, &mut user).map(|right| right && added))
}

/// Where memory is refused to a state, the test fails by `no memory` alone. The first state then shows that
/// the refusal has changed nothing in the container.
#[test]
fn a_refused_state(rt: HostRuntime) -> Result<(), Fail> {
    let owner = OwnerId::new(1)?;
    let right = of_two(&rt, rt.alloc(), owner)?.ok_or("no memory")?;
    assert!(rt; right);
    Ok(())
}

/// A state of a container with the values 5 and 6, which is dropped before the state is returned. None where
/// memory or an `add` is refused.
fn left_over(rt: &impl Wait, alloc: Global, owner: OwnerId) -> Option<ContainerState<u32>> {
    let (container, pass) = Container::new(alloc, 3, 5).ok()?;
    let mut user = User {
        container: &container,
        pass,
    };
    if user.add(rt, 5, owner) & user.add(rt, 6, owner) {
        user.state(rt)
    } else {
        None
    }
}

/// A state shows its values after its container is gone. If it only pointed to them, they
/// would be freed by then.
#[test]
fn state_without_container(rt: HostRuntime) -> Result<(), Fail> {
    let owner = OwnerId::new(1)?;
    let state = left_over(&rt, rt.alloc(), owner).ok_or("no state")?;
    assert!(rt; shown(&state) == 516 && state.get(1) == Some(&6));
    Ok(())
}

/// The entries of a state come by ascending index, from the first index to the last, and without one that was
/// removed. A state that was taken before the remove still lists the removed value.
#[test]
fn state_entries(rt: HostRuntime) -> Result<(), Fail> {
    let owner = OwnerId::new(1)?;
    let (container, pass) = Container::new(rt.alloc(), 3, 5)?;
    let mut values = container.handle(pass);
    let none = values.get_state(&rt)?;
    assert!(rt; entries(&none).next().is_none());
    values.add(&rt, 5, owner)?;
    let second = values.add(&rt, 6, owner)?;
    values.add(&rt, 7, owner)?;
    let all = values.get_state(&rt)?;
    values.remove(&rt, second, ReleaseMode::Default)?;
    let left = values.get_state(&rt)?;
    assert!(rt; listed(&all) == 51627 && listed(&left) == 527 && shown(&left) == 527);
    let mut rest = entries(&left);
    assert!(rt; rest.next() == Some((0, &5)) && rest.clone()?.next() == Some((2, &7)));
    assert!(rt; rest.next() == Some((2, &7)) && rest.next().is_none());
    Ok(())
}
