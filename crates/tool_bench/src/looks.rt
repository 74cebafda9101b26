//! The rows of the container's states and of `replace`, compared with the same steps by hand and with what a
//! user would take instead.

use crate::hand::looks as by_hand;
use crate::timing::{Asked, Row};
use lock_free::mpmc::container::{
    CallbackProgression, Container, ContainerHandle, ContainerState, Handle, OwnerId,
};
use std::alloc::{AllocError, Global};
use std::sync::{Mutex, Wait};
use std::time::CpuClock;

/// What a user would take instead of a container with states.
const LOCKED: &str = "`Mutex<Vec>`";

/// The values that a user would keep under a lock, and how often they have changed.
#[derive(Drop)]
struct Kept {
    values: Vec<u64>,
    changes: u64,
}

impl Kept {
    /// `number` values, each of them 7.
    fn new(alloc: Global, number: usize) -> Result<Kept, AllocError> {
        let values = Vec::from_elem(alloc, 7u64, number)?;
        Ok(Kept { values, changes: 0 })
    }

    /// Writes the first value, and counts the change. It returns 1, as `replaces` does.
    #[inline(always)]
    fn change(&mut self, value: u64) -> u64 {
        if self.values.len() > 0 {
            self.values[0] = value;
        }
        self.changes = self.changes.wrapping_add(1);
        1
    }

    /// Copies all values into `copy`, if they have changed since it was made. 1 where they
    /// have, and 0 where not.
    #[inline(always)]
    fn update(&self, copy: &mut Kept) -> u64 {
        if copy.changes == self.changes || copy.values.len() != self.values.len() {
            return 0;
        }
        copy.values.copy_from_slice(&self.values);
        copy.changes = self.changes;
        1
    }
}

/// A container in which 7 stands at each index, a state of it, and the handle of the value at the last index.
/// Beside it are the container by hand with that index, and the values under a lock with a copy, as a user
/// would have them.
struct Looks<'a> {
    container: Handle<'a, u64>,
    state: ContainerState<u64>,
    one: ContainerHandle,
    hand: by_hand::Looks,
    last: u32,
    kept: &'a Mutex<Kept>,
    copy: Kept,
}

impl<'a> Drop for Looks<'a> {
    fn drop(self) {
        let Self {
            container: _container,
            state: _state,
            one: _,
            hand: _hand,
            last: _,
            kept: _,
            copy: _copy,
        } = self;
    }
}

impl<'a> Looks<'a> {
    /// Replaces the value at the last index. 1 where that is done.
    #[inline(always)]
    fn replaces(&mut self, number: u64) -> u64 {
        self.container.replace(self.one, number).is_ok() as u64
    }

    /// Brings the state up to date. 1 where it had changed, 0 where not, and 2 where it is not
    /// one of this container.
    #[inline(always)]
    fn updates<R: Wait>(&mut self, rt: &R) -> u64 {
        if !self.container.is_state_of(&self.state) {
            return 2;
        }
        self.container.update_state(rt, &mut self.state) as u64
    }
}

/// Takes a new state of a full container, compared with the same steps by hand.
struct GetState;

impl<'a> Row<Looks<'a>> for GetState {
    const NAME: &'static str = "container: get_state of a full one";

    fn ours<R: Wait>(on: &mut Looks<'a>, rt: &R, _number: u64) -> u64 {
        on.container.get_state(rt).is_ok() as u64
    }

    fn theirs<R: Wait>(on: &mut Looks<'a>, _rt: &R, _number: u64) -> u64 {
        on.hand.get() as u64
    }
}

/// Takes a new state of a full container, compared with a copy of the vector under its lock.
struct GetStateBeside;

impl<'a> Row<Looks<'a>> for GetStateBeside {
    const NAME: &'static str = "container: get_state of a full one";

    const BESIDE: &'static str = LOCKED;

    fn ours<R: Wait>(on: &mut Looks<'a>, rt: &R, _number: u64) -> u64 {
        on.container.get_state(rt).is_ok() as u64
    }

    fn theirs<R: Wait>(on: &mut Looks<'a>, rt: &R, _number: u64) -> u64 {
        on.kept.lock(rt).values.clone().is_ok() as u64
    }
}

/// Brings a state up to date in which nothing has changed.
struct Unchanged;

impl<'a> Row<Looks<'a>> for Unchanged {
    const NAME: &'static str = "container: update_state, unchanged";

    fn ours<R: Wait>(on: &mut Looks<'a>, rt: &R, _number: u64) -> u64 {
        on.updates(rt)
    }

    fn theirs<R: Wait>(on: &mut Looks<'a>, _rt: &R, _number: u64) -> u64 {
        on.hand.update() as u64
    }
}

/// Replaces one value, and brings a state up to date, compared with the same steps by hand.
struct ChangeOne;

impl<'a> Row<Looks<'a>> for ChangeOne {
    const NAME: &'static str = "container: replace, and update_state";

    fn ours<R: Wait>(on: &mut Looks<'a>, rt: &R, number: u64) -> u64 {
        on.replaces(number);
        on.updates(rt)
    }

    fn theirs<R: Wait>(on: &mut Looks<'a>, _rt: &R, number: u64) -> u64 {
        on.hand.replace(on.last, number);
        on.hand.update() as u64
    }
}

/// Replaces one value, and brings a state up to date, compared with a write and a copy of the
/// vector under its lock.
struct ChangeBeside;

impl<'a> Row<Looks<'a>> for ChangeBeside {
    const NAME: &'static str = "container: replace, and update_state";

    const BESIDE: &'static str = LOCKED;

    fn ours<R: Wait>(on: &mut Looks<'a>, rt: &R, number: u64) -> u64 {
        on.replaces(number);
        on.updates(rt)
    }

    fn theirs<R: Wait>(on: &mut Looks<'a>, rt: &R, number: u64) -> u64 {
        on.kept.lock(rt).change(number);
        on.kept.lock(rt).update(&mut on.copy)
    }
}

/// Replaces one value, compared with a write of the vector under its lock.
struct ReplaceBeside;

impl<'a> Row<Looks<'a>> for ReplaceBeside {
    const NAME: &'static str = "container: replace";

    const BESIDE: &'static str = LOCKED;

    fn ours<R: Wait>(on: &mut Looks<'a>, _rt: &R, number: u64) -> u64 {
        on.replaces(number)
    }

    fn theirs<R: Wait>(on: &mut Looks<'a>, rt: &R, number: u64) -> u64 {
        on.kept.lock(rt).change(number)
    }
}

/// Sums the values that a state shows, compared with a sum over a vector.
struct ForEachBeside;

impl<'a> Row<Looks<'a>> for ForEachBeside {
    const NAME: &'static str = "container: for_each of a state of a full one";

    const BESIDE: &'static str = "`Vec`";

    fn ours<R: Wait>(on: &mut Looks<'a>, _rt: &R, number: u64) -> u64 {
        let mut sum = number;
        on.state.for_each(|_, value| {
            sum = sum.wrapping_add(*value);
            CallbackProgression::Continue
        });
        sum
    }

    fn theirs<R: Wait>(on: &mut Looks<'a>, _rt: &R, number: u64) -> u64 {
        let mut sum = number;
        for value in on.copy.values.iter() {
            sum = sum.wrapping_add(*value);
        }
        sum
    }
}

/// Fills the container with 7 at each index, and returns the handle of the last one. None
/// where an `add` is refused.
fn fill<R: Wait>(rt: &R, container: &mut Handle<'_, u64>, number: u32) -> Option<ContainerHandle> {
    let owner = OwnerId::new(7).ok()?;
    let mut last = container.add(rt, 7, owner);
    for _ in 1..number {
        last = container.add(rt, 7, owner);
    }
    last.ok()
}

/// The container, filled, with its state, and what it is compared with. None where memory or
/// an `add` is refused.
fn make<'a, R: Wait>(
    rt: &R,
    alloc: Global,
    mut container: Handle<'a, u64>,
    kept: &'a Mutex<Kept>,
    capacity: u32,
) -> Option<Looks<'a>> {
    let mut hand = by_hand::Looks::new(alloc, capacity).ok()?;
    hand.update();
    let copy = Kept::new(alloc, capacity as usize).ok()?;
    let one = fill(rt, &mut container, capacity)?;
    let state = container.get_state(rt).ok()?;
    Some(Looks {
        container,
        state,
        one,
        hand,
        last: capacity.saturating_sub(1),
        kept,
        copy,
    })
}

/// Times and prints the rows of states that are asked for. The values of a state are summed before anything
/// is replaced, so that both sides have the same sum. None where memory or the clock fails.
pub fn rows<R: Wait + CpuClock + Print>(
    rt: &R,
    alloc: Global,
    asked: &Asked<'_>,
    capacity: u32,
) -> Option<()> {
    let kept = Mutex::new(Kept::new(alloc, capacity as usize).ok()?);
    let (container, pass) = Container::new(alloc, capacity as usize, 1).ok()?;
    let mut on = make(rt, alloc, container.handle(pass), &kept, capacity)?;
    asked.alone::<ForEachBeside, Looks<'_>, R>(rt, capacity, &mut on)?;
    asked.alone::<GetState, Looks<'_>, R>(rt, capacity, &mut on)?;
    asked.alone::<GetStateBeside, Looks<'_>, R>(rt, capacity, &mut on)?;
    asked.alone::<Unchanged, Looks<'_>, R>(rt, capacity, &mut on)?;
    asked.alone::<ChangeOne, Looks<'_>, R>(rt, capacity, &mut on)?;
    asked.alone::<ChangeBeside, Looks<'_>, R>(rt, capacity, &mut on)?;
    asked.alone::<ReplaceBeside, Looks<'_>, R>(rt, capacity, &mut on)
}
