//! Calls of the container: handles, errors and states alone, and then values of one word and of 128. The
//! words of a container are the set's counter, a cell with the owner of each index, the number of changes,
//! the number of each element, and the values (`steps::container::layout`).
use crate::drive::end_with;
use std::test::Fail;
use steps::ask::{After, Want};
use steps::container::add::{Add, Owned};
use steps::container::enums::{ContainerAddFailure, ContainerStateError};
use steps::container::handle::ContainerHandle;
use steps::container::look::Look;
use steps::container::replace::{Replace, Replacement};
use steps::container::state::ContainerState;
use steps::enums::{CallbackProgression, OwnerId};
use steps::indices::enums::UniqueIndexSetAcquireFailure;
use steps::indices::robust::parts::EMPTY;
use steps::routine::{Routine, Running};
use steps::words::Words;
use tests_calls::long_values::Greatest;

/// An `add` that has taken no step, of this value for this owner, to a container of this capacity.
fn add<T: Words + Drop>(capacity: u32, value: T, owner: OwnerId) -> Running<Add<T>, Owned<T>, ()> {
    Running {
        call: Add::new(capacity),
        given: Owned { value, owner },
        room: (),
    }
}

/// A `replace` that has taken no step: it puts this value at the index, which this owner holds.
fn replace<T: Words + Drop>(
    capacity: u32,
    index: u32,
    owner: OwnerId,
    value: T,
) -> Running<Replace<T>, Replacement<T>, ()> {
    Running {
        call: Replace::new(capacity, index),
        given: Replacement {
            index,
            owner,
            value,
        },
        room: (),
    }
}

/// Takes at most `most` steps of a look, which brings this state up to date from these words. Where the look
/// ends, it returns whether the container had changed, and how many steps that took; otherwise None.
fn look<T: Words>(
    state: &mut ContainerState<T>,
    most: u64,
    words: &mut [u64],
) -> Option<(bool, u64)> {
    let mut call = Look::new(state.capacity);
    for taken in 0..most {
        let answer = match call.ask(&state.seen) {
            Want::Ask(ask) if ask.word < words.len() => {
                let old = words[ask.word];
                words[ask.word] = ask.op.apply(old);
                old
            }
            _ => 0,
        };
        match call.take(&state.seen, &mut state.shown, answer) {
            After::GoOn(next) => call = next,
            After::Done(changed) => {
                state.settle();
                return Some((changed, taken + 1));
            }
        }
    }
    None
}

/// Two handles of one index and one owner, of different containers, are not equal, and the container's number
/// orders them. If they were equal, a handle could be used at a container that it is not of.
#[test]
fn handles(rt: HostRuntime) -> Result<(), Fail> {
    let owner = OwnerId::new(7)?;
    let handle = ContainerHandle {
        index: 2,
        owner,
        container: 5,
    };
    let other = ContainerHandle {
        index: 2,
        owner,
        container: 6,
    };
    assert!(rt; handle.index() == 2 && handle != other && handle < other);
    Ok(())
}

/// Each reason why the set gives no index becomes its own reason why the container adds nothing.
#[test]
fn add_failures(rt: HostRuntime) {
    let rows = [
        (
            UniqueIndexSetAcquireFailure::OutOfIndices,
            ContainerAddFailure::OutOfSpace,
        ),
        (
            UniqueIndexSetAcquireFailure::IsLocked,
            ContainerAddFailure::IsLocked,
        ),
    ];
    for (failure, told) in rows {
        assert!(rt; ContainerAddFailure::from(failure) == told);
    }
}

/// A state belongs to a container of its number and capacity only. If another number or capacity were
/// accepted, a container could update the state of another one.
#[test]
fn whose_state_it_is(rt: HostRuntime) -> Result<(), Fail> {
    let state: Result<ContainerState<u64>, ContainerStateError> = ContainerState::new(
        rt.alloc(),
        5,
        3,
    );
    let state = state?;
    for (container, capacity, is_its) in [(5, 3, true), (5, 4, false), (4, 3, false)] {
        assert!(rt; state.is_of(container, capacity) == is_its, "{container}");
    }
    Ok(())
}

/// A look copies the elements whose number is odd (1 and 5, at the indices 0 and 2), and not the one of
/// number 2. `for_each` then visits these two in order, and no further one after `Stop`. The words: counter
/// 3, owners 1, 2 and 1, change 3, numbers 1, 2 and 5, and three pairs.
#[test]
fn visits_of_a_state(rt: HostRuntime) -> Result<(), Fail> {
    let mut words = [3, 1, 2, 1, 3, 1, 2, 5, 10, 11, 20, 21, 30, 31];
    let mut state = ContainerState::new(rt.alloc(), 0, 3)?;
    assert!(rt; look(&mut state, 20, &mut words) == Some((true, 10)));
    let mut seen = [(9, (0, 0)); 3];
    let mut number = 0usize;
    state.for_each(|index, value: &(u64, u64)| {
        if number < 3 {
            seen[number] = (index, *value);
        }
        number = number.wrapping_add(1);
        CallbackProgression::Continue
    });
    assert!(rt; number == 2);
    assert!(rt; seen[0] == (0, (10, 11)) && seen[1] == (2, (30, 31)));
    let mut visited = 0u32;
    state.for_each(|_, _| {
        visited = visited.wrapping_add(1);
        CallbackProgression::Stop
    });
    assert!(rt; visited == 1);
    Ok(())
}

/// An `add` takes 8 steps and a `replace` 6 at a value of one word. In the end the counter is 1, the owner 7,
/// two changes are counted, the element's number is 3, and the value is the second one.
#[test]
fn values_of_one_word(rt: HostRuntime) -> Result<(), Fail> {
    let owner = OwnerId::new(7)?;
    let mut words = [0, EMPTY, 0, 0, 0];
    assert!(rt; end_with(add(1, 9u64, owner), &mut words, Ok(0), 8));
    assert!(rt; end_with(replace(1, 0, owner, 10u64), &mut words, Ok(()), 6));
    assert!(rt; words == [1, 7, 2, 3, 10]);
    Ok(())
}

/// At values of 128 words `add`, look and `replace` take 127 steps more than at one word, and the look copies
/// all 128 words. A word at a wrong place would change the value that the state shows.
#[test]
fn values_of_128_words(rt: HostRuntime) -> Result<(), Fail> {
    let owner = OwnerId::new(7)?;
    let mut words = [0; 132];
    words[1] = EMPTY;
    let wide = Greatest(3, 9, 4);
    assert!(rt; end_with(add(1, wide, owner), &mut words, Ok(0), 135));
    let mut state = ContainerState::new(rt.alloc(), 0, 1)?;
    assert!(rt; look(&mut state, 200, &mut words) == Some((true, 131)));
    assert!(rt; state.get(0).copied() == Some(wide));
    assert!(rt; end_with(replace(1, 0, owner, wide), &mut words, Ok(()), 133));
    Ok(())
}
