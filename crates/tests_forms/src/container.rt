//! Plays blocks of a script on containers of values, in each form, with three states of the
//! container beside it.
ghost use Rattle.lock_free.specs.Container.Names.{IsPassOf};

use crate::lines::{Answer, Answers, Block, Call, Made, goes_on, is_yes, mode, owner, play_on};
use lock_free::mpmc::container::{
    Container, ContainerHandle, ContainerState, FixedSizeContainer, Handle, Pass,
};
use std::mem;
use std::sync::Wait;
use steps::container::enums::{ContainerAddFailure, ContainerRemoveError};
use steps::enums::UniqueIndexCreationError;
use steps::indices::enums::ReleaseState;
use tests_calls::long_values::{Greatest, Sixteen, Three};
use tests_calls::numbered::Numbered;

/// The handle that a call gives by its first three numbers: an index, an owner and the number of a container.
fn handle(call: Call<'_>) -> ContainerHandle {
    ContainerHandle {
        index: (call.numbers[0] & 0xffff_ffff) as u32,
        owner: owner(call.numbers[1]),
        container: call.numbers[2],
    }
}

/// Adds the index, the owner and the container's number of a handle.
fn say_handle(handle: ContainerHandle, answer: &mut Answer) {
    answer.number(handle.index as u64);
    answer.number(handle.owner.value());
    answer.number(handle.container);
}

/// Adds the handle of the value that was added, or the word for why it was refused.
fn say_added(handle: Result<ContainerHandle, ContainerAddFailure>, answer: &mut Answer) {
    match handle {
        Ok(handle) => say_handle(handle, answer),
        Err(ContainerAddFailure::OutOfSpace) => answer.word("OutOfSpace"),
        Err(ContainerAddFailure::IsLocked) => answer.word("locked"),
    }
}

/// Adds whether a remove left the container locked. `not_owned` says that the owner does not have the index.
fn say_removed(state: Result<ReleaseState, ContainerRemoveError>, answer: &mut Answer) {
    match state {
        Ok(state) => answer.ended(state),
        Err(_) => answer.word("not_owned"),
    }
}

/// Adds whether a replace was done. `not_owned` says that the owner does not have the index.
fn say_replaced(end: Result<(), ContainerRemoveError>, answer: &mut Answer) {
    answer.word(match end {
        Ok(()) => "done",
        Err(_) => "not_owned",
    });
}

/// Three states of the container of the block, which show nothing yet. A call that is about a state gives its
/// number, 0 to 2.
fn states<T: Numbered>(block: &Block<'_>) -> Option<Vec<ContainerState<T>>> {
    let mut states = Vec::new(block.alloc);
    let capacity = u32::try_from(block.capacity).ok()?;
    for _ in 0..3 {
        let state = ContainerState::new(block.alloc, block.numbers[1], capacity).ok()?;
        states.push(state).ok()?;
    }
    Some(states)
}

/// `for_each 2 9`: adds how many values the state 2 shows, and then each index with its value. The closure
/// answers Stop at the ninth.
fn show<T: Numbered>(state: &ContainerState<T>, call: Call<'_>, answer: &mut Answer) {
    let mut number = 0u64;
    answer.number(state.number() as u64);
    state.for_each(|index, value| {
        number = number.wrapping_add(1);
        answer.number(index as u64);
        answer.number(value.number());
        goes_on(number, call.numbers[1])
    });
}

/// `get 2 7`: adds the value that the state 2 shows at the index 7, if any.
fn get<T: Numbered>(state: &ContainerState<T>, call: Call<'_>, answer: &mut Answer) {
    match state.get(call.numbers[1] as usize) {
        Some(value) => answer.perhaps(Some(value.number())),
        None => answer.perhaps(None),
    }
}

/// A call about a state, whose number it gives first: the state is taken anew, brought up to date, or looked
/// at. `refused` where the state is not one of this container.
macro_rules! use_state {
    ($self:ident, $call:ident, $answer:ident, $update_by:ident $(, $rt:ident)?) => {{
        let Some(state) = $self.states.get_mut($call.numbers[0] as usize) else {
            return;
        };
        match $call.name {
            "get_state" => match $self.container.get_state($($rt)?) {
                Ok(new) => *state = new,
                Err(_) => $answer.lost = true,
            },
            "update_state" if $self.container.is_state_of(state) => {
                $answer.truth($self.container.update_state($($rt,)? state));
            }
            "update_state_by" => $update_by($($rt,)? state, $call, $answer),
            "for_each" => show(state, $call, $answer),
            "get" => get(state, $call, $answer),
            _ => $answer.word("refused"),
        }
    }};
}

/// `find 7 2`: adds the handle and the value of each index of the owner 7, and how many there were. The
/// closure answers Stop at the second.
macro_rules! find {
    ($self:ident, $call:ident, $answer:ident) => {{
        let mut number = 0u64;
        let found = $self.container.find(
            owner($call.numbers[0]),
            &mut |value, handle| {
                number = number.wrapping_add(1);
                say_handle(handle, $answer);
                $answer.number(value.number());
                goes_on(number, $call.numbers[1])
            },
        );
        $answer.word("found");
        $answer.number(found as u64);
    }};
}

/// `recover 7 1 5`: recovers the owner 7, and locks at the last index, since the second number is not 0. By
/// the bits of 5 the first and the third question are answered with yes. Adds whether the container is
/// locked, and the values that were asked about.
macro_rules! recover {
    ($self:ident, $call:ident, $answer:ident $(, $rt:ident)?) => {{
        let mut asked = Answer::new($answer.alloc);
        let mut question = 0u64;
        let state = $self.container.recover(
            $($rt,)?
            owner($call.numbers[0]),
            &mut |value| {
                asked.number(value.number());
                question = question.wrapping_add(1);
                is_yes($call.numbers[2], question.wrapping_sub(1))
            },
            mode($call.numbers[1]),
        );
        $answer.ended(state);
        $answer.word("asked");
        $answer.put(asked.text.as_str());
        $answer.lost |= asked.lost;
    }};
}

/// Makes a call that is no `find` and no `recover`, for a container of one caller or by a handle, whose calls
/// have the runtime.
macro_rules! answer_of_container {
    ($self:ident, $call:ident, $answer:ident $(, $rt:ident)?) => {
        match $call.name {
            "add" => {
                let value = T::of_number($call.numbers[0]);
                say_added($self.container.add($($rt,)? value, owner($call.numbers[1])), $answer);
            }
            "remove" => {
                let mode = mode($call.numbers[3]);
                say_removed($self.container.remove($($rt,)? handle($call), mode), $answer);
            }
            "replace" => {
                let value = T::of_number($call.numbers[3]);
                say_replaced($self.container.replace(handle($call), value), $answer);
            }
            "len" => $answer.number($self.container.len($($rt)?) as u64),
            "is_empty" => $answer.truth($self.container.is_empty($($rt)?)),
            "is_locked" => $answer.truth($self.container.is_locked()),
            "capacity" => $answer.number($self.container.capacity() as u64),
            _ => $self.use_state($($rt,)? $call, $answer),
        }
    };
}

/// A container of one caller, and three states of it.
#[derive(Drop)]
struct Alone<T: Numbered> {
    container: plain::Container<T>,
    states: Vec<ContainerState<T>>,
}

impl<T: Numbered> Alone<T> {
    fn use_state(&mut self, call: Call<'_>, answer: &mut Answer) {
        use_state!(self, call, answer, update_alone);
    }

    fn find(&mut self, call: Call<'_>, answer: &mut Answer) {
        find!(self, call, answer);
    }

    fn recover(&mut self, call: Call<'_>, answer: &mut Answer) {
        recover!(self, call, answer);
    }
}

/// `update_state_by 2 4 6`: a new container of capacity 4 and number 6 has to bring the state 2 up to date.
/// `refused` unless the state is of a container of that number and capacity.
fn update_alone<T: Numbered>(state: &mut ContainerState<T>, call: Call<'_>, answer: &mut Answer) {
    let capacity = call.numbers[1] as usize;
    match plain::Container::<T>::new(answer.alloc, capacity, call.numbers[2]) {
        Ok(mut container) if container.is_state_of(state) => {
            answer.truth(container.update_state(state));
        }
        _ => answer.word("refused"),
    }
}

impl<T: Numbered> Answers for Alone<T> {
    fn answer(&mut self, _rt: &impl Wait, call: Call<'_>, answer: &mut Answer) {
        match call.name {
            "find" => self.find(call, answer),
            "recover" => self.recover(call, answer),
            _ => answer_of_container!(self, call, answer),
        }
    }
}

/// A user of a container between threads, and three states of it. It has two handles; the pass of one was
/// made of two passes.
#[derive(Drop)]
struct User<'a, T: Numbered> {
    container: Handle<'a, T>,
    other: Handle<'a, T>,
    states: Vec<ContainerState<T>>,
}

impl<'a, T: Numbered> User<'a, T> {
    /// The user with the whole share: `pass` is split in three, and two of the parts are joined for the
    /// second handle. None where memory or a further pass is refused.
    fn new(block: &Block<'_>, container: &'a Container<T>, pass: Pass<T>) -> Option<User<'a, T>>
        requires { IsPassOf container.now pass }
    {
        let states = states(block)?;
        let mut pass = pass;
        let mut other = pass.split()?;
        other.join(pass.split()?);
        Some(User {
            container: container.handle(pass),
            other: container.handle(other),
            states,
        })
    }

    fn use_state(&mut self, rt: &impl Wait, call: Call<'_>, answer: &mut Answer) {
        use_state!(self, call, answer, update_by, rt);
    }

    fn find(&mut self, call: Call<'_>, answer: &mut Answer) {
        find!(self, call, answer);
    }

    fn recover(&mut self, rt: &impl Wait, call: Call<'_>, answer: &mut Answer) {
        recover!(self, call, answer, rt);
    }
}

/// `update_state_by 2 4 6` for a container between threads: what `update_alone` does for one of one caller.
fn update_by<T: Numbered>(
    rt: &impl Wait,
    state: &mut ContainerState<T>,
    call: Call<'_>,
    answer: &mut Answer,
) {
    match Container::<T>::new(answer.alloc, call.numbers[1] as usize, call.numbers[2]) {
        Ok((container, mut pass)) if container.is_state_of(state) => {
            answer.truth(container.update_state(rt, state, &mut pass));
        }
        _ => answer.word("refused"),
    }
}

impl<'a, T: Numbered> Answers for User<'a, T> {
    fn answer(&mut self, rt: &impl Wait, call: Call<'_>, answer: &mut Answer) {
        match call.name {
            "find" => self.find(call, answer),
            "recover" => self.recover(rt, call, answer),
            "other" => mem::swap(&mut self.container, &mut self.other),
            _ => answer_of_container!(self, call, answer, rt),
        }
    }
}

/// Plays the block on a container of its form, with values of its type. The second number of the block is the
/// container's number.
pub fn play_container(rt: &impl Wait, block: &mut Block<'_>) -> Made {
    of_values!(container_of, rt, block)
}

/// Plays the block on a container of values of one type, in the form that the block names.
fn container_of<T: Numbered>(rt: &impl Wait, block: &mut Block<'_>) -> Made {
    match block.form {
        "plain" => play_alone::<T>(rt, block),
        "heap" => heap::<T>(rt, block),
        _ => of_capacity!(fixed::<T>, block.capacity, rt, block; 0 1 3 4 5 9 139 4_294_967_296),
    }
}

/// Plays the block on a container of one caller.
fn play_alone<T: Numbered>(rt: &impl Wait, block: &mut Block<'_>) -> Made {
    let container = plain::Container::<T>::new(block.alloc, block.capacity, block.numbers[1])?;
    let Some(states) = states(block) else {
        return Err(UniqueIndexCreationError::NoMemory);
    };
    play_on(rt, block, Some(Alone { container, states }))
}

/// Plays the block on a container between threads whose capacity the block gives.
fn heap<T: Numbered>(rt: &impl Wait, block: &mut Block<'_>) -> Made {
    let (container, pass) = Container::<T>::new(block.alloc, block.capacity, block.numbers[1])?;
    let user = User::new(block, &container, pass);
    play_on(rt, block, user)
}

/// Plays the block on a container between threads whose type has the capacity `N`.
fn fixed<T: Numbered, const N: usize>(rt: &impl Wait, block: &mut Block<'_>) -> Made {
    let (container, pass) = FixedSizeContainer::<T, N>::new(block.alloc, block.numbers[1])?;
    let user = User::new(block, &container, pass);
    play_on(rt, block, user)
}
