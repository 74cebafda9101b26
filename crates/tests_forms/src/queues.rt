//! Plays blocks of a script on queues of numbers, overflowing queues and queues of values, in each form.
ghost use Rattle.std.specs.Prelude.{◌≡◌};
ghost use Rattle.lock_free.specs.Queues.Rings.{inner, IsPassOf};

use crate::lines::{Answer, Answers, Block, Call, Made, play, play_on};
use lock_free::spsc::index_queue::{FixedSizeIndexQueue, IndexQueue};
use lock_free::spsc::queue::{Pass, Queue};
use lock_free::spsc::safely_overflowing_index_queue::{
    FixedSizeSafelyOverflowingIndexQueue, SafelyOverflowingIndexQueue,
};
use plain::SafelyOverflowingIndexQueue as Overflowing;
use plain::queues::List;
use std::sync::Wait;
use steps::enums::UniqueIndexCreationError;
use tests_calls::long_values::{Greatest, Sixteen, Three};
use tests_calls::numbered::Numbered;
use user::use_queue;

/// Makes a call that every queue has, of one caller or between threads. The calls of the latter have the
/// runtime and a pass, which come as `$more`.
macro_rules! answer_of_queue {
    ($queue:expr, $call:ident, $answer:ident $(, $more:expr)*) => {
        match $call.name {
            "len" => $answer.number($queue.len($($more),*) as u64),
            "is_empty" => $answer.truth($queue.is_empty($($more),*)),
            "is_full" => $answer.truth($queue.is_full($($more),*)),
            "capacity" => $answer.number($queue.capacity() as u64),
            _ => {}
        }
    };
}

mod user;

/// The number of the value that came out, if one did.
pub fn number_of<T: Numbered>(value: Option<T>) -> Option<u64> {
    match value {
        Some(value) => Some(value.number()),
        None => None,
    }
}

/// Makes a call that is no push on a bounded queue of one caller, and adds what it answers.
fn answer_of_list<E: Copy, T: Numbered>(
    list: &mut List<E, T>,
    call: Call<'_>,
    answer: &mut Answer,
) {
    match call.name {
        "pop" => answer.perhaps(number_of(list.pop())),
        "peek" => answer.perhaps(number_of(list.peek())),
        _ => answer_of_queue!(list, call, answer),
    }
}

impl Answers for plain::IndexQueue {
    fn answer(&mut self, _rt: &impl Wait, call: Call<'_>, answer: &mut Answer) {
        if call.name == "push" {
            answer.truth(self.push(call.numbers[0]));
        } else {
            answer_of_list(self, call, answer);
        }
    }
}

impl<T: Numbered> Answers for plain::Queue<T> {
    fn answer(&mut self, _rt: &impl Wait, call: Call<'_>, answer: &mut Answer) {
        if call.name == "push" {
            answer.truth(self.push(&T::of_number(call.numbers[0])));
        } else {
            answer_of_list(self, call, answer);
        }
    }
}

impl Answers for Overflowing {
    fn answer(&mut self, _rt: &impl Wait, call: Call<'_>, answer: &mut Answer) {
        match call.name {
            "push" => answer.perhaps(self.push(call.numbers[0])),
            "pop" => answer.perhaps(self.pop()),
            _ => answer_of_queue!(self, call, answer),
        }
    }
}

/// An empty bounded queue of one caller. Its positions begin at the second number of the
/// block, if that is not 0.
fn list<E: Copy, T: Numbered>(block: &Block<'_>) -> Result<List<E, T>, UniqueIndexCreationError> {
    if block.numbers[1] == 0 {
        List::new(block.alloc, block.capacity)
    } else {
        List::new_at(block.alloc, block.capacity, block.numbers[1])
    }
}

/// An empty overflowing queue of one caller. Its positions begin at the second number of the block, if that
/// is not 0.
fn overflowing(block: &Block<'_>) -> Result<Overflowing, UniqueIndexCreationError> {
    if block.numbers[1] == 0 {
        Overflowing::new(block.alloc, block.capacity)
    } else {
        Overflowing::new_at(block.alloc, block.capacity, block.numbers[1])
    }
}

/// The lines of the block before the line `close`, and those after it. The latter are played on the queue of
/// one caller that the closed queue leaves.
fn parts(lines: &str) -> (&str, &str) {
    lines.split_once("close\n").unwrap_or((lines, ""))
}

/// Plays the lines before `close` on a queue between threads, by a further pass. Then it closes the queue,
/// and plays the rest on the queue of one caller that is left.
macro_rules! use_and_close {
    ($rt:ident, $block:ident, $queue:ident, $pass:ident) => {{
        let mut pass = $pass;
        let (lines, ending) = parts($block.lines);
        let _beside = use_queue($rt, lines, &mut $block.answer, &$queue, &mut pass);
        play($rt, ending, &mut $block.answer, &mut $queue.close(pass)?);
        Ok(())
    }};
}

/// Plays the block on an index queue of its form.
pub fn play_index(rt: &impl Wait, block: &mut Block<'_>) -> Made {
    match block.form {
        "plain" => {
            let list: plain::IndexQueue = list(block)?;
            play_on(rt, block, Some(list))
        }
        "heap" => index_heap(rt, block),
        _ => of_capacity!(index_fixed, block.capacity, rt, block; 0 1 2 4 5 8 9 128 4_294_967_296),
    }
}

/// Plays the block on an index queue between threads with the capacity and the first position
/// that the block gives.
fn index_heap(rt: &impl Wait, block: &mut Block<'_>) -> Made {
    let (queue, pass) = IndexQueue::new_at(block.alloc, block.capacity, block.numbers[1])?;
    use_and_close!(rt, block, queue, pass)
}

/// Plays the block on an index queue between threads whose type has the capacity `N`.
fn index_fixed<const N: usize>(rt: &impl Wait, block: &mut Block<'_>) -> Made {
    let (queue, pass) = FixedSizeIndexQueue::<N>::new(block.alloc)?;
    use_and_close!(rt, block, queue, pass)
}

/// Plays the block on an overflowing queue of its form.
pub fn play_overflowing(rt: &impl Wait, block: &mut Block<'_>) -> Made {
    match block.form {
        "plain" => {
            let queue = overflowing(block)?;
            play_on(rt, block, Some(queue))
        }
        "heap" => overflowing_heap(rt, block),
        _ => of_capacity!(overflowing_fixed, block.capacity, rt, block; 0 1 2 5 9),
    }
}

/// Plays the block on an overflowing queue between threads with the capacity and the first
/// position that the block gives.
fn overflowing_heap(rt: &impl Wait, block: &mut Block<'_>) -> Made {
    let position = block.numbers[1];
    let (queue, pass) = SafelyOverflowingIndexQueue::new_at(block.alloc, block.capacity, position)?;
    use_and_close!(rt, block, queue, pass)
}

/// Plays the block on an overflowing queue between threads whose type has the capacity `N`.
fn overflowing_fixed<const N: usize>(rt: &impl Wait, block: &mut Block<'_>) -> Made {
    let (queue, pass) = FixedSizeSafelyOverflowingIndexQueue::<N>::new(block.alloc)?;
    use_and_close!(rt, block, queue, pass)
}

/// Plays the block on a queue of values of its type, in its form.
pub fn play_values(rt: &impl Wait, block: &mut Block<'_>) -> Made {
    of_values!(values_of, rt, block)
}

/// Plays the block on a queue of values of one type, in the form that the block names.
fn values_of<T: Numbered>(rt: &impl Wait, block: &mut Block<'_>) -> Made {
    if block.form == "plain" {
        let list: plain::Queue<T> = list(block)?;
        return play_on(rt, block, Some(list));
    }
    of_capacity!(typed::<T>, block.capacity, rt, block; 0 1 2 3 5 9 63 64 65 128 130 1000 5000 4_294_967_296)
}

/// Plays the block on a queue of values between threads whose type has the capacity `N`. Its positions begin
/// at the second number of the block.
fn typed<T: Numbered, const N: usize>(rt: &impl Wait, block: &mut Block<'_>) -> Made {
    if block.numbers[1] == 0 {
        let (queue, pass) = Queue::<T, N>::new(block.alloc)?;
        return use_values(rt, block, queue, pass);
    }
    let (queue, pass) = Queue::<T, N>::new_at(block.alloc, block.numbers[1])?;
    use_values(rt, block, queue, pass)
}

/// Plays the block on this queue of values, by its pass.
fn use_values<T: Numbered, const N: usize>(
    rt: &impl Wait,
    block: &mut Block<'_>,
    queue: Queue<T, N>,
    pass: Pass<T>,
) -> Made
    requires { IsPassOf (inner queue) pass }
{
    use_and_close!(rt, block, queue, pass)
}
