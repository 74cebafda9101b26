//! Rows of calls that are made one after another on one list of words, each with the answer and the number of
//! steps that it has to come to.
use crate::drive::{bare, end_with};
use crate::driven::{load, peek, pop, push, store};
use std::process::Abort;
use steps::atomic::version::Version;
use steps::queues::lengths::Len;
use steps::words::Words;

/// A call with what it has to come to. The last number is that of its steps; a `Version` has one step, and
/// its number is the version that it answers.
#[derive(Drop)]
pub enum Row<T> {
    /// A push of this value, and whether it is taken.
    Push(T, bool, u64),
    /// A pop, and the value that it answers, if any.
    Pop(Option<T>, u64),
    /// A peek, and the value that it answers, if any.
    Peek(Option<T>, u64),
    /// A store of this value, and whether it is taken.
    Store(T, bool, u64),
    /// A load, and the value that it answers.
    Load(T, u64),
    /// A question for the version of the single value, and the version that it answers.
    Version(u64),
    /// A question for the number of values that wait, and the number that it answers.
    Len(u64, u64),
}

/// Makes the call of the row on these words, and says whether it came to the row's answer and steps.
fn make_call<T: Words + PartialEq + Drop, const N: usize>(
    capacity: u32,
    words: &mut [u64; N],
    row: &Row<T>,
) -> bool {
    match *row {
        Row::Push(value, taken, steps) => end_with(push(capacity, value), words, taken, steps),
        Row::Pop(value, steps) => end_with(pop::<T>(capacity), words, value, steps),
        Row::Peek(value, steps) => end_with(peek::<T>(capacity), words, value, steps),
        Row::Store(value, taken, steps) => end_with(store(value), words, taken, steps),
        Row::Load(value, steps) => end_with(load::<T>(), words, value, steps),
        Row::Version(number) => end_with(bare(Version), words, number, 1),
        Row::Len(number, steps) => end_with(bare(Len::new(capacity)), words, number, steps),
    }
}

/// Makes these calls in order on `words`, and fails at the first that does not come to what its row says. The
/// words have to be `after` in the end.
pub fn play<T: Words + PartialEq + Drop, const N: usize>(
    rt: &impl Abort,
    name: &str,
    capacity: u32,
    words: [u64; N],
    rows: &[Row<T>],
    after: [u64; N],
) {
    let mut words = words;
    for (at, row) in rows.iter().enumerate() {
        assert!(rt; make_call(capacity, &mut words, row), "{name}: row {at}");
    }
    assert!(rt; words == after, "{name}: words");
}

/// Whether an empty queue can be filled with these values, as many as its capacity, and emptied in order,
/// twice. While it is full each further push is refused; when it is empty a peek and a pop answer None.
pub fn fill_and_empty<T: Words + PartialEq + Drop, const N: usize>(
    capacity: u32,
    values: &[T],
    words: &mut [u64; N],
) -> bool {
    let steps = T::WORDS as u64 + 3;
    let mut right = true;
    for _ in 0..2 {
        for value in values {
            right &= make_call(capacity, words, &Row::Push(*value, true, steps));
        }
        right &= make_call::<T, N>(capacity, words, &Row::Len(capacity as u64, 4));
        for value in values {
            right &= make_call(capacity, words, &Row::Push(*value, false, 2));
        }
        for value in values {
            right &= make_call(capacity, words, &Row::Peek(Some(*value), steps - 1));
            right &= make_call(capacity, words, &Row::Pop(Some(*value), steps));
        }
        right &= make_call::<T, N>(capacity, words, &Row::Peek(None, 2));
        right &= make_call::<T, N>(capacity, words, &Row::Pop(None, 2));
    }
    right
}
