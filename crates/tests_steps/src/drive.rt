//! Drives one call alone over a list of words, by value (`Call::take`) and in place (`Running::go_on`), and
//! compares both. Nobody else changes the words, so the answer and the number of steps are always the same.
use steps::ask::{After, Ask, Call, Want};
use steps::routine::{Routine, Running};

/// The call with nothing given and no room, for calls that store no value and read none.
pub fn bare<C: Routine<Given = (), Room = ()>>(call: C) -> Running<C, (), ()> {
    Running {
        call,
        given: (),
        room: (),
    }
}

/// The operation that a call wants next. None where it asks a question or wants nothing.
pub(crate) fn asked<V>(want: &Want<V>) -> Option<Ask> {
    match want {
        Want::Ask(ask) => Some(*ask),
        Want::Question(_) => None,
        Want::Nothing => None,
    }
}

/// Applies the operation to its word, and returns the old value of the word, which is the call's answer. It
/// is 0 where nothing is asked or the word lies outside the list.
pub(crate) fn answer_to(asked: Option<Ask>, words: &mut [u64]) -> u64 {
    match asked {
        Some(ask) if ask.word < words.len() => {
            let old = words[ask.word];
            words[ask.word] = ask.op.apply(old);
            old
        }
        _ => 0,
    }
}

/// Takes at most `most` steps of the call by value. Where it ends, this is its answer with the number of its
/// steps; otherwise the call as it stands is the error.
fn by_value<C: Call + Drop>(
    mut call: C,
    most: u64,
    words: &mut [u64],
) -> Result<(C::Answer, u64), C>
where
    C::Answer: Drop,
{
    for taken in 0..most {
        let answer = answer_to(asked(&call.ask()), words);
        match call.take(answer) {
            After::GoOn(next) => call = next,
            After::Done(answer) => return Ok((answer, taken + 1)),
        }
    }
    Err(call)
}

/// Takes at most `most` steps of the call in place. Where it ends, this is its answer with the number of its
/// steps; otherwise None.
fn in_place<C: Routine>(
    call: &mut Running<C, C::Given, C::Room>,
    most: u64,
    words: &mut [u64],
) -> Option<(C::Answer, u64)>
where
    C::Answer: Drop,
{
    for taken in 0..most {
        let answer = answer_to(asked(&call.want()), words);
        if let Some(answer) = call.go_on(answer) {
            return Some((answer, taken + 1));
        }
    }
    None
}

/// Takes at most `most` steps of the call both by value and in place, over two copies of the words. Both have
/// to leave the same words, and to end with the same answer and steps or to ask for the same next operation.
/// If not, it is None. The list `words` ends as the call by value left it.
fn run<C: Routine + Drop, const N: usize>(
    call: Running<C, C::Given, C::Room>,
    most: u64,
    words: &mut [u64; N],
) -> Option<Result<(C::Answer, u64), Running<C, C::Given, C::Room>>>
where
    C::Given: Copy,
    C::Room: Copy,
    C::Answer: PartialEq + Drop,
{
    let mut other = Running {
        call: call.call,
        given: call.given,
        room: call.room,
    };
    let mut other_words = *words;
    let ended = in_place(&mut other, most, &mut other_words);
    let valued = by_value(call, most, words);
    if *words != other_words {
        return None;
    }
    match valued {
        Ok(end) => {
            let same = ended == Some(end);
            if same { Some(ended.ok_or(other)) } else { None }
        }
        Err(call) => {
            let same = ended.is_none() && asked(&other.want()) == asked(&call.ask());
            if same { Some(Err(other)) } else { None }
        }
    }
}

/// Runs the call to its end, of at most 300 steps, and returns its answer and its steps. None where it has
/// not ended by then, or where the call by value and the call in place differ.
pub fn whole<C: Routine + Drop, const N: usize>(
    call: Running<C, C::Given, C::Room>,
    words: &mut [u64; N],
) -> Option<(C::Answer, u64)>
where
    C::Given: Copy,
    C::Room: Copy,
    C::Answer: PartialEq + Drop,
{
    run(call, 300, words)?.ok()
}

/// Takes `steps` steps of the call, and returns it as it stands. None where it ends by them, or where the
/// call by value and the call in place differ.
pub fn partly<C: Routine + Drop, const N: usize>(
    call: Running<C, C::Given, C::Room>,
    steps: u64,
    words: &mut [u64; N],
) -> Option<Running<C, C::Given, C::Room>>
where
    C::Given: Copy,
    C::Room: Copy,
    C::Answer: PartialEq + Drop,
{
    run(call, steps, words)?.err()
}

/// Whether the call ends with exactly this answer after exactly `steps` steps, by value and in place alike.
pub fn end_with<C: Routine + Drop, const N: usize>(
    call: Running<C, C::Given, C::Room>,
    words: &mut [u64; N],
    answer: C::Answer,
    steps: u64,
) -> bool
where
    C::Given: Copy,
    C::Room: Copy,
    C::Answer: PartialEq + Drop,
{
    match whole(call, words) {
        Some((came, taken)) => came == answer && taken == steps,
        None => false,
    }
}

/// The list `words` with other words at these places, each given as a place and its word.
pub fn with<const N: usize>(mut words: [u64; N], places: &[(usize, u64)]) -> [u64; N] {
    for (at, word) in places {
        if *at < N {
            words[*at] = *word;
        }
    }
    words
}
