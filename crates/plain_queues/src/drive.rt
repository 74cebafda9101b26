//! Whole calls over words that nobody else touches.
ghost use Rattle.std.specs.Prelude.{◌≡◌, slice_index, slice_set};
ghost use Rattle.plain_queues.specs.Alone.{written_at, answer_in, words_then, room_then, stepped, CanStop, StopsAlike, CanEnd, EndsAlike};
ghost use Rattle.plain_queues.specs.FirstSteps.{StopsOn};

use steps::ask::{After, Ask, Op, Question, Want};
use steps::routine::Routine;

/// Says where a driver stops: at a question, with the call that puts it, or at the end.
#[derive(Clone, Copy)]
pub enum Stop<C, E> {
    Asked(Question<()>, C),
    Ended(E),
}

/// Returns the word, or 0 where there is no such word.
#[inline(always)]
fn read(words: &[u64], word: usize) -> u64
    ensures { result ≡ slice_index words.now word }
{
    if word < words.len() { words[word] } else { 0 }
}

/// Writes the word, and returns what it was before, or 0 where there is no such word.
#[inline(always)]
fn write(words: &mut [u64], word: usize, new: u64) -> u64
    ensures old { result ≡ slice_index words.old word }
    ensures words { words.new ≡ slice_set words.old word new }
{
    if word < words.len() {
        let old = words[word];
        words[word] = new;
        old
    } else {
        0
    }
}

/// Does the operation on its word, and returns the word's old value. Where there is no such word, nothing
/// changes, and it returns 0.
#[inline(always)]
fn perform(words: &mut [u64], ask: Ask) -> u64
    ensures old { result ≡ slice_index words.old ask.word }
    ensures words { words.new ≡ written_at words.old ask }
{
    // The match on the operation comes before the look for the word, so that a compiler keeps a
    // call's stages apart.
    match ask.op {
        Op::Load => read(words, ask.word),
        Op::Store(new) => write(words, ask.word, new),
        Op::Swap(new) => write(words, ask.word, new),
        Op::Exchange(from, to) => {
            let old = read(words, ask.word);
            if old == from {
                write(words, ask.word, to)
            } else {
                old
            }
        }
        op => {
            let old = read(words, ask.word);
            write(words, ask.word, op.apply(old))
        }
    }
}

/// Takes one step of a call over these words. It stops at a question, which changes nothing,
/// and at the call's end.
#[inline(always)]
pub fn step<C: Routine>(
    words: &mut [u64],
    call: C,
    given: &C::Given,
    room: &mut C::Room,
) -> After<C, Stop<C, C::End>>
    ensures goes { result ≡ stepped (C.want_of call given.now) call
        (C.after call given.now (answer_in words.old (C.want_of call given.now))) }
    ensures room { room.new ≡ room_then (C.want_of call given.now) room.old
        (C.kept call room.old (answer_in words.old (C.want_of call given.now))) }
    ensures words { words.new ≡ words_then words.old (C.want_of call given.now) }
{
    let answer = match call.ask(given) {
        Want::Ask(ask) => perform(words, ask),
        Want::Question(question) => return After::Done(Stop::Asked(question, call)),
        Want::Nothing => 0,
    };
    match call.take(given, room, answer) {
        After::GoOn(next) => After::GoOn(next),
        After::Done(end) => After::Done(Stop::Ended(end)),
    }
}

/// Takes two steps of a call, or one where the call stops at it.
#[inline(always)]
fn two_steps<C: Routine>(
    words: &mut [u64],
    call: C,
    given: &C::Given,
    room: &mut C::Room,
) -> After<C, Stop<C, C::End>>
    ensures { StopsOn C.want_of C.after C.kept given.now call room.old words.old
        result room.new words.new }
{
    match step(words, call, given, room) {
        After::GoOn(next) => step(words, next, given, room),
        After::Done(stop) => After::Done(stop),
    }
}

/// Takes four steps of a call, or fewer where the call stops at one of them.
#[inline(always)]
fn four_steps<C: Routine>(
    words: &mut [u64],
    call: C,
    given: &C::Given,
    room: &mut C::Room,
) -> After<C, Stop<C, C::End>>
    ensures { StopsOn C.want_of C.after C.kept given.now call room.old words.old
        result room.new words.new }
{
    match two_steps(words, call, given, room) {
        After::GoOn(next) => two_steps(words, next, given, room),
        After::Done(stop) => After::Done(stop),
    }
}

/// Does what `drive_to_stop` does, over a slice. So a compiler looks up only once where the
/// words are and how many.
#[inline(always)]
fn drive_words_to_stop<C: Routine>(
    words: &mut [u64],
    call: C,
    given: &C::Given,
    room: &mut C::Room,
) -> Stop<C, C::End>
    requires stops { CanStop C.want_of C.after C.kept given.now call room.old words.old }
    ensures alone { StopsAlike C.want_of C.after C.kept given.now call room.old words.old
        result room.new words.new }
{
    // The first four steps are taken outside the loop, so that a compiler knows the call's
    // stage at each of them.
    let mut call = match four_steps(words, call, given, room) {
        After::GoOn(next) => next,
        After::Done(stop) => return stop,
    };
    for _ in 0..u64::MAX {
        match step(words, call, given, room) {
            After::GoOn(next) => call = next,
            After::Done(stop) => return stop,
        }
    }
    unreachable!()
}

/// Drives a call to its next question or to its end: it stops just as the call alone stops.
#[inline(always)]
pub fn drive_to_stop<C: Routine>(
    words: &mut Vec<u64>,
    call: C,
    given: &C::Given,
    room: &mut C::Room,
) -> Stop<C, C::End>
    requires stops { CanStop C.want_of C.after C.kept given.now call room.old words.old.items }
    ensures alone { StopsAlike C.want_of C.after C.kept given.now call room.old words.old.items
        result room.new words.new.items }
{
    drive_words_to_stop(&mut words[..], call, given, room)
}

/// Drives a call that puts no question to its end: it ends just as the call alone ends.
#[inline(always)]
pub fn drive<C: Routine>(
    words: &mut Vec<u64>,
    call: C,
    given: &C::Given,
    room: &mut C::Room,
) -> C::End
    requires ends { CanEnd C.want_of C.after C.kept given.now call room.old words.old.items }
    ensures alone { EndsAlike C.want_of C.after C.kept given.now call room.old words.old.items
        result room.new words.new.items }
{
    match drive_to_stop(words, call, given, room) {
        Stop::Ended(end) => end,
        Stop::Asked(..) => unreachable!(),
    }
}
