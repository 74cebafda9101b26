//! Plays blocks of a script on bit sets and counting bit sets, in each form.
ghost use Rattle.lock_free.specs.Sets.Calls.{IsPassOf};

use crate::lines::{Answer, Answers, Block, Call, Made, Two, play_on};
use lock_free::mpmc::counting_bit_set::CountingBitSet;
use lock_free::mpmc::sets::rule::{Counts, Flags, Kind};
use lock_free::mpmc::sets::{FixedSize, Handle, Pass, Set};
use std::sync::Wait;
use steps::bits::counting_bit_set::BitState;
use steps::enums::UniqueIndexCreationError;

/// Makes a call on a bit set, of one caller or by a handle, whose calls have the runtime. `refused` where the
/// place is not below the capacity.
macro_rules! answer_of_bits {
    ($set:ident, $call:ident, $answer:ident $(, $rt:ident)?) => {{
        let place = $call.numbers[0] as usize;
        let is_in = place < $set.capacity();
        match $call.name {
            "set" if is_in => $answer.truth($set.set($($rt,)? place)),
            "is_set" if is_in => $answer.truth($set.is_set(place)),
            "reset_next" => $answer.perhaps(number_of($set.reset_next($($rt)?))),
            "capacity" => $answer.number($set.capacity() as u64),
            _ => $answer.word("refused"),
        }
    }};
}

/// Makes a call on a counting bit set, of one caller or by a handle. `refused` where the place is
/// not below the capacity.
macro_rules! answer_of_counts {
    ($set:ident, $call:ident, $answer:ident) => {{
        let place = $call.numbers[0] as usize;
        let is_in = place < $set.capacity();
        match $call.name {
            "set" if is_in => $answer.number($set.set(place)),
            "count" if is_in => $answer.number($set.count(place)),
            "capacity" => $answer.number($set.capacity() as u64),
            _ => $answer.word("refused"),
        }
    }};
}

/// The place as a number of the script.
fn number_of(place: Option<usize>) -> Option<u64> {
    match place {
        Some(place) => Some(place as u64),
        None => None,
    }
}

/// Adds a place and its count.
fn say(state: BitState, answer: &mut Answer) {
    answer.number(state.bit() as u64);
    answer.number(state.count());
}

/// Clears a bit set of one caller, and adds the places that were set.
#[tactic(auto, using(plain::proofs::Visits::takes_any))]
fn empty_bits(set: &mut plain::BitSet, answer: &mut Answer) {
    answer.word("done");
    set.reset_all(&mut |place| answer.number(place as u64));
}

/// Clears a counting bit set of one caller, and adds each place that had a count, with it.
#[tactic(auto, using(plain::proofs::Visits::takes_any))]
fn empty_counts(set: &mut plain::CountingBitSet, answer: &mut Answer) {
    answer.word("done");
    set.reset_all(&mut |state| say(state, answer));
}

impl Answers for plain::BitSet {
    fn answer(&mut self, _rt: &impl Wait, call: Call<'_>, answer: &mut Answer) {
        if call.name == "reset_all" {
            empty_bits(self, answer);
        } else {
            answer_of_bits!(self, call, answer);
        }
    }
}

impl Answers for plain::CountingBitSet {
    fn answer(&mut self, _rt: &impl Wait, call: Call<'_>, answer: &mut Answer) {
        match call.name {
            "reset_all" => empty_counts(self, answer),
            "max_count" => answer.number(plain::CountingBitSet::max_count()),
            _ => answer_of_counts!(self, call, answer),
        }
    }
}

/// The two kinds of sets between threads, flags and counts, whose calls a script makes.
trait Places: Kind + Sized {
    /// Makes the call, and adds what it answers.
    fn answer(set: &mut Handle<'_, Self>, rt: &impl Wait, call: Call<'_>, answer: &mut Answer);
}

impl Places for Flags {
    fn answer(set: &mut Handle<'_, Flags>, rt: &impl Wait, call: Call<'_>, answer: &mut Answer) {
        if call.name == "reset_all" {
            answer.word("done");
            set.reset_all(&mut |place| answer.number(place as u64));
        } else {
            answer_of_bits!(set, call, answer, rt);
        }
    }
}

impl Places for Counts {
    fn answer(set: &mut Handle<'_, Counts>, _rt: &impl Wait, call: Call<'_>, answer: &mut Answer) {
        match call.name {
            "reset_all" => {
                answer.word("done");
                set.reset_all(&mut |state| say(state, answer));
            }
            "max_count" => answer.number(CountingBitSet::max_count()),
            _ => answer_of_counts!(set, call, answer),
        }
    }
}

impl<'a, E: Places> Answers for Handle<'a, E> {
    fn answer(&mut self, rt: &impl Wait, call: Call<'_>, answer: &mut Answer) {
        E::answer(self, rt, call, answer);
    }
}

/// Two handles of the set, by which calls are made in turn (`other`): `pass` is split in three, and two of
/// the parts are joined for the second one. None where a further pass is refused.
fn two<'a, E: Places>(set: &'a Set<E>, pass: Pass<E>) -> Option<Two<Handle<'a, E>>>
    requires { IsPassOf set.now pass }
{
    let mut pass = pass;
    let mut other = pass.split()?;
    other.join(pass.split()?);
    Some(Two {
        now: set.handle(pass),
        other: set.handle(other),
    })
}

/// Plays the block on a set between threads whose type has the capacity `N`.
fn fixed<E: Places, const N: usize>(rt: &impl Wait, block: &mut Block<'_>) -> Made {
    let (set, pass) = FixedSize::<E, N>::new(block.alloc)?;
    play_on(rt, block, two(&set, pass))
}

/// Plays the block on a set between threads, whose capacity is that of the block (`heap`) or of its type.
fn threaded<E: Places>(rt: &impl Wait, block: &mut Block<'_>) -> Made {
    if block.form != "heap" {
        return of_capacity!(fixed::<E>, block.capacity, rt, block; 0 1 2 5 9 64 123 128 4_294_967_296);
    }
    let (set, pass) = Set::<E>::new(block.alloc, block.capacity)?;
    play_on(rt, block, two(&set, pass))
}

/// Plays the block on a bit set of its form.
pub fn play_bits(rt: &impl Wait, block: &mut Block<'_>) -> Made {
    if block.form != "plain" {
        return threaded::<Flags>(rt, block);
    }
    let set = plain::BitSet::new(block.alloc, block.capacity)?;
    play_on(rt, block, Some(set))
}

/// Plays the block on a counting bit set of its form.
pub fn play_counts(rt: &impl Wait, block: &mut Block<'_>) -> Made {
    if block.form != "plain" {
        return threaded::<Counts>(rt, block);
    }
    let set = plain::CountingBitSet::new(block.alloc, block.capacity)?;
    play_on(rt, block, Some(set))
}
