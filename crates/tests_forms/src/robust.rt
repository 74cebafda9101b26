//! Plays blocks of a script on robust unique index sets, whose indices have owners, in each form.
ghost use Rattle.lock_free.specs.RobustUniqueIndexSet.{IsPassOf};

use crate::lines::{
    Answer, Answers, Block, Call, Made, Two, goes_on, is_yes, mode, owner, play_on,
};
use lock_free::mpmc::robust_unique_index_set::{
    Handle, OwnerId, Pass, RobustUniqueIndexSet, StaticRobustUniqueIndexSet,
};
use std::sync::Wait;
use steps::enums::UniqueIndexCreationError;
use steps::indices::enums::{
    ReleaseState, RobustUniqueIndexSetReleaseError, UniqueIndexSetAcquireFailure,
};

/// Adds the index that was taken, or the word for why there was none.
fn say_acquired(index: Result<usize, UniqueIndexSetAcquireFailure>, answer: &mut Answer) {
    match index {
        Ok(index) => answer.number(index as u64),
        Err(UniqueIndexSetAcquireFailure::OutOfIndices) => answer.word("OutOfIndices"),
        Err(UniqueIndexSetAcquireFailure::IsLocked) => answer.word("locked"),
    }
}

/// Adds whether the set is locked after a release. `not_owned` says that the owner does not have the index.
fn say_released(
    state: Result<ReleaseState, RobustUniqueIndexSetReleaseError>,
    answer: &mut Answer,
) {
    match state {
        Ok(state) => answer.ended(state),
        Err(_) => answer.word("not_owned"),
    }
}

/// Whether the question of this number of a recovery is answered with yes. `recover` answers by the bits of a
/// mask, `recover_of` by whether the index is of the owner that the call gives.
fn is_freed(call: Call<'_>, owner: OwnerId, question: u64) -> bool {
    if call.name == "recover_of" {
        owner.value() == call.numbers[1]
    } else {
        is_yes(call.numbers[1], question)
    }
}

/// Adds the owner and the index of which a recovery asks or tells.
fn hear(owner: OwnerId, index: usize, answer: &mut Answer) {
    answer.number(owner.value());
    answer.number(index as u64);
}

/// Makes a `find` for an owner, of one caller or by a handle. Adds each index, and how many the call says.
macro_rules! say_found {
    ($set:ident, $call:ident, $answer:ident) => {{
        let mut number = 0u64;
        let found = $set.find(
            owner($call.numbers[0]),
            &mut |index| {
                number = number.wrapping_add(1);
                $answer.number(index as u64);
                goes_on(number, $call.numbers[1])
            },
        );
        $answer.word("found");
        $answer.number(found as u64);
    }};
}

/// Makes a recovery, of one caller or by a handle with the runtime. Adds whether the set is locked, what it
/// asked about and what it told of.
macro_rules! say_recovered {
    ($set:ident, $call:ident, $answer:ident $(, $rt:ident)?) => {{
        let mut question = 0u64;
        let mut asked = Answer::new($answer.alloc);
        let mut told = Answer::new($answer.alloc);
        let state = $set.recover(
            $($rt,)?
            mode($call.numbers[0]),
            &mut |owner, index| {
                hear(owner, index, &mut asked);
                question = question.wrapping_add(1);
                is_freed($call, owner, question.wrapping_sub(1))
            },
            &mut |owner, index| hear(owner, index, &mut told),
        );
        $answer.ended(state);
        $answer.word("asked");
        $answer.put(asked.text.as_str());
        $answer.word("told");
        $answer.put(told.text.as_str());
        $answer.lost |= asked.lost | told.lost;
    }};
}

/// Makes a call that is no `find` and no recovery. `release 3 7 1` is of the index 3 and the owner 7, and
/// locks the set if that was the last index.
macro_rules! answer_of_robust {
    ($set:ident, $call:ident, $answer:ident $(, $rt:ident)?) => {
        match $call.name {
            "acquire" => say_acquired($set.acquire($($rt,)? owner($call.numbers[0])), $answer),
            "release" => {
                let index = $call.numbers[0] as usize;
                if index < $set.capacity() {
                    let mode = mode($call.numbers[2]);
                    say_released($set.release($($rt,)? index, owner($call.numbers[1]), mode), $answer);
                } else {
                    $answer.word("refused");
                }
            }
            "borrowed_indices" => $answer.number($set.borrowed_indices($($rt)?) as u64),
            "is_locked" => $answer.truth($set.is_locked()),
            "capacity" => $answer.number($set.capacity() as u64),
            _ => {}
        }
    };
}

/// A `find` of one caller.
fn find_alone(set: &mut plain::RobustUniqueIndexSet, call: Call<'_>, answer: &mut Answer) {
    say_found!(set, call, answer);
}

/// A recovery by the form of one caller.
fn recover_alone(set: &mut plain::RobustUniqueIndexSet, call: Call<'_>, answer: &mut Answer) {
    say_recovered!(set, call, answer);
}

impl Answers for plain::RobustUniqueIndexSet {
    fn answer(&mut self, _rt: &impl Wait, call: Call<'_>, answer: &mut Answer) {
        match call.name {
            "find" => find_alone(self, call, answer),
            "recover" | "recover_of" => recover_alone(self, call, answer),
            _ => answer_of_robust!(self, call, answer),
        }
    }
}

/// A `find` by a handle.
fn find(set: &mut Handle<'_>, call: Call<'_>, answer: &mut Answer) {
    say_found!(set, call, answer);
}

/// A recovery by a handle.
fn recover(rt: &impl Wait, set: &mut Handle<'_>, call: Call<'_>, answer: &mut Answer) {
    say_recovered!(set, call, answer, rt);
}

/// Adds whether the set is locked, as a further handle says.
fn is_locked_further(set: &mut Handle<'_>, answer: &mut Answer) {
    match set.split() {
        Some(mut further) => answer.truth(further.is_locked()),
        None => answer.word("no_pass"),
    }
}

impl<'a> Answers for Handle<'a> {
    fn answer(&mut self, rt: &impl Wait, call: Call<'_>, answer: &mut Answer) {
        match call.name {
            "find" => find(self, call, answer),
            "recover" | "recover_of" => recover(rt, self, call, answer),
            "is_locked_further" => is_locked_further(self, answer),
            _ => answer_of_robust!(self, call, answer, rt),
        }
    }
}

/// Two handles of the set, by which calls are made in turn (`other`): `pass` is split in three, and two of
/// the parts are joined for the second one. None where a further pass is refused.
fn two<'a>(set: &'a RobustUniqueIndexSet, pass: Pass) -> Option<Two<Handle<'a>>>
    requires { IsPassOf set.now pass }
{
    let mut pass = pass;
    let mut other = pass.split()?;
    other.join(pass.split()?);
    Some(Two {
        now: set.handle(pass),
        other: set.handle(other),
    })
}

/// Plays the block on a set of its form. The second number of the block is the first generation for
/// `plain_at`. For `reduced` it is the capacity of the type, which is reduced to that of the block.
pub fn play_robust(rt: &impl Wait, block: &mut Block<'_>) -> Made {
    let (alloc, capacity, number) = (block.alloc, block.capacity, block.numbers[1]);
    match block.form {
        "plain" => {
            let set = plain::RobustUniqueIndexSet::new(alloc, capacity)?;
            play_on(rt, block, Some(set))
        }
        "plain_at" => {
            let set = plain::RobustUniqueIndexSet::new_at(alloc, capacity, number)?;
            play_on(rt, block, Some(set))
        }
        "heap" => {
            let (set, pass) = RobustUniqueIndexSet::new(alloc, capacity)?;
            play_on(rt, block, two(&set, pass))
        }
        "fixed" => of_capacity!(fixed, capacity, rt, block; 0 3 4 5 9 100 128 4_294_967_296),
        _ => of_capacity!(reduced, number, rt, block; 6 8 128 4_294_967_295 4_294_967_296),
    }
}

/// Plays the block on a set between threads whose type has the capacity `N`.
fn fixed<const N: usize>(rt: &impl Wait, block: &mut Block<'_>) -> Made {
    let (set, pass) = StaticRobustUniqueIndexSet::<N>::new(block.alloc)?;
    play_on(rt, block, two(&set, pass))
}

/// Plays the block on a set whose type has the capacity `N`, which is reduced to that of the block.
fn reduced<const N: usize>(rt: &impl Wait, block: &mut Block<'_>) -> Made {
    let (alloc, capacity) = (block.alloc, block.capacity);
    let (set, pass) = StaticRobustUniqueIndexSet::<N>::new_with_reduced_capacity(alloc, capacity)?;
    play_on(rt, block, two(&set, pass))
}
