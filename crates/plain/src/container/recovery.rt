//! The call on a container of one caller that frees the indices of an owner that has died.
ghost use Rattle.std.specs.Prelude.{◌≡◌, ◌<◌, ◌^◌, ◌-◌};
ghost use Rattle.steps.specs.Objects.Owners.{state_of};
ghost use Rattle.plain.specs.Callable.{TakesQuestions};
ghost use Rattle.plain.specs.Contents.{contents_in, Holds};
ghost use Rattle.plain.specs.Visited.{to_ask, MayAsk, Says, HasRecovered};

use super::Container;
use crate::answers::as_yes;
use plain_queues::drive::{Stop, drive_to_stop};
use steps::ask::After;
use steps::container::recover::{DeadOwner, Recover};
use steps::copied::Copied;
use steps::enums::OwnerId;
use steps::indices::enums::{ReleaseMode, ReleaseState};
use steps::routine::Routine;
use steps::words::Words;

/// Asks the closure about the value.
fn ask_about<T: Words, F: FnMut(T) -> bool>(predicate: &mut F, value: T) -> bool
    requires { F.pre predicate.old value }
    ensures { F.step predicate.old value result predicate.new }
{
    predicate(value)
}

/// Drives a recovery to its end, over the words of a container. It calls the closure at each question.
fn recover<T: Words, F: FnMut(T) -> bool>(
    words: &mut Vec<u64>,
    capacity: u32,
    id: u64,
    owner: OwnerId,
    mode: ReleaseMode,
    predicate: &mut F,
) -> ReleaseState
    requires holds { Holds T.value_of T.WORDS capacity id words.old.items }
    requires owner { owner < 2 ^ 64 - 1 }
    requires questions { TakesQuestions
        (MayAsk F.pre (contents_in T.value_of T.WORDS capacity id words.old.items))
        (Says (λ p x b q. F.step p x b q)
        (contents_in T.value_of T.WORDS capacity id words.old.items))
        (to_ask (contents_in T.value_of T.WORDS capacity id words.old.items) owner) predicate.old }
    ensures holds { Holds T.value_of T.WORDS capacity id words.new.items }
    ensures state { result
        ≡ state_of (contents_in T.value_of T.WORDS capacity id words.new.items).owners }
    ensures calls { HasRecovered (λ p x b q. F.step p x b q) owner mode
        (contents_in T.value_of T.WORDS capacity id words.old.items)
        (contents_in T.value_of T.WORDS capacity id words.new.items) predicate.old predicate.new }
{
    let given = DeadOwner { owner, mode };
    let mut room = Copied::new();
    let mut call = Recover::<T, Copied>::new(capacity);
    for _ in 0..u64::MAX {
        match drive_to_stop(words, call, &given, &mut room) {
            Stop::Ended(state) => return state,
            Stop::Asked(_, asks) => {
                let value = Recover::<T, Copied>::value(&given, &room);
                let yes = ask_about::<T, F>(predicate, value);
                let answer = as_yes(yes);
                match asks.take(&given, &mut room, answer) {
                    After::GoOn(next) => call = next,
                    After::Done(_) => unreachable!(),
                }
            }
        }
    }
    unreachable!()
}

impl<T: Words> Container<T> {
    /// Asks `predicate` about a copy of each value of `owner`, and frees the index if the answer is true. It
    /// goes by ascending index, and a freed index has no owner or value. In mode `LockIfLastIndex` it locks
    /// the container if no index has an owner after one was freed, unless its generation comes to its end.
    /// Returns `Locked` if it is locked, else `Unlocked`. Of a locked one it asks nothing. It is one change.
    /// After Rust's `recover`.
    pub fn recover<F: FnMut(T) -> bool>(
        &mut self,
        owner: OwnerId,
        predicate: &mut F,
        mode: ReleaseMode,
    ) -> ReleaseState
        requires { TakesQuestions (MayAsk F.pre self.old) (Says (λ p x b q. F.step p x b q) self.old)
            (to_ask self.old owner) predicate.old }
        ensures answer { result ≡ state_of self.new.owners }
        ensures calls { HasRecovered (λ p x b q. F.step p x b q) owner mode self.old self.new
            predicate.old predicate.new }
    {
        let _ = owner.value();
        recover::<T, F>(
            &mut self.words,
            self.capacity,
            self.id,
            owner,
            mode,
            predicate,
        )
    }
}
