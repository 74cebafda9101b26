//! The call on a container of one caller that comes to the values of an owner.
ghost use Rattle.std.specs.Prelude.{◌≡◌, ◌<◌, ◌^◌, ◌-◌};
ghost use Rattle.steps.specs.Objects.Owners.{indices_of};
ghost use Rattle.plain.specs.Callable.{TakesIndices, HasFound};
ghost use Rattle.plain.specs.Contents.{contents_in, Holds};
ghost use Rattle.plain.specs.Visited.{MaySee, Sees};

use super::Container;
use crate::answers::{as_answer, index_in};
use plain_queues::drive::{Stop, drive_to_stop};
use steps::ask::After;
use steps::container::find::Find;
use steps::container::handle::ContainerHandle;
use steps::copied::Copied;
use steps::enums::{CallbackProgression, OwnerId};
use steps::routine::Routine;
use steps::words::Words;

/// Calls the closure with the value and its handle.
fn visit_value<T: Words, F: FnMut(T, ContainerHandle) -> CallbackProgression>(
    visit: &mut F,
    value: T,
    handle: ContainerHandle,
) -> CallbackProgression
    requires { F.pre visit.old value handle }
    ensures { F.step visit.old value handle result visit.new }
{
    visit(value, handle)
}

/// Drives a find to its end, over the words of a container. It calls `visit` at each question.
fn find<T: Words, F: FnMut(T, ContainerHandle) -> CallbackProgression>(
    words: &mut Vec<u64>,
    capacity: u32,
    id: u64,
    owner: OwnerId,
    visit: &mut F,
) -> usize
    requires holds { Holds T.value_of T.WORDS capacity id words.old.items }
    requires owner { owner < 2 ^ 64 - 1 }
    requires visits { TakesIndices
        (MaySee F.pre (contents_in T.value_of T.WORDS capacity id words.old.items) owner)
        (Sees (λ p x h a q. F.step p x h a q)
        (contents_in T.value_of T.WORDS capacity id words.old.items) owner)
        (indices_of (contents_in T.value_of T.WORDS capacity id words.old.items).owners owner)
        visit.old }
    ensures words { words.new.items ≡ words.old.items }
    ensures found { HasFound
        (Sees (λ p x h a q. F.step p x h a q)
        (contents_in T.value_of T.WORDS capacity id words.old.items) owner)
        (indices_of (contents_in T.value_of T.WORDS capacity id words.old.items).owners owner)
        visit.old result visit.new }
{
    let mut room = Copied::new();
    let mut call = Find::<T, Copied>::new(capacity);
    for _ in 0..u64::MAX {
        match drive_to_stop(words, call, &owner, &mut room) {
            Stop::Ended(found) => return found,
            Stop::Asked(question, asks) => {
                let value = Find::<T, Copied>::value(&owner, &room);
                let handle = ContainerHandle {
                    index: index_in(question) as u32,
                    owner,
                    container: id,
                };
                let said = visit_value::<T, F>(visit, value, handle);
                let answer = as_answer(said);
                match asks.take(&owner, &mut room, answer) {
                    After::GoOn(next) => call = next,
                    After::Done(found) => return found,
                }
            }
        }
    }
    unreachable!()
}

impl<T: Words> Container<T> {
    /// Calls `visit` with a copy of each value of `owner` and its handle, until `visit` returns `Stop`. It
    /// goes by ascending index. It returns how many values it came to, the one on which it was told to stop
    /// among them. After `find` of the Rust crate's `Container`, which hands out a pointer to the value.
    pub fn find<F: FnMut(T, ContainerHandle) -> CallbackProgression>(
        &mut self,
        owner: OwnerId,
        visit: &mut F,
    ) -> usize
        requires { TakesIndices (MaySee F.pre self.old owner)
            (Sees (λ p x h a q. F.step p x h a q) self.old owner)
            (indices_of self.old.owners owner) visit.old }
        ensures found { HasFound (Sees (λ p x h a q. F.step p x h a q) self.old owner)
            (indices_of self.old.owners owner) visit.old result visit.new }
        ensures map { self.new ≡ self.old }
    {
        let _ = owner.value();
        find::<T, F>(&mut self.words, self.capacity, self.id, owner, visit)
    }
}
