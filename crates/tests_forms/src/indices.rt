//! Plays blocks of a script on unique index sets, in each form.
ghost use Rattle.std.specs.Prelude.{◌≡◌};
ghost use Rattle.lock_free.specs.HistoryHeld.{Holds};
ghost use Rattle.lock_free.specs.Unique.Handles.{set_in};
ghost use Rattle.lock_free.specs.UniqueIndexSet.{made, IsPassOf};

use crate::lines::{Answer, Answers, Block, Call, Made, play_on};
use lock_free::mpmc::unique_index_set::{
    FixedSizeUniqueIndexSet, Handle, Pass, UniqueIndex, UniqueIndexSet,
};
use std::alloc::Global;
use std::mem;
use std::sync::Wait;
use steps::enums::UniqueIndexCreationError;
use steps::indices::enums::UniqueIndexSetAcquireFailure;

/// Adds the index that was taken, or the word for why there was none.
pub fn say_acquired(index: Result<u32, UniqueIndexSetAcquireFailure>, answer: &mut Answer) {
    match index {
        Ok(index) => answer.number(index as u64),
        Err(UniqueIndexSetAcquireFailure::OutOfIndices) => answer.word("OutOfIndices"),
        Err(UniqueIndexSetAcquireFailure::IsLocked) => answer.word("locked"),
    }
}

/// Takes up to `number` indices for good. It returns how many came in order, from 0 on.
fn keep(set: &mut plain::UniqueIndexSet, number: u64) -> u64 {
    for index in 0..number {
        if set.acquire_raw_index().unwrap_or(u32::MAX) as u64 != index {
            return index;
        }
    }
    number
}

impl Answers for plain::UniqueIndexSet {
    fn answer(&mut self, _rt: &impl Wait, call: Call<'_>, answer: &mut Answer) {
        let index = (call.numbers[0] & 0xffff_ffff) as u32;
        let is_out = self.is_out(index);
        match call.name {
            "acquire" | "hold" => say_acquired(self.acquire_raw_index(), answer),
            "keep" => answer.number(keep(self, call.numbers[0])),
            "release" | "drop" if is_out => answer.ended(self.release_raw_index(index)),
            "release_or_lock" if is_out => answer.ended(self.release_or_lock(index)),
            "is_out" => answer.truth(is_out),
            "borrowed_indices" => answer.number(self.borrowed_indices() as u64),
            "is_locked" => answer.truth(self.is_locked()),
            "capacity" => answer.number(self.capacity() as u64),
            "holds" | "is_locked_further" => {}
            _ => answer.word("refused"),
        }
    }
}

/// An index that is out, with the pass that holds it and no guard.
#[derive(Drop)]
struct Raw<'a> {
    set: &'a UniqueIndexSet,
    pass: Pass,
    index: u32,
    ghost of: { IsPassOf set.now pass },
    ghost held: { Holds index (made pass) },
}

impl<'a> Raw<'a> {
    /// Gives the index back, in mode `LockIfLastIndex` if `locks` is true, and adds whether
    /// the set is locked then.
    fn release(self, rt: &impl Wait, locks: bool, answer: &mut Answer) {
        let Raw {
            set,
            mut pass,
            index,
        } = self;
        answer.ended(if locks {
            set.release_or_lock(rt, index, &mut pass)
        } else {
            set.release_raw_index(index, &mut pass)
        });
    }
}

/// An index that is out: a raw one with its pass, or one that a guard holds.
#[derive(Drop)]
enum Index<'a> {
    Raw(Raw<'a>),
    Held(UniqueIndex<'a>),
}

/// Gives back an index that a guard holds, by the call of this name, and adds whether the set is locked then.
fn give_back(held: UniqueIndex<'_>, rt: &impl Wait, name: &str, answer: &mut Answer) {
    match name {
        "release" => {
            held.release();
            answer.word("unlocked");
        }
        "drop" => {
            drop(held);
            answer.word("unlocked");
        }
        _ => {
            let (state, _handle) = held.give_back_or_lock(rt);
            answer.ended(state);
        }
    }
}

/// A user of a set between threads, with two handles. The calls are made by `now`, and the call `other`
/// exchanges the two.
#[derive(Drop)]
struct User<'a> {
    set: &'a UniqueIndexSet,
    now: Handle<'a>,
    other: Handle<'a>,
    /// The indices that are out, each at the place of its number.
    out: Vec<Option<Index<'a>>>,
    ghost of: { set_in now ≡ set.now },
    ghost of_other: { set_in other ≡ set.now },
}

impl<'a> User<'a> {
    /// The user of the set: `pass` is split in three, and two of the parts are joined for the handle `other`.
    /// None where a further pass is refused.
    fn new(alloc: Global, set: &'a UniqueIndexSet, pass: Pass) -> Option<User<'a>>
        requires { IsPassOf set.now pass }
    {
        let mut pass = pass;
        let mut other = pass.split()?;
        other.join(pass.split()?);
        Some(User {
            set,
            now: set.handle(pass),
            other: set.handle(other),
            out: Vec::new(alloc),
        })
    }

    /// Keeps an index that was taken, at the place of its number `at`, and adds that number.
    fn put_at(&mut self, at: u32, index: Index<'a>, answer: &mut Answer) {
        for _ in self.out.len()..at as usize + 1 {
            answer.lost |= self.out.push(None).is_err();
        }
        if let Some(place) = self.out.get_mut(at as usize) {
            *place = Some(index);
            answer.number(at as u64);
        }
    }

    /// Takes a raw index by a further pass, and keeps it. Adds its number, or why there was none.
    fn acquire(&mut self, rt: &impl Wait, answer: &mut Answer) {
        let Some(further) = self.now.split() else {
            return answer.word("no_pass");
        };
        let mut pass = further.into_pass();
        match self.set.acquire_raw_index(rt, &mut pass) {
            Ok(index) => {
                let raw = Raw {
                    set: self.set,
                    pass,
                    index,
                };
                self.put_at(index, Index::Raw(raw), answer);
            }
            Err(failure) => say_acquired(Err(failure), answer),
        }
    }

    /// Takes an index that a guard holds, by a further handle, and keeps it. Adds its number,
    /// or why there was none.
    fn hold(&mut self, rt: &impl Wait, answer: &mut Answer) {
        let Some(further) = self.now.split() else {
            return answer.word("no_pass");
        };
        match further.acquire(rt) {
            Ok(held) => self.put_at(held.value(), Index::Held(held), answer),
            Err((failure, _)) => say_acquired(Err(failure), answer),
        }
    }

    /// Takes an index by a further pass, which is dropped, so the index stays out for good.
    fn keep_one(&mut self, rt: &impl Wait) -> Option<u32> {
        let mut pass = self.now.split()?.into_pass();
        self.set.acquire_raw_index(rt, &mut pass).ok()
    }

    /// Takes up to `number` indices for good. It returns how many came in order, from 0 on.
    fn keep(&mut self, rt: &impl Wait, number: u64) -> u64 {
        for index in 0..number {
            if self.keep_one(rt).unwrap_or(u32::MAX) as u64 != index {
                return index;
            }
        }
        number
    }

    /// Gives the index of this number back, if it is out, by the call of this name. `refused` if it is not.
    fn release(&mut self, rt: &impl Wait, call: Call<'_>, answer: &mut Answer) {
        let index = match self.out.get_mut(call.numbers[0] as usize) {
            Some(place) => place.take(),
            None => None,
        };
        match index {
            Some(Index::Raw(raw)) => raw.release(rt, call.name == "release_or_lock", answer),
            Some(Index::Held(held)) => give_back(held, rt, call.name, answer),
            None => answer.word("refused"),
        }
    }

    /// Adds the index that the guard at this place has. `refused` where no guard is kept at that place.
    fn value(&self, at: u64, answer: &mut Answer) {
        match self.out.get(at as usize) {
            Some(Some(Index::Held(held))) => answer.number(held.value() as u64),
            _ => answer.word("refused"),
        }
    }

    /// Adds whether the set is locked, as a further handle says.
    fn is_locked_further(&mut self, answer: &mut Answer) {
        match self.now.split() {
            Some(mut further) => answer.truth(further.is_locked()),
            None => answer.word("no_pass"),
        }
    }
}

impl<'a> Answers for User<'a> {
    fn answer(&mut self, rt: &impl Wait, call: Call<'_>, answer: &mut Answer) {
        match call.name {
            "acquire" => self.acquire(rt, answer),
            "hold" => self.hold(rt, answer),
            "keep" => answer.number(self.keep(rt, call.numbers[0])),
            "holds" => self.value(call.numbers[0], answer),
            "borrowed_indices" => answer.number(self.now.borrowed_indices() as u64),
            "is_locked" => answer.truth(self.now.is_locked()),
            "is_locked_further" => self.is_locked_further(answer),
            "capacity" => answer.number(self.now.capacity() as u64),
            "other" => mem::swap(&mut self.now, &mut self.other),
            "is_out" => {}
            _ => self.release(rt, call, answer),
        }
    }
}

/// Plays the block on a set of its form. For `reduced` the second number is the capacity that the type has,
/// which the set reduces to the block's capacity.
pub fn play_indices(rt: &impl Wait, block: &mut Block<'_>) -> Made {
    match block.form {
        "plain" => {
            let set = plain::UniqueIndexSet::new(block.alloc, block.capacity)?;
            play_on(rt, block, Some(set))
        }
        "heap" => {
            let (set, pass) = UniqueIndexSet::new(block.alloc, block.capacity)?;
            let user = User::new(block.alloc, &set, pass);
            play_on(rt, block, user)
        }
        "fixed" => of_capacity!(fixed, block.capacity, rt, block; 0 1 3 5 9 16_777_215),
        _ => of_capacity!(reduced, block.numbers[1], rt, block; 5 6 8 16_777_214 16_777_215),
    }
}

/// Plays the block on a set between threads whose type has the capacity `N`.
fn fixed<const N: usize>(rt: &impl Wait, block: &mut Block<'_>) -> Made {
    let (set, pass) = FixedSizeUniqueIndexSet::<N>::new(block.alloc)?;
    let user = User::new(block.alloc, &set, pass);
    play_on(rt, block, user)
}

/// Plays the block on a set whose type has the capacity `N`, which is reduced to that of the block.
fn reduced<const N: usize>(rt: &impl Wait, block: &mut Block<'_>) -> Made {
    let (alloc, capacity) = (block.alloc, block.capacity);
    let (set, pass) = FixedSizeUniqueIndexSet::<N>::new_with_reduced_capacity(alloc, capacity)?;
    play_on(rt, block, User::new(alloc, &set, pass))
}
