//! The rows of the single value of 16 words, compared with an array of 16 words under a lock.
ghost use Rattle.lock_free.specs.Value.Calls.{IsPassOf};

use crate::timing::{Asked, Row};
use lock_free::spmc::unrestricted_atomic::{Pass, Producer, UnrestrictedAtomic};
use lock_free::words::Words;
use std::alloc::Global;
use std::sync::{Mutex, Wait};
use std::time::CpuClock;

/// What a user would take instead of the single value.
const LOCKED: &str = "`Mutex<[u64; 16]>`";

/// A value of 16 words: its four numbers, four times one after another.
#[derive(Clone, Copy)]
pub struct Sixteen(u64, u64, u64, u64);

impl Sixteen {
    /// The value all of whose words are this one.
    #[inline(always)]
    fn of(word: u64) -> Sixteen {
        Sixteen(word, word, word, word)
    }
}

impl Words for Sixteen {
    ghost use Rattle.std.specs.Prelude.{ℕ, refl, [], ◌∷◌, slice_index};
    ghost use Rattle.std.proofs.Common.{rules};

    const WORDS: usize = 16;

    ghost WORDS = { 16 };

    ghost words_of = { λ x. x.0 ∷ x.1 ∷ x.2 ∷ x.3 ∷ x.0 ∷ x.1 ∷ x.2 ∷ x.3
        ∷ x.0 ∷ x.1 ∷ x.2 ∷ x.3 ∷ x.0 ∷ x.1 ∷ x.2 ∷ x.3 ∷ [] };

    ghost value_of = { λ words. record {
      0 = slice_index words 0;
      1 = slice_index words 5;
      2 = slice_index words 10;
      3 = slice_index words 15;
    } };

    ghost some = { Prim.search rules };

    ghost few = { Prim.search rules };

    ghost sized = { λ x. refl };

    ghost given_back = { λ x. refl };

    #[inline(always)]
    fn word(&self, at: usize) -> u64 {
        match at % 4 {
            0 => self.0,
            1 => self.1,
            2 => self.2,
            _ => self.3,
        }
    }

    #[inline(always)]
    fn of_words(words: &[u64]) -> Sixteen {
        Sixteen(words[0], words[5], words[10], words[15])
    }
}

/// The producer of a value, and the array under a lock.
#[derive(Drop)]
struct Stores<'a> {
    producer: Producer<'a, Sixteen>,
    locked: &'a Mutex<[u64; 16]>,
}

/// A store of a value, compared with a write of the array under its lock.
struct Store;

impl<'a> Row<Stores<'a>> for Store {
    const NAME: &'static str = "value of 16 words: store";

    const BESIDE: &'static str = LOCKED;

    fn ours<R: Wait>(on: &mut Stores<'a>, _rt: &R, number: u64) -> u64 {
        on.producer.store(Sixteen::of(number)) as u64
    }

    fn theirs<R: Wait>(on: &mut Stores<'a>, rt: &R, number: u64) -> u64 {
        *on.locked.lock(rt) = [number; 16];
        1
    }
}

/// A value with a pass that loads, and the array under a lock.
#[derive(Drop)]
struct Loads<'a> {
    value: &'a UnrestrictedAtomic<Sixteen>,
    pass: Pass<Sixteen>,
    locked: &'a Mutex<[u64; 16]>,
    ghost of: { IsPassOf value.now pass },
}

/// A load of a value, compared with a copy of the array under its lock.
struct Load;

impl<'a> Row<Loads<'a>> for Load {
    const NAME: &'static str = "value of 16 words: load";

    const BESIDE: &'static str = LOCKED;

    fn ours<R: Wait>(on: &mut Loads<'a>, rt: &R, _number: u64) -> u64 {
        on.value.load(rt, &mut on.pass).0
    }

    fn theirs<R: Wait>(on: &mut Loads<'a>, rt: &R, _number: u64) -> u64 {
        let copy = *on.locked.lock(rt);
        copy[0]
    }
}

/// Times and prints the row of the store, if it is asked for. None where memory, the role or the clock fails.
fn rows_of_stores<R: Wait + CpuClock + Print>(
    rt: &R,
    alloc: Global,
    asked: &Asked<'_>,
    capacity: u32,
) -> Option<()> {
    let locked = Mutex::new([0u64; 16]);
    let (value, pass) = UnrestrictedAtomic::new(alloc, Sixteen::of(0)).ok()?;
    let producer = value.acquire_producer(pass).ok()?;
    let mut on = Stores {
        producer,
        locked: &locked,
    };
    asked.alone::<Store, Stores<'_>, R>(rt, capacity, &mut on)
}

/// Times and prints the rows of the single value that are asked for. None where memory, the
/// role or the clock fails.
pub fn rows<R: Wait + CpuClock + Print>(
    rt: &R,
    alloc: Global,
    asked: &Asked<'_>,
    capacity: u32,
) -> Option<()> {
    let locked = Mutex::new([0u64; 16]);
    let (value, pass) = UnrestrictedAtomic::new(alloc, Sixteen::of(0)).ok()?;
    let mut loads = Loads {
        value: &value,
        pass,
        locked: &locked,
    };
    asked.alone::<Load, Loads<'_>, R>(rt, capacity, &mut loads)?;
    rows_of_stores(rt, alloc, asked, capacity)
}
