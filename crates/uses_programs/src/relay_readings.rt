//! Keeps the latest reading of a sensor for another thread, which looks at it when it likes. Proved: each reading that it
//! saw is the first one or was stored, whole, and the one that it sees at the end is the last.

ghost use Rattle.std.specs.Prelude.{◌≡◌, IfSome, ◌∷◌, All, length};
ghost use Rattle.std.specs.List.{Contains};
ghost use Rattle.lock_free.specs.Value.Calls.{view, value_of_pass, IsPassOf};
ghost use Rattle.uses_programs.specs.Readings.{HasWritten, HasRead, last_of};

use lock_free::spmc::unrestricted_atomic::{Pass, UnrestrictedAtomic};
use lock_free::words::Words;
use std::alloc::Global;
use std::sync::Wait;
use std::thread::Threads;
use std::{io, thread};

/// What a sensor measured.
#[derive(Clone, Copy)]
pub struct Reading {
    pub sensor: u64,
    pub time: u64,
    pub level: u64,
}

impl Words for Reading {
    ghost use Rattle.std.specs.Prelude.{ℕ, refl, [], ◌∷◌, slice_index};
    ghost use Rattle.std.proofs.Common.{rules};

    const WORDS: usize = 3;

    ghost WORDS = { 3 };

    ghost words_of = { λ x. x.sensor ∷ x.time ∷ x.level ∷ [] };

    ghost value_of = { λ words. record { sensor = slice_index words 0; time = slice_index words 1; level = slice_index words 2 } };

    ghost some = { Prim.search rules };

    ghost few = { Prim.search rules };

    ghost sized = { λ x. refl };

    ghost given_back = { λ x. refl };

    fn word(&self, at: usize) -> u64 {
        match at {
            0 => self.sensor,
            1 => self.time,
            _ => self.level,
        }
    }

    fn of_words(words: &[u64]) -> Reading {
        Reading {
            sensor: words[0],
            time: words[1],
            level: words[2],
        }
    }
}

/// Stores all readings, one after the other.
fn write(
    value: &UnrestrictedAtomic<Reading>,
    pass: Pass<Reading>,
    readings: &[Reading],
) -> Option<Pass<Reading>>
    requires { IsPassOf value.now pass }
    ensures value { IfSome result (λ p. value_of_pass p ≡ value_of_pass pass) }
    ensures written { IfSome result (λ p. HasWritten readings.now (view pass) (view p)) }
{
    let mut producer = value.acquire_producer(pass).ok()?;
    for next in 0..readings.len() {
        if !producer.store(readings[next]) {
            return None;
        }
    }
    Some(producer.release())
}

/// Loads the value `count` times. Returns the pass, and the readings that it saw.
fn load_some(
    rt: &impl Wait,
    alloc: Global,
    value: &UnrestrictedAtomic<Reading>,
    mut pass: Pass<Reading>,
    count: usize,
) -> Option<(Pass<Reading>, Vec<Reading>)>
    requires { IsPassOf value.now pass }
    ensures value { IfSome result (λ r. value_of_pass r.0 ≡ value_of_pass pass) }
    ensures read { IfSome result (λ r. HasRead r.1.items (view pass) (view r.0)) }
    ensures count { IfSome result (λ r. length r.1.items ≡ count) }
{
    let mut readings = Vec::new(alloc);
    for _done in 0..count {
        let reading = value.load(rt, &mut pass);
        readings.push(reading).ok()?;
    }
    Some((pass, readings))
}

/// The readings that were seen while the value was written, and the value in the end.
#[derive(Drop)]
pub struct Shown {
    pub seen: Vec<Reading>,
    pub last: Reading,
}

/// Stores readings in one thread, and loads the value `count` times in another. Each reading that is seen is
/// the first one or one of those that were stored, and the value in the end is the last of them.
pub fn show<R: Threads + Wait + Sync>(
    rt: &R,
    alloc: Global,
    first: Reading,
    readings: &[Reading],
    count: usize,
) -> Option<Shown>
    ensures seen { IfSome result (λ r. All (Contains (first ∷ readings.now)) r.seen.items) }
    ensures count { IfSome result (λ r. length r.seen.items ≡ count) }
    ensures last { IfSome result (λ r. r.last ≡ last_of first readings.now) }
{
    let Ok((value, mut mine)) = UnrestrictedAtomic::new(alloc, first) else {
        return None;
    };
    let other = mine.split()?;
    let shared = &value;
    let (written, loaded) = thread::join(
        rt,
        move || write(shared, mine, readings),
        move || load_some(rt, alloc, shared, other, count),
    );
    let mut pass = written?;
    let (further, seen) = loaded?;
    pass.join(further);
    let last = shared.load(rt, &mut pass);
    Some(Shown { seen, last })
}

/// Shows four readings to another thread, and prints the last.
pub fn report<R: Threads + Wait + Print + Sync>(rt: &R, alloc: Global) -> io::Result<()> {
    let first = Reading::of_words(&[7, 0, 40]);
    let second = Reading::of_words(&[7, 1, 50]);
    let third = Reading::of_words(&[7, 2, 60]);
    let fourth = Reading::of_words(&[7, 3, 55]);
    let Some(shown) = show(rt, alloc, first, &[second, third, fourth], 4) else {
        return println!(rt; "no memory");
    };
    let last = shown.last;
    println!(rt; "last: time {}, level {}", last.time, last.level)
}
