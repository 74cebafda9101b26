//! A sensor: one thread stores measurements of five words, and three threads look. Each sees whole measurements, and none that is
//! older than one that it saw before.
use lock_free::spmc::unrestricted_atomic::{Handle, UnrestrictedAtomic};
use lock_free::words::Words;
use std::alloc::Global;
use std::sync::Wait;
use std::thread::Threads;
use std::{io, thread};

/// The number of the last measurement.
const LAST: u64 = 1000;

/// A measurement, of five words: its number, a position and a speed.
#[derive(Clone, Copy, PartialEq, Eq)]
struct Measurement {
    number: u64,
    position: (u64, u64),
    speed: (u64, u64),
}

// bin/words: Measurement
impl Words for Measurement {
    ghost use Rattle.std.specs.Prelude.{ℕ, refl, [], ◌∷◌, slice_index};
    ghost use Rattle.std.proofs.Common.{rules};

    const WORDS: usize = 5;

    ghost WORDS = { 5 };

    ghost words_of = { λ x. x.number ∷ x.position.0 ∷ x.position.1 ∷ x.speed.0 ∷ x.speed.1 ∷ [] };

    ghost value_of = { λ words. record {
      number = slice_index words 0;
      position =
          (slice_index words 1, slice_index words 2);
      speed = (slice_index words 3, slice_index words 4);
    } };

    ghost some = { Prim.search rules };

    ghost few = { Prim.search rules };

    ghost sized = { λ x. refl };

    ghost given_back = { λ x. refl };

    fn word(&self, at: usize) -> u64 {
        match at {
            0 => self.number,
            1 => self.position.0,
            2 => self.position.1,
            3 => self.speed.0,
            _ => self.speed.1
        }
    }

    fn of_words(words: &[u64]) -> Measurement {
        Measurement {
            number: words[0],
            position: (words[1], words[2]),
            speed: (words[3], words[4]),
        }
    }
}
// bin/words: end

impl Measurement {
    /// The measurement of this number, which stands in each of its words.
    fn new(number: u64) -> Measurement {
        Measurement {
            number,
            position: (number, number),
            speed: (number, number),
        }
    }
}

/// Stores all measurements: false where another has the role.
fn measure(sensor: Handle<'_, Measurement>) -> bool {
    let Ok(mut producer) = sensor.acquire_producer() else {
        return false;
    };
    for number in 1..LAST + 1 {
        producer.store(Measurement::new(number));
    }
    true
}

/// Looks until it sees the last measurement: false where one was torn, or older than one before.
fn look(rt: &impl Wait, mut sensor: Handle<'_, Measurement>) -> bool {
    let mut number = 0;
    for _ in rt.forever() {
        let seen = sensor.load(rt);
        if seen != Measurement::new(seen.number) || seen.number < number {
            return false;
        }
        if seen.number == LAST {
            return true;
        }
        number = seen.number;
        thread::yield_now();
    }
    unreachable!()
}

/// Whether all went well, in four threads. None where there is no memory, or no further handle.
fn run<R: Threads + Wait + Sync>(rt: &R, alloc: Global) -> Option<bool> {
    let (sensor, pass) = UnrestrictedAtomic::new(alloc, Measurement::new(0)).ok()?;
    let mut writer = sensor.handle(pass);
    let (one, two, three) = (writer.split()?, writer.split()?, writer.split()?);
    let ((first, second), (third, stored)) = thread::join(
        rt,
        move || thread::join(rt, move || look(rt, one), move || look(rt, two)),
        move || thread::join(rt, move || look(rt, three), move || measure(writer)),
    );
    Some(first && second && third && stored)
}

/// Stores the measurements, and prints whether each that was seen was whole and never older
/// than the one before.
pub fn report<R: Threads + Wait + Print + Sync>(rt: &R, alloc: Global) -> io::Result<()> {
    match run(rt, alloc) {
        Some(well) => println!(rt; "measurements whole and never older, seen by three: {well}"),
        None => println!(rt; "no memory"),
    }
}
