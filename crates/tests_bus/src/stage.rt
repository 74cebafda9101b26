//! Makes a new bus of records, plays what a test does with its publisher, and says how many records are left.
use crate::words::{Words, spares};
use lock_free::mpmc::unique_index_set_enums::UniqueIndexCreationError;
use std::alloc::{AllocError, Global};
use std::sync::Wait;
use std::thread::Threads;
use zero_copy_bus::bus::{Bus, Sizes};
use zero_copy_bus::error::BusError;
use zero_copy_bus::publisher::Publisher;

/// Why a test ends before its time: memory was refused, or a call did not come to what
/// the test expects of it.
#[derive(Debug, Drop)]
pub enum Failure {
    NoMemory,
    Wrong,
}

impl From<AllocError> for Failure {
    fn from(_: AllocError) -> Failure {
        Failure::NoMemory
    }
}

impl From<BusError> for Failure {
    fn from(error: BusError) -> Failure {
        match error {
            BusError::NoMemory | BusError::Part(UniqueIndexCreationError::NoMemory) =>
                Failure::NoMemory,
            _ => Failure::Wrong,
        }
    }
}

/// The value that a call returned. A test that finds None instead ends with `Failure::Wrong`.
pub fn some<T>(found: Option<T>) -> Result<T, Failure> {
    match found {
        Some(found) => Ok(found),
        None => Err(Failure::Wrong),
    }
}

/// Ends the test with `Failure::Wrong` where this is false.
pub fn check(is_so: bool) -> Result<(), Failure> {
    if is_so { Ok(()) } else { Err(Failure::Wrong) }
}

/// What a test does with the publisher of a new bus.
pub trait Plays {
    /// Plays the test. For a test that has steps, Some is the place of the first step that came to something
    /// else than its row says. None says that all went well.
    fn play(
        &self,
        rt: &(impl Threads + Wait + Sync),
        alloc: Global,
        publisher: &mut Publisher<'_, Words>,
    ) -> Result<Option<usize>, Failure>;
}

/// Makes a bus of these sizes and `records` records of `words` words, and plays the test with its publisher.
/// It returns the first wrong step, if any, and how many records the publisher hands out in the end, which
/// are those that lie in no slot.
pub fn on_new_bus<P: Plays>(
    rt: &(impl Threads + Wait + Sync),
    alloc: Global,
    sizes: Sizes,
    records: usize,
    words: usize,
    play: &P,
) -> Result<(Option<usize>, usize), Failure> {
    let (mut bus, pass) = Bus::new(alloc, sizes)?;
    let records = spares(alloc, records, words)?;
    let mut publisher = bus.publisher(rt, alloc, pass, records)?;
    let wrong = play.play(rt, alloc, &mut publisher)?;
    let (_, left) = publisher.finish();
    Ok((wrong, left.len()))
}
