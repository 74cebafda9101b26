//! How an `UnrestrictedAtomic` is made, with its first pass.
ghost use Rattle.std.specs.Prelude.{◌≡◌, IfOk, IfErr, if◌then◌else◌, nat_lt};
ghost use Rattle.steps.specs.declared.enums.UniqueIndexCreationError.TheVariants.{NoMemory};
ghost use Rattle.history_value.specs.ValueOpened.{opened_view};
ghost use Rattle.lock_free_value.specs.Calls.{view, IsPassOf};

use super::rule::{Origin, ValueRule};
use super::{Held, Pass, UnrestrictedAtomic};
use history::view::View;
use std::alloc::{AllocError, Global};
use steps::atomic::{FIRST_CELL, PRODUCER, VERSION};
use steps::enums::UniqueIndexCreationError;
use steps::words::Words;
use threaded::driver::seated::Seated;

/// The version at which a table opens: at least 2, since a value opens with one store.
fn opening_version(version: u64) -> u64
    ensures { result ≡ (if nat_lt version 2 then 2 else version) }
{
    if version < 2 { 2 } else { version }
}

/// A word of the first cell as the table opens. It is 0 at version 2, since the first store
/// writes the second cell.
fn first_word(version: u64, word: u64) -> u64
    ensures { result ≡ (if nat_lt 2 version then word else 0) }
{
    if 2 < version { word } else { 0 }
}

impl<T: Words> UnrestrictedAtomic<T> {
    /// Makes a value at this version, and its first pass, with the words that its stores have left.
    fn of(
        alloc: Global,
        value: T,
        version: u64,
    ) -> Result<(UnrestrictedAtomic<T>, Pass<T>), AllocError>
        ensures pass { IfOk result (λ r. IsPassOf r.0 r.1 × (view r.1 ≡ opened_view value T.WORDS version)) }
    {
        let second_cell = FIRST_CELL + T::WORDS;
        let mut words = Vec::from_elem(alloc, 0u64, T::WORDS * 2 + FIRST_CELL + 1)?;
        words[VERSION] = opening_version(version);
        words[PRODUCER] = 1;
        for at in 0..T::WORDS {
            let word = value.word(at);
            words[second_cell + at] = word;
            words[FIRST_CELL + at] = first_word(version, word);
        }
        let origin = Origin { value, version };
        let (home, seated) = Seated::<View<T>, Origin<T>, ValueRule<T>>::open(
            alloc,
            words.as_slice(),
            &origin,
        )?;
        let token = Held { seated };
        Ok((UnrestrictedAtomic { home }, Pass { token }))
    }

    /// Makes a value, stored once, and its first pass. The pass has the whole share and has seen the history: one party
    /// has taken the role, stored the value once and given the role back.
    ///
    /// Refused is memory alone (`NoMemory`). After `UnrestrictedAtomic::new` of the Rust crate.
    pub fn new(
        alloc: Global,
        value: T,
    ) -> Result<(UnrestrictedAtomic<T>, Pass<T>), UniqueIndexCreationError>
        ensures pass { IfOk result (λ r. IsPassOf r.0 r.1 × (view r.1 ≡ opened_view value T.WORDS 1)) }
        ensures refused { IfErr result (λ e. e ≡ NoMemory) }
    {
        UnrestrictedAtomic::new_at(alloc, value, 1)
    }

    /// Makes a value at this version, and its first pass. Its history begins with `version` - 1 stores of the
    /// value. A version below 2 is taken for 2, which is one store. Refused as `new`. This project's own.
    pub fn new_at(
        alloc: Global,
        value: T,
        version: u64,
    ) -> Result<(UnrestrictedAtomic<T>, Pass<T>), UniqueIndexCreationError>
        ensures pass { IfOk result (λ r. IsPassOf r.0 r.1 × (view r.1 ≡ opened_view value T.WORDS version)) }
        ensures refused { IfErr result (λ e. e ≡ NoMemory) }
    {
        match UnrestrictedAtomic::of(alloc, value, version) {
            Ok(made) => Ok(made),
            Err(_) => Err(UniqueIndexCreationError::NoMemory),
        }
    }
}
