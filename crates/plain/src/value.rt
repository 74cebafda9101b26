//! The single value of one caller, of any number of words.
ghost use Rattle.std.specs.Prelude.{◌≡◌, ◌≤◌, IfOk, IfErr, slice_index};
ghost use Rattle.steps.specs.Objects.Values.{Versioned, has_version, stored};
ghost use Rattle.steps.specs.declared.enums.UniqueIndexCreationError.TheVariants.{NoMemory};
ghost use Rattle.plain_queues.specs.Alone.{BehavesAs};
ghost use Rattle.plain.specs.Value.{value_in, Represents};

use plain_queues::drive::drive;
use std::alloc::Global;
use std::marker::{Model, PhantomData};
use steps::atomic::version::Version;
use steps::atomic::{FIRST_CELL, Load, PRODUCER, Store, VERSION};
use steps::copied::Copied;
use steps::enums::UniqueIndexCreationError;
use steps::routine::Routine;
use steps::words::Words;

/// A value that one caller uses, whose version counts the values there have been. After `UnrestrictedAtomic` of the
/// Rust crate.
///
/// ```rust
/// let mut value = UnrestrictedAtomic::new(rt.alloc(), (7u64, 1u64))?;
/// assert!(rt; value.store((8, 2)));
/// assert!(rt; value.load() == (8, 2) && value.version() == 2);
/// ```
#[derive(Drop)]
pub struct UnrestrictedAtomic<T: Words> {
    words: Vec<u64>,
    of: PhantomData<T>,
}

impl<T: Words> Model for UnrestrictedAtomic<T> {
    ghost Value = { Versioned T };

    ghost view = { λ s. value_in T.value_of T.WORDS s.words.items };

    ghost invariant = { λ s. Represents T.WORDS s.words.items };
}

/// Drives a store to its end, over the words of a single value.
fn store<T: Words>(words: &mut Vec<u64>, value: &T) -> bool
    requires { Represents T.WORDS words.old.items }
    ensures { BehavesAs (Represents T.WORDS) (value_in T.value_of T.WORDS) has_version
        (λ s. stored s value.now) words.old.items result words.new.items }
{
    let mut room = ();
    drive(words, Store::new(), value, &mut room)
}

/// Drives a load to its end, over the words of a single value.
fn load<T: Words>(words: &mut Vec<u64>) -> T
    requires { Represents T.WORDS words.old.items }
    ensures { BehavesAs (Represents T.WORDS) (value_in T.value_of T.WORDS) (λ s. s.value) (λ s. s)
        words.old.items result words.new.items }
{
    let mut room = Copied::new();
    drive(words, Load::<T, Copied>::new(), &(), &mut room);
    Load::<T, Copied>::answer((), &(), &room)
}

/// Drives a look at the version to its end, over the words of a single value.
fn version(words: &mut Vec<u64>) -> u64
    ensures answer { result ≡ slice_index words.old.items 0 }
    ensures words { words.new.items ≡ words.old.items }
{
    let mut room = ();
    drive(words, Version, &(), &mut room)
}

impl<T: Words> UnrestrictedAtomic<T> {
    /// Replaces the value and returns true, or returns false at the last version.
    pub fn store(&mut self, value: T) -> bool
        ensures answer { result ≡ has_version self.old }
        ensures value { self.new ≡ stored self.old value }
    {
        store(&mut self.words, &value)
    }

    /// Returns the value.
    pub fn load(&mut self) -> T
        ensures answer { result ≡ self.old.value }
        ensures value { self.new ≡ self.old }
    {
        load::<T>(&mut self.words)
    }

    /// Returns the version. This project's own.
    pub fn version(&mut self) -> u64
        ensures answer { result ≡ self.old.version }
        ensures value { self.new ≡ self.old }
    {
        version(&mut self.words)
    }

    /// Makes a value of version 1. Refused is memory (`NoMemory`).
    pub fn new(alloc: Global, value: T) -> Result<UnrestrictedAtomic<T>, UniqueIndexCreationError>
        ensures value { IfOk result (λ s. s ≡ record { value = value; version = 1 }) }
        ensures refused { IfErr result (λ e. e ≡ NoMemory) }
    {
        UnrestrictedAtomic::new_at(alloc, value, 1)
    }

    /// Makes a value of this version, which is at least 1. It is refused where `new` is.
    pub fn new_at(
        alloc: Global,
        value: T,
        version: u64,
    ) -> Result<UnrestrictedAtomic<T>, UniqueIndexCreationError>
        requires { 1 ≤ version }
        ensures value { IfOk result (λ s. s ≡ record { value = value; version = version }) }
        ensures refused { IfErr result (λ e. e ≡ NoMemory) }
    {
        let mut words = Vec::new(alloc);
        if words.resize(FIRST_CELL + 2 * T::WORDS, 0).is_err() {
            return Err(UniqueIndexCreationError::NoMemory);
        }
        words[VERSION] = version - 1;
        words[PRODUCER] = 1;
        store::<T>(&mut words, &value);
        Ok(UnrestrictedAtomic {
            words,
            of: PhantomData,
        })
    }
}
