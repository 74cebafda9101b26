//! The latest call of each party.
use crate::event::Start;
use crate::families::Flight;
use std::collections::BTreeMap;
use std::marker::Model;

/// How far a party's latest call has come.
#[derive(Debug, Clone, Copy, PartialEq, Eq)]
pub struct Progress {
    /// The steps that it has taken, one for each operation on a word.
    pub steps: u64,
    /// How often it has begun a turn of a loop again.
    pub backs: u64,
    /// How often other parties have changed a word's value between the call's begin and its finish.
    pub others: u64,
    /// Whether it is done.
    pub finished: bool,
}

/// Where a party's latest call stands.
pub enum Doing<T> {
    /// It goes on. The number is how many changes of words were made before it began, or by itself.
    Going(Flight<T>, u64),
    /// It is done. The number is how many changes others made while it was under way.
    Over(u64),
}

impl<T: Drop> Drop for Doing<T> {
    fn drop(self) {
        match self {
            Doing::Going(_flight, _) => {}
            Doing::Over(_) => {}
        }
    }
}

/// A party that has begun a call.
pub struct Party<T> {
    pub start: Start<T>,
    pub steps: u64,
    pub backs: u64,
    pub doing: Doing<T>,
}

impl<T: Drop> Drop for Party<T> {
    fn drop(self) {
        let Self {
            start: _start,
            steps: _,
            backs: _,
            doing: _doing,
        } = self;
    }
}

/// A party in memory of its own: a map of parties keeps, and moves, only where each is. No seat at a table is meant.
pub struct Seat<T> {
    pub party: Box<Party<T>>,
}

impl<T: Drop> Drop for Seat<T> {
    fn drop(self) {
        let Self { party: _party } = self;
    }
}

impl<T> Model for Seat<T> {
    ghost use Rattle.model.specs.declared.party.Party.{Party};

    ghost Value = { Party T };

    ghost view = { λ a. a.party.value };
}

/// The parties that have begun a call, by number.
pub type Latest<T> = BTreeMap<u32, Seat<T>>;
