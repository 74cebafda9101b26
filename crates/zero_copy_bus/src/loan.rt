//! A slot that the publisher has on loan (`Loan`), and the proof that a slot was left empty (`Emptied`).
ghost use Rattle.std.specs.Prelude.{◌≡◌};
ghost use Rattle.zero_copy_slots.specs.Slots.{slot_of};

use std::ops::Deref;
use zero_copy_slots::{Anything, Keeps, Writing};

/// A slot that nobody reads, and a record for it, which the publisher writes in plain memory. It ends as it is published or given
/// up, and stays in its thread. Where it is dropped, its record is dropped too, and its slot stays out until it is reclaimed.
pub struct Loan<'a, X: Drop, K: Keeps<X> = Anything> {
    slot: u32,
    /// The record, where it is written. It is one that was published before, or a spare as the publisher was given it.
    pub value: X,
    writing: Writing<'a, X, K>,
    ghost at: { slot_of writing ≡ slot },
}

impl<'a, X: Drop, K: Keeps<X>> Drop for Loan<'a, X, K> {
    fn drop(self) {
        let Self {
            slot: _,
            value: _value,
            writing: _writing,
        } = self;
    }
}

/// `*loan` is the value, to be read. It is written as `loan.value`.
impl<'a, X: Drop, K: Keeps<X>> Deref for Loan<'a, X, K> {
    type Target = X;

    ghost deref_gives = { λ l x. x ≡ l.value };

    fn deref(&self) -> &X {
        &self.value
    }
}

impl<'a, X: Drop, K: Keeps<X>> Loan<'a, X, K> {
    ghost use Rattle.zero_copy_bus.specs.Ends.{loaned};

    /// A loan of this slot, with this record to write, and the right to write the slot.
    pub(crate) fn of(slot: u32, value: X, writing: Writing<'a, X, K>) -> Loan<'a, X, K>
        requires { slot_of writing ≡ slot }
        ensures { loaned result ≡ slot }
    {
        Loan {
            slot,
            value,
            writing,
        }
    }

    /// The number of the slot.
    pub fn slot(&self) -> u32
        ensures { result ≡ loaned self.now }
    {
        self.slot
    }

    /// Takes the loan apart: its record, and the right to write the slot.
    pub(crate) fn into_parts(self) -> (X, Writing<'a, X, K>)
        ensures value { result.0 ≡ self.entry.value }
        ensures at { slot_of result.1 ≡ loaned self.entry }
    {
        let Self {
            slot: _,
            value,
            writing,
        } = self;
        (value, writing)
    }
}

/// Says that a slot was left empty by its writer. So nobody else read or wrote it at that step.
#[derive(Debug, Drop)]
pub struct Emptied {
    slot: u32,
}

impl Emptied {
    ghost use Rattle.zero_copy_bus.specs.Ends.{emptied};

    /// The number of the slot.
    pub fn slot(&self) -> u32
        ensures { result ≡ emptied self.now }
    {
        self.slot
    }

    /// Leaves a slot empty, and hands out what lay there with its number, if anything did. One atomic step.
    pub(crate) fn by<X: Drop, K: Keeps<X>>(
        slot: u32,
        writing: Writing<'_, X, K>,
    ) -> (Emptied, Option<(u64, X)>)
        requires { slot_of writing ≡ slot }
        ensures { emptied result.0 ≡ slot_of writing.entry }
    {
        let before = writing.empty();
        (Emptied { slot }, before)
    }
}
