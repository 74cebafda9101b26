//! The words on which the steps by hand are made: a table of atomic words that keep no rule,
//! and one operation on one of them. With these the rows measure what the calls of the crates
//! cost beside their steps.
ghost use Rattle.std.specs.Prelude.{◌≡◌, ◌<◌, length, IfOk};
ghost use Rattle.std.specs.Arc.{arc_value};

use atomic_table::{Play, Seat, Table, TableRule};
use std::alloc::{AllocError, Global};
use std::sync::Arc;

pub mod bits;
pub mod container;
pub mod looks;
pub mod queues;
pub mod robust;

/// A rule of a table that always holds, and steps that tell nothing.
pub struct Anything;

impl TableRule<(), (), ()> for Anything {
    ghost holds = { λ _ _. Unit {0} };

    ghost first = { λ _. tt };
}

impl Play<(), ()> for Anything {
    ghost then = { λ _ _ _ _. Unit {0} };
}

/// A table of words that threads could share, with a seat at it. Each operation is one atomic step.
pub struct Words {
    seat: Seat<(), ()>,
    table: Arc<Table<(), (), (), Anything, Global>, Global>,
    size: usize,
    ghost mine: { seat.table_id ≡ (arc_value table).shared.table_id },
    ghost sized: { (arc_value table).shared.table_id.words ≡ size },
}

impl Drop for Words {
    fn drop(self) {
        let Self {
            seat: _seat,
            table: _table,
            size: _,
        } = self;
    }
}

impl Words {
    /// A table whose words hold these numbers.
    pub fn new(alloc: Global, numbers: &[u64]) -> Result<Words, AllocError>
        ensures { IfOk result (λ w. w.size ≡ length numbers.now) }
    {
        let (table, seat) = Table::of_words(alloc, numbers, &())?;
        let table = Arc::new(alloc, table)?;
        Ok(Words {
            seat,
            table,
            size: numbers.len(),
        })
    }

    /// The number in the word.
    #[inline(always)]
    pub fn load(&mut self, word: usize) -> u64
        requires { word < self.old.size }
        ensures { self.new.size ≡ self.old.size }
    {
        self.table.shared.load::<Anything>(&mut self.seat, word)
    }

    /// Stores the number `new` in the word.
    #[inline(always)]
    pub fn store(&mut self, word: usize, new: u64)
        requires { word < self.old.size }
        ensures { self.new.size ≡ self.old.size }
    {
        self.table
            .shared
            .store::<Anything>(&mut self.seat, word, new);
    }

    /// Adds `by` to the word, and returns the number that was there.
    #[inline(always)]
    pub fn add(&mut self, word: usize, by: u64) -> u64
        requires { word < self.old.size }
        ensures { self.new.size ≡ self.old.size }
    {
        self.table
            .shared
            .fetch_add::<Anything>(&mut self.seat, word, by)
    }

    /// Writes `to` into the word if it holds `from`. It returns the number that was there in both cases.
    #[inline(always)]
    pub fn exchange(&mut self, word: usize, from: u64, to: u64) -> u64
        requires { word < self.old.size }
        ensures { self.new.size ≡ self.old.size }
    {
        self.table
            .shared
            .compare_exchange::<Anything>(&mut self.seat, word, from, to)
    }
}
