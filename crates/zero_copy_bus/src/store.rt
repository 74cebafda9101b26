//! The slots of a bus: which are free, and the records that lie in them.
ghost use Rattle.std.specs.Prelude.{◌≡◌, None, IfOk, OnOk};
ghost use Rattle.threaded.specs.Shares.{all_shares};
ghost use Rattle.lock_free_sets.specs.Unique.Held.{HoldsNothing};
ghost use Rattle.lock_free_sets.specs.UniqueIndexSet.{capacity_of, made, set_refusal, share, IsPassOf};
ghost use Rattle.zero_copy_slots.specs.Slots.{slots_in};

use crate::error::BusError;
use lock_free_sets::mpmc::unique_index_set::{Pass, UniqueIndexSet};
use std::alloc::Global;
use zero_copy_slots::{Anything, Keeps, Slots};

/// A set of free slots, and a place for a record in each slot.
pub struct Store<X: Drop, K: Keeps<X> = Anything> {
    set: UniqueIndexSet,
    records: Slots<X, K>,
    ghost sized: { slots_in records ≡ capacity_of set },
}

impl<X: Drop, K: Keeps<X>> Drop for Store<X, K> {
    fn drop(self) {
        let Self {
            set: _set,
            records: _records,
        } = self;
    }
}

impl<X: Drop, K: Keeps<X>> Store<X, K> {
    ghost use Rattle.zero_copy_bus.specs.Stores.{set_in};

    /// A store of `slots` slots, each free and without a record, and the first pass of the set.
    pub fn new(alloc: Global, slots: usize) -> Result<(Store<X, K>, Pass), BusError>
        ensures pass { IfOk result (λ r. IsPassOf (set_in r.0) r.1) }
        ensures nothing { IfOk result (λ r. HoldsNothing (made r.1)) }
        ensures share { IfOk result (λ r. share r.1 ≡ all_shares) }
        ensures slots { IfOk result (λ r. capacity_of (set_in r.0) ≡ slots) }
        ensures admitted { OnOk result (set_refusal slots ≡ None) }
    {
        let (set, pass) = UniqueIndexSet::new(alloc, slots)?;
        match Slots::new(alloc, set.capacity()) {
            Ok(records) => Ok((Store { set, records }, pass)),
            Err(_) => Err(BusError::NoMemory),
        }
    }

    /// The set of free slots.
    pub fn set(&self) -> &UniqueIndexSet
        ensures { result.now ≡ set_in self.now }
    {
        &self.set
    }

    /// The slots in which records lie: as many as the set has indices.
    pub fn records(&self) -> &Slots<X, K>
        ensures records { result.now ≡ self.now.records }
        ensures sized { slots_in result.now ≡ capacity_of (set_in self.now) }
    {
        &self.records
    }
}
