//! The slots of a bus, and who holds each. A slot is out of the set of free indices as long as anybody
//! holds it. A slot that came back is kept out of the set too, in plain memory, so that the next take of
//! a slot makes no atomic step. `into_pass` and the drop of a pool give the kept slots back to the set
//! (the drop by no clause).
ghost use Rattle.std.specs.Prelude.{◌≡◌, ◌<◌, ◌≤◌, ◌-◌, ◌↔◌, true, false, [], ◌∷◌, ◌++◌, length, replicate, IsTrue, IsFalse, IfOk, IfErr, OnErr};
ghost use Rattle.threaded.specs.Shares.{IsAll};
ghost use Rattle.history.specs.Held.{Holds};
ghost use Rattle.lock_free_sets.specs.Unique.Held.{HoldsNothing};
ghost use Rattle.lock_free_sets.specs.UniqueIndexSet.{capacity_of, made, set_of, share, view, IsPassOf};
ghost use Rattle.zero_copy_bus.specs.Books.{holders_at, AllFree, CanSend, ChangesAt, Exchanges, GainsNone, GainsOnly};
ghost use Rattle.zero_copy_bus.specs.Books.{HasNone, HasSlot, HoldsEach, IsBookOf, KeepsBook, KeepsOthers, held_number};
ghost use Rattle.zero_copy_bus.specs.Holders.{is_held, nobody};

use crate::error::BusError;
use crate::holders::{Holder, Holders};
use lock_free_sets::mpmc::unique_index_set::{Pass, UniqueIndexSet};
use lock_free_sets::mpmc::unique_index_set_enums::UniqueIndexSetAcquireFailure;
use std::alloc::Global;
use std::sync::Wait;

/// A set of free slots, the free slots that are kept out of it, the last one first, and a table of who holds each slot.
pub struct Pool<'a> {
    set: &'a UniqueIndexSet,
    pass: Pass,
    kept: Vec<u32>,
    table: Vec<Holders>,
    ghost of: { IsPassOf set.now pass },
    ghost long: { length table.items ≡ capacity_of set.now },
    ghost book: { IsBookOf (view pass) kept.items table.items },
}

impl<'a> Drop for Pool<'a> {
    fn drop(self) {
        let Self {
            set,
            mut pass,
            mut kept,
            table: _table,
        } = self;
        give_all(set, &mut pass, &mut kept);
    }
}

/// Takes a slot that nobody holds: the one that was kept last, or one of the set if none is kept.
fn take_one(
    rt: &impl Wait,
    set: &UniqueIndexSet,
    pass: &mut Pass,
    kept: &mut Vec<u32>,
) -> Result<u32, UniqueIndexSetAcquireFailure>
    requires pass { IsPassOf set.now pass.old }
    requires held { HoldsEach kept.old.items (made pass.old) }
    ensures within { IfOk result (λ slot. slot < capacity_of set.now) }
    ensures taken { IfOk result
        (λ slot. KeepsBook (view pass.old) kept.old.items (view pass.new) (kept.new.items ++ slot ∷ [])) }
    ensures refused { IfErr result (λ _. KeepsBook (view pass.old) kept.old.items (view pass.new) kept.new.items) }
    ensures set { set_of pass.new ≡ set_of pass.old }
    ensures share { share pass.new ≡ share pass.old }
{
    if let Some(slot) = kept.pop() {
        return Ok(slot);
    }
    let slot = set.acquire_raw_index(rt, pass)?;
    Ok(slot)
}

/// Keeps a slot that nobody holds any more, or gives it back to the set if the list has no room for it. (The
/// list has room for all slots, by no clause.)
fn keep_one(set: &UniqueIndexSet, pass: &mut Pass, kept: &mut Vec<u32>, slot: u32)
    requires pass { IsPassOf set.now pass.old }
    requires held { Holds slot (made pass.old) }
    ensures kept { KeepsBook (view pass.old) (kept.old.items ++ slot ∷ []) (view pass.new) kept.new.items }
    ensures set { set_of pass.new ≡ set_of pass.old }
    ensures share { share pass.new ≡ share pass.old }
{
    match kept.push(slot) {
        Ok(()) => {}
        Err(_) => {
            set.release_raw_index(slot, pass);
        }
    }
}

/// Gives the slot that was kept last back to the set, if one is kept.
fn give_one(set: &UniqueIndexSet, pass: &mut Pass, kept: &mut Vec<u32>)
    requires pass { IsPassOf set.now pass.old }
    requires held { HoldsEach kept.old.items (made pass.old) }
    ensures held { HoldsEach kept.new.items (made pass.new) }
    ensures kept { KeepsBook (view pass.old) kept.old.items (view pass.new) kept.new.items }
    ensures fewer { length kept.new.items ≡ length kept.old.items - 1 }
    ensures set { set_of pass.new ≡ set_of pass.old }
    ensures share { share pass.new ≡ share pass.old }
{
    if let Some(slot) = kept.pop() {
        set.release_raw_index(slot, pass);
    }
}

/// Gives all kept slots back to the set.
fn give_all(set: &UniqueIndexSet, pass: &mut Pass, kept: &mut Vec<u32>)
    requires pass { IsPassOf set.now pass.old }
    requires held { HoldsEach kept.old.items (made pass.old) }
    ensures kept { KeepsBook (view pass.old) kept.old.items (view pass.new) [] }
    ensures set { set_of pass.new ≡ set_of pass.old }
    ensures share { share pass.new ≡ share pass.old }
{
    for _given in 0..kept.len() {
        give_one(set, pass, kept);
    }
}

impl<'a> Pool<'a> {
    ghost use Rattle.zero_copy_bus.specs.Pools.{set_in, share_in, slots_of, table_of, IsSame};

    /// A pool of which nobody holds a slot, over a pass of the set that holds nothing.
    pub fn new(alloc: Global, set: &'a UniqueIndexSet, pass: Pass) -> Result<Pool<'a>, BusError>
        requires pass { IsPassOf set.now pass }
        requires nothing { HoldsNothing (made pass) }
        ensures set { IfOk result (λ p. set_in p ≡ set_of pass) }
        ensures share { IfOk result (λ p. share_in p ≡ share pass) }
        ensures slots { IfOk result (λ p. slots_of p ≡ capacity_of set.now) }
        ensures free { IfOk result (λ p. table_of p ≡ replicate (capacity_of set.now) nobody) }
    {
        let slots = set.capacity() as usize;
        let Ok(kept) = Vec::with_capacity(alloc, slots) else {
            return Err(BusError::NoMemory);
        };
        match vec![in alloc; Holders::nobody(); slots] {
            Ok(table) => Ok(Pool {
                set,
                pass,
                kept,
                table,
            }),
            Err(_) => Err(BusError::NoMemory),
        }
    }

    /// Takes a free slot for this holder.
    pub fn take(
        &mut self,
        rt: &impl Wait,
        holder: Holder,
    ) -> Result<u32, UniqueIndexSetAcquireFailure>
        ensures within { IfOk result (λ slot. slot < slots_of self.old) }
        ensures free { IfOk result
            (λ slot. is_held (holders_at (table_of self.old) slot) ≡ false) }
        ensures changes { IfOk result
            (λ slot. ChangesAt slot holder (table_of self.old) (table_of self.new)) }
        ensures has { IfOk result (λ slot. HasSlot (table_of self.new) slot holder) }
        ensures refused { OnErr result (table_of self.new ≡ table_of self.old) }
        ensures same { IsSame self.old self.new }
    {
        let slot = take_one(rt, self.set, &mut self.pass, &mut self.kept)?;
        self.table[slot as usize] = Holders::nobody().with(holder);
        Ok(slot)
    }

    /// Whether this holder holds the slot.
    pub fn has(&self, slot: u32, holder: Holder) -> bool
        ensures { IsTrue result ↔ HasSlot (table_of self.now) slot holder }
    {
        match self.table.get(slot as usize) {
            Some(holders) => holders.has(holder),
            None => false,
        }
    }

    /// Whether nobody holds a slot.
    pub fn is_free(&self) -> bool
        ensures { IsTrue result ↔ AllFree (table_of self.now) }
    {
        for slot in 0..self.table.len() {
            if self.table[slot].is_somebody() {
                return false;
            }
        }
        true
    }

    /// This holder holds the slot too from now on, if somebody holds it. False, and nothing changes, if the
    /// slot is free or there is none.
    pub fn lend(&mut self, slot: u32, holder: Holder) -> bool
        ensures held { IsTrue result
            ↔ (is_held (holders_at (table_of self.old) slot) ≡ true) }
        ensures changes { ChangesAt slot holder (table_of self.old) (table_of self.new) }
        ensures has { IsTrue result → HasSlot (table_of self.new) slot holder }
        ensures refused { IsFalse result → table_of self.new ≡ table_of self.old }
        ensures same { IsSame self.old self.new }
    {
        if slot as usize >= self.table.len() {
            return false;
        }
        let holders = self.table[slot as usize];
        if !holders.is_somebody() {
            return false;
        }
        self.table[slot as usize] = holders.with(holder);
        true
    }

    /// Whether the slot is on loan, and this holder does not hold it.
    pub fn can_send(&self, slot: u32, holder: Holder) -> bool
        ensures { IsTrue result ↔ CanSend (table_of self.now) slot holder }
    {
        self.has(slot, Holder::publisher()) && !self.has(slot, holder)
    }

    /// Lends a slot that is on loan to a holder that does not hold it. The slot that came back for it, if one
    /// did, this holder holds no more. If that is the same slot, nothing changes: false.
    pub fn exchange(&mut self, slot: u32, holder: Holder, back: Option<u32>) -> bool
        requires { CanSend (table_of self.old) slot holder }
        ensures has { Exchanges slot holder back (table_of self.old) (table_of self.new) }
        ensures gained { IsTrue result ↔ HasSlot (table_of self.new) slot holder }
        ensures others { KeepsOthers holder (table_of self.old) (table_of self.new) }
        ensures gains { GainsOnly slot (table_of self.old) (table_of self.new) }
        ensures refused { IsFalse result → table_of self.new ≡ table_of self.old }
        ensures same { IsSame self.old self.new }
    {
        match back {
            None => {
                self.lend(slot, holder);
                true
            }
            Some(other) => {
                if other == slot {
                    return false;
                }
                self.lend(slot, holder);
                self.put_back(other as u64, holder);
                true
            }
        }
    }

    /// This holder holds the slot no more. If nobody else holds it, the slot is free and is kept.
    fn remove(&mut self, slot: u32, holder: Holder)
        requires within { slot < length (table_of self.old) }
        requires has { HasSlot (table_of self.old) slot holder }
        ensures changes { ChangesAt slot holder (table_of self.old) (table_of self.new) }
        ensures lacks { ¬ HasSlot (table_of self.new) slot holder }
        ensures same { IsSame self.old self.new }
    {
        let left = self.table[slot as usize].without(holder);
        self.table[slot as usize] = left;
        if !left.is_somebody() {
            keep_one(self.set, &mut self.pass, &mut self.kept, slot);
        }
    }

    /// This holder gives a slot back, which is free once nobody holds it. False, and nothing changes, if it
    /// does not hold a slot of this number.
    pub fn put_back(&mut self, number: u64, holder: Holder) -> bool
        ensures had { IsTrue result ↔ HasSlot (table_of self.old) number holder }
        ensures changes { ChangesAt number holder (table_of self.old) (table_of self.new) }
        ensures lacks { ¬ HasSlot (table_of self.new) number holder }
        ensures gains { GainsNone (table_of self.old) (table_of self.new) }
        ensures refused { IsFalse result → table_of self.new ≡ table_of self.old }
        ensures same { IsSame self.old self.new }
    {
        if number >= self.set.capacity() as u64 {
            return false;
        }
        let slot = number as u32;
        if !self.has(slot, holder) {
            return false;
        }
        self.remove(slot, holder);
        true
    }

    /// Gives back all slots that this holder holds.
    pub fn put_all_back(&mut self, holder: Holder)
        ensures none { HasNone holder (table_of self.new) }
        ensures others { KeepsOthers holder (table_of self.old) (table_of self.new) }
        ensures same { IsSame self.old self.new }
    {
        for slot in 0..self.set.capacity() {
            self.put_back(slot as u64, holder);
        }
    }

    /// How many slots are out of the set and not kept: at least as many as somebody holds, at most all, and
    /// exactly those that somebody holds if the pass has the whole share of the set.
    pub fn borrowed(&mut self) -> usize
        ensures table { table_of self.new ≡ table_of self.old }
        ensures least { held_number (table_of self.old) ≤ result }
        ensures most { result ≤ slots_of self.old }
        ensures whole { IsAll (share_in self.old) → result ≡ held_number (table_of self.old) }
        ensures same { IsSame self.old self.new }
    {
        self.set
            .borrowed_indices(&mut self.pass)
            .saturating_sub(self.kept.len())
    }

    /// How many slots the set has.
    pub fn slots(&self) -> u32
        ensures { result ≡ slots_of self.now }
    {
        self.set.capacity()
    }

    /// The pass, once the kept slots are given back to the set. It holds nothing if nobody holds
    /// a slot by the table.
    pub fn into_pass(self) -> Pass
        ensures free { AllFree (table_of self.entry) → HoldsNothing (made result) }
        ensures set { set_of result ≡ set_in self.entry }
        ensures share { share result ≡ share_in self.entry }
    {
        let Pool {
            set,
            mut pass,
            mut kept,
            table: _,
        } = self;
        give_all(set, &mut pass, &mut kept);
        pass
    }
}
