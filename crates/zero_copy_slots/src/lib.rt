//! Values of any type in plain memory, which many threads read where they lie while nobody writes: a word
//! beside each value counts its readers. Nothing is copied, and no code is unsafe. Each value lies there with
//! a number, and a reader has the fact that the user's rule states about both, which the writer has proved.
#![tactic(auto)]

mod debug;
pub mod error;
pub mod words;

ghost use Rattle.std.specs.Prelude.{◌≡◌, ℕ, ◌<◌, ◌-◌, ◌%◌, IsSome, IsSomeAnd, IfOk, IfErr, IfSome};
ghost use Rattle.std.specs.List.{range_with_len};
ghost use Rattle.std.proofs.Props.{props};
ghost use Rattle.counted_slot.specs.Counting.{readers};

use crate::error::{ReadFailure, TakeFailure};
use crate::words::{Emptied, Lies, clear, lay, look, turn};
use counted_slot::{Claim, Counted, Fits, MOST_READERS, ONE_READER, PRESENT, TAKEN};
use std::alloc::{AllocError, Global};
use std::marker::PhantomData;
use std::ops::Deref;

/// A rule of the user's: a fact about each value and the number that it is laid down with. Values of one type
/// may keep different facts in different slots, by two rules.
pub trait Keeps<X> {
    ghost holds: { ℕ → X → Type 0 };
}

/// The rule that says nothing of a value.
pub struct Anything;

impl<X> Keeps<X> for Anything {
    ghost holds = { λ _ _. Unit {0} };
}

/// A value with its number, and the rule that they keep.
#[derive(Drop)]
pub struct Kept<X, K: Keeps<X>> {
    number: u64,
    value: X,
    rule: PhantomData<K>,
}

impl<X, K: Keeps<X>> Fits for Kept<X, K> {
    /// The slot that it lies in.
    type Tag = u32;

    ghost fits = { λ _ k. K.holds k.number k.value };
}

/// Slots, each of which is empty or has a value of type X, which may own memory. They are shared by reference
/// between threads where `X: Send + Sync`.
///
/// A slot may be read by many at once, or written by one. A value lies in its slot until another is laid there, the slot is
/// left empty, or all slots are dropped.
pub struct Slots<X, K: Keeps<X> = Anything> {
    cells: Vec<Counted<Option<Kept<X, K>>>>,
    number: u32,
    ghost numbered: { cells.items ≡ range_with_len 0 number },
}

impl<X: Drop, K: Keeps<X>> Drop for Slots<X, K> {
    fn drop(self) {
        let Self {
            cells: _cells,
            number: _,
        } = self;
    }
}

/// A value that is read: nobody writes its slot as long as this lives. It stays in its thread. Dropping it counts one reader
/// less, by one atomic step.
///
/// One that is forgotten (`std::mem::forget`) stays counted: its slot can still be read, and is never written again.
pub struct Reading<'a, X, K: Keeps<X> = Anything> {
    claim: Claim<'a, Option<Kept<X, K>>>,
    ghost reads: { claim.right ≡ 1 },
    ghost filled: { IsSomeAnd claim.value (λ value. IsSome value) } by { Prim.hlevel props },
}

/// The right to write a slot, which nobody else writes or reads as long as this lives. It stays in its thread. Dropping it
/// leaves the slot empty and drops what lay there, by one atomic step.
///
/// Where one is forgotten (`std::mem::forget`), its slot is never read or written again.
pub struct Writing<'a, X, K: Keeps<X> = Anything> {
    slot: u32,
    claim: Claim<'a, Option<Kept<X, K>>>,
    ghost writes: { claim.right ≡ 2 },
    ghost at: { claim.tag ≡ slot },
}

/// Says that a value was laid into a slot with a number. Only `put` makes one, so a function that asks for a
/// `Laid` is called after a `put`.
#[derive(Debug, Drop)]
pub struct Laid {
    lies: Lies,
}

/// Says that a value lies in a slot since its writer laid it there: it borrows the writer, so the writer has taken no slot since.
#[derive(Debug, Drop)]
pub struct Lying<'w> {
    laid: Laid,
    since: PhantomData<&'w ()>,
}

/// The end of slots by which one thread writes them. As long as a `Lying` of it lives, it takes no slot.
pub struct Writer<'a, X, K: Keeps<X> = Anything> {
    slots: &'a Slots<X, K>,
}

impl<'a, X, K: Keeps<X>> Drop for Writer<'a, X, K> {
    fn drop(self) {
        let Self { slots: _ } = self;
    }
}

/// The end of slots by which one thread reads them: it takes and lays nothing.
pub struct Reader<'a, X, K: Keeps<X> = Anything> {
    slots: &'a Slots<X, K>,
}

impl<'a, X, K: Keeps<X>> Drop for Reader<'a, X, K> {
    fn drop(self) {
        let Self { slots: _ } = self;
    }
}

impl<'w> Lying<'w> {
    ghost use Rattle.zero_copy_slots.specs.Slots.{lying_number, lying_slot};

    /// The slot. No atomic step.
    pub fn slot(&self) -> u32
        ensures { result ≡ lying_slot self.now }
    {
        self.laid.slot()
    }

    /// The number. No atomic step.
    pub fn number(&self) -> u64
        ensures { result ≡ lying_number self.now }
    {
        self.laid.number()
    }
}

impl<'a, X, K: Keeps<X>> Writer<'a, X, K> {
    ghost use Rattle.zero_copy_slots.specs.Slots.{lying_number, lying_slot, read_by, slot_of, slots_in, written_by, IsUntaken};

    /// The writer of these slots. Nobody else may write them. No atomic step.
    pub fn new(slots: &'a Slots<X, K>) -> Writer<'a, X, K>
        ensures { written_by result ≡ slots.now }
    {
        Writer { slots }
    }

    /// How many slots there are. No atomic step.
    pub fn number(&self) -> u32
        ensures { result ≡ slots_in (written_by self.now) }
    {
        self.slots.number()
    }

    /// An end by which another thread reads the same slots. No atomic step.
    pub fn reader(&self) -> Reader<'a, X, K>
        ensures { read_by result ≡ written_by self.now }
    {
        Reader { slots: self.slots }
    }

    /// The right to write this slot, as by `Slots::take`.
    pub fn take(&mut self, slot: u32) -> Result<Writing<'a, X, K>, TakeFailure>
        ensures slot { IfOk result (λ w. (slot_of w ≡ slot) × (slot < slots_in (written_by self.old))) }
        ensures refused { IfErr result (IsUntaken (written_by self.old) slot) }
        ensures same { written_by self.new ≡ written_by self.old }
    {
        self.slots.take(slot)
    }

    /// Lays a value down as by `Writing::put`, and takes no slot as long as the answer lives.
    pub fn put<'w>(
        &'w self,
        writing: Writing<'a, X, K>,
        number: u64,
        value: X,
    ) -> (Lying<'w>, Option<(u64, X)>)
        requires fits { K.holds number value }
        ensures laid { (lying_slot result.0 ≡ slot_of writing.entry) × (lying_number result.0 ≡ number) }
        ensures fits { IfSome result.1 (λ r. K.holds r.0 r.1) }
    {
        let (laid, before) = writing.put(number, value);
        (
            Lying {
                laid,
                since: PhantomData,
            },
            before,
        )
    }
}

impl<'a, X, K: Keeps<X>> Reader<'a, X, K> {
    ghost use Rattle.zero_copy_slots.specs.Slots.{read_by, slot_in, slots_in, IsUnreadable};

    /// A reader of these slots. No atomic step.
    pub fn new(slots: &'a Slots<X, K>) -> Reader<'a, X, K>
        ensures { read_by result ≡ slots.now }
    {
        Reader { slots }
    }

    /// Reads the value of this slot, as by `Slots::read`.
    pub fn read(&self, slot: u32) -> Result<Reading<'_, X, K>, ReadFailure>
        ensures slot { IfOk result (λ r. (slot_in r ≡ slot) × (slot < slots_in (read_by self.now))) }
        ensures refused { IfErr result (IsUnreadable (read_by self.now) slot) }
    {
        self.slots.read(slot)
    }
}

impl<'a, X, K: Keeps<X>> Reading<'a, X, K> {
    ghost use Rattle.zero_copy_slots.specs.Slots.{number_in, value_in};

    /// The number that the value was laid there with. No atomic step.
    pub fn number(&self) -> u64
        ensures { result ≡ number_in self.now }
    {
        match self.claim.get() {
            Some(kept) => kept.number,
            None => unreachable!(),
        }
    }

    /// The value, where it lies, which keeps its rule. It is the same each time. No atomic step.
    pub fn get(&self) -> &X
        ensures fits { K.holds (number_in self.now) result.now }
        ensures same { value_in self.now ≡ Some result.now }
    {
        match self.claim.get() {
            Some(kept) => &kept.value,
            None => unreachable!(),
        }
    }
}

/// `*reading` is the value, as by `get`.
impl<'a, X, K: Keeps<X>> Deref for Reading<'a, X, K> {
    type Target = X;

    ghost use Rattle.zero_copy_slots.specs.Slots.{number_in, value_in};
    ghost use Rattle.std.specs.Prelude.{Some};

    ghost deref_gives = { λ r x. K.holds (number_in r) x × (value_in r ≡ Some x) };

    fn deref(&self) -> &X {
        self.get()
    }
}

impl<'a, X, K: Keeps<X>> Drop for Reading<'a, X, K> {
    fn drop(self) {
        let Self { claim } = self;
        claim.leave();
    }
}

// X need not be `Drop` here, so no value can be dropped: what is passed is laid down, and what lay there is handed out.
impl<'a, X, K: Keeps<X>> Writing<'a, X, K> {
    ghost use Rattle.zero_copy_slots.specs.Slots.{laid_number, laid_slot, slot_of};
    ghost use Rattle.zero_copy_slots.specs.Words.{emptied_number, emptied_slot, number_with};

    /// Lays a value there with its number, which may be read from now on, and hands out those that lay there, if any did. X need not
    /// be `Drop`, so neither can be lost; that what comes out is what was laid there last is only tested. One atomic step.
    pub fn put(self, number: u64, value: X) -> (Laid, Option<(u64, X)>)
        requires fits { K.holds number value }
        ensures laid { (laid_slot result.0 ≡ slot_of self.entry) × (laid_number result.0 ≡ number) }
        ensures fits { IfSome result.1 (λ r. K.holds r.0 r.1) }
    {
        let Self { slot, claim } = self;
        let (lies, before) = lay(claim, slot, number, value);
        (Laid { lies }, value_of(before))
    }

    /// Leaves the slot empty, says so, and hands out what lay there with its number, if anything did. One atomic step.
    pub fn clear(self) -> (Emptied, Option<(u64, X)>)
        ensures slot { emptied_slot result.0 ≡ slot_of self.entry }
        ensures number { emptied_number result.0 ≡ number_with result.1 }
        ensures fits { IfSome result.1 (λ r. K.holds r.0 r.1) }
    {
        let Self { slot, claim } = self;
        clear(claim, slot)
    }

    /// Leaves the slot empty, as `clear`, for a caller that needs no `Emptied`. One atomic step.
    pub fn empty(self) -> Option<(u64, X)>
        ensures fits { IfSome result (λ r. K.holds r.0 r.1) }
    {
        self.clear().1
    }
}

impl Laid {
    ghost use Rattle.zero_copy_slots.specs.Slots.{laid_number, laid_slot};

    /// The slot. No atomic step.
    pub fn slot(&self) -> u32
        ensures { result ≡ laid_slot self.now }
    {
        self.lies.slot()
    }

    /// The number. No atomic step.
    pub fn number(&self) -> u64
        ensures { result ≡ laid_number self.now }
    {
        self.lies.number()
    }
}

impl<'a, X: Drop, K: Keeps<X>> Drop for Writing<'a, X, K> {
    fn drop(self) {
        self.clear();
    }
}

/// The number and the value of what lay in a slot, if anything did.
fn value_of<X, K: Keeps<X>>(kept: Option<Kept<X, K>>) -> Option<(u64, X)>
    requires { IfSome kept (λ k. K.holds k.number k.value) }
    ensures { IfSome result (λ r. K.holds r.0 r.1) }
{
    match kept {
        Some(
            Kept {
                number,
                value,
                rule: _,
            },
        ) => Some((number, value)),
        None => None,
    }
}

/// How many readers the word of a slot counts.
fn reader_count(word: u64) -> u64
    ensures { result ≡ readers word }
{
    word % 0x1_0000_0000 / 4
}

impl<X: Drop, K: Keeps<X>> Slots<X, K> {
    ghost use Rattle.zero_copy_slots.specs.Slots.{slots_in};

    /// Makes `number` empty slots. Refused only where there is no memory. No atomic step.
    pub fn new(alloc: Global, number: u32) -> Result<Slots<X, K>, AllocError>
        ensures slots { IfOk result (λ s. slots_in s ≡ number) }
    {
        let mut cells = Vec::with_capacity(alloc, number as usize)?;
        for slot in 0..number {
            cells.push(Counted::new(None, &slot))?;
        }
        Ok(Slots { cells, number })
    }
}

impl<X, K: Keeps<X>> Slots<X, K> {
    ghost use Rattle.zero_copy_slots.specs.Slots.{slot_in, slot_of, slots_in, IsUnreadable, IsUntaken};

    /// How many slots there are. No atomic step.
    pub fn number(&self) -> u32
        ensures { result ≡ slots_in self.now }
    {
        self.number
    }

    /// Reads the value of this slot. Refused where there is no such slot (`NoSlot`), where the word that it saw there says that it is
    /// empty or written (`NotThere`) or that 2^30 - 1 read it already (`TooMany`), and where it changed between the two steps of each of
    /// 2^64 - 1 tries (`Busy`). Then nothing changes. That the word was seen in these slots by this call, and that it changed in each
    /// try, no clause says.
    ///
    /// A load and a compare-exchange where nobody comes to the slot or leaves it in between, and two more for each time that
    /// somebody does.
    pub fn read(&self, slot: u32) -> Result<Reading<'_, X, K>, ReadFailure>
        ensures slot { IfOk result (λ r. (slot_in r ≡ slot) × (slot < slots_in self.now)) }
        ensures refused { IfErr result (IsUnreadable self.now slot) }
    {
        let Some(cell) = self.cells.get(slot as usize) else {
            return Err(ReadFailure::NoSlot);
        };
        let cell: &Counted<Option<Kept<X, K>>> = cell;
        for tries in 0..u64::MAX {
            let seen = look(cell, slot);
            let word = seen.word();
            if word % 4 != PRESENT {
                return Err(ReadFailure::NotThere(seen));
            }
            if reader_count(word) == MOST_READERS {
                return Err(ReadFailure::TooMany(seen));
            }
            let (found, claim) = turn(cell, seen, word + ONE_READER);
            if found.word() != word {
                claim.done();
                if tries == u64::MAX - 1 {
                    return Err(ReadFailure::Busy(seen, found));
                }
                continue;
            }
            if claim.get().is_some() {
                return Ok(Reading { claim });
            }
            // (no call leaves a slot PRESENT and empty)
            claim.leave();
            return Err(ReadFailure::Hollow(seen));
        }
        unreachable!()
    }

    /// The right to write this slot. Refused where there is no such slot (`NoSlot`), where the word that it saw there says that
    /// somebody reads or writes it (`InUse`), and where it changed between the two steps (`Changed`). Then nothing changes. That the
    /// words were seen in these slots by this call, no clause says.
    ///
    /// A load and at most one compare-exchange.
    pub fn take(&self, slot: u32) -> Result<Writing<'_, X, K>, TakeFailure>
        ensures slot { IfOk result (λ w. (slot_of w ≡ slot) × (slot < slots_in self.now)) }
        ensures refused { IfErr result (IsUntaken self.now slot) }
    {
        let Some(cell) = self.cells.get(slot as usize) else {
            return Err(TakeFailure::NoSlot);
        };
        let cell: &Counted<Option<Kept<X, K>>> = cell;
        let seen = look(cell, slot);
        let word = seen.word();
        if word % 4 == TAKEN || reader_count(word) != 0 {
            return Err(TakeFailure::InUse(seen));
        }
        let (found, claim) = turn(cell, seen, word - word % 4 + TAKEN);
        if found.word() != word {
            claim.done();
            return Err(TakeFailure::Changed(seen, found));
        }
        Ok(Writing { slot, claim })
    }
}
