//! A pool of buffers: a thread that takes a place owns the value that lies in the place's slot, in plain
//! memory, and lays it back or hands it on to another thread.
ghost use Rattle.std.specs.Prelude.{◌≡◌, ◌<◌, Some, None, IfOk, IfErr, IfSome, MatchOption, OnOk};
ghost use Rattle.lock_free_sets.specs.UniqueIndexSet.{set_refusal, value_of, IsPassOf};
ghost use Rattle.zero_copy_slots.specs.Slots.{laid_number, laid_slot, IsUntaken};
ghost use Rattle.zero_copy_slots.specs.Words.{emptied_number, emptied_slot};

use crate::error::PoolFailure;
use lock_free_sets::mpmc::unique_index_set::{Pass, UniqueIndex, UniqueIndexSet};
use lock_free_sets::mpmc::unique_index_set_enums::{
    UniqueIndexCreationError, UniqueIndexSetAcquireFailure,
};
use std::alloc::Global;
use std::sync::Wait;
use std::thread;
use zero_copy_slots::error::TakeFailure;
use zero_copy_slots::words::Emptied;
use zero_copy_slots::{Anything, Keeps, Laid, Slots};

/// Places, each with a slot in which a value lies, or nothing. A value in a slot keeps the user's
/// rule with its number.
pub struct Pool<X: Drop, K: Keeps<X> = Anything> {
    set: UniqueIndexSet,
    pass: Pass,
    slots: Slots<X, K>,
    ghost of: { IsPassOf set pass },
}

impl<X: Drop, K: Keeps<X>> Drop for Pool<X, K> {
    fn drop(self) {
        let Self {
            set: _set,
            pass: _pass,
            slots: _slots,
        } = self;
    }
}

impl<X: Drop, K: Keeps<X>> Pool<X, K> {
    ghost use Rattle.zero_copy_loans.specs.Pools.{places_lent, places_of};

    /// A pool of `places` empty places, from 1 to 2^24 - 2. Refused where `UniqueIndexSet::new` refuses that
    /// capacity. No atomic step.
    pub fn new(alloc: Global, places: usize) -> Result<Pool<X, K>, UniqueIndexCreationError>
        ensures places { IfOk result (λ p. places_of p ≡ places) }
        ensures admitted { OnOk result (set_refusal places ≡ None) }
    {
        let (set, pass) = UniqueIndexSet::new(alloc, places)?;
        let Ok(slots) = Slots::new(alloc, set.capacity()) else {
            return Err(UniqueIndexCreationError::NoMemory);
        };
        Ok(Pool { set, pass, slots })
    }

    /// A lender, by which buffers of the pool are taken; `split` makes more lenders. None where no further
    /// pass can be counted.
    pub fn lender(&mut self) -> Option<Lender<'_, X, K>>
        ensures places { IfSome result (λ l. places_lent l ≡ places_of self.old) }
    {
        let pass = self.pass.split()?;
        Some(self.lender_with(pass))
    }

    /// A lender of this pool, with this pass of its set.
    fn lender_with(&self, pass: Pass) -> Lender<'_, X, K>
        requires { IsPassOf self.now.set pass }
        ensures places { places_lent result ≡ places_of self.now }
    {
        Lender {
            set: &self.set,
            pass,
            slots: &self.slots,
        }
    }
}

/// The end of a pool by which buffers are taken. Each thread has its own lender, made by `split`, which may
/// be sent to it.
pub struct Lender<'a, X, K: Keeps<X> = Anything> {
    set: &'a UniqueIndexSet,
    pass: Pass,
    slots: &'a Slots<X, K>,
    ghost of: { IsPassOf set.now pass },
}

impl<'a, X, K: Keeps<X>> Drop for Lender<'a, X, K> {
    fn drop(self) {
        let Self {
            set: _,
            pass: _pass,
            slots: _,
        } = self;
    }
}

/// A place of a pool that is taken, and the value that lay in its slot. It may be sent to another thread. If
/// it is dropped, its value is dropped too, and its place is free and empty.
///
/// If a buffer is forgotten (`std::mem::forget`), its place is never handed out again.
pub struct Buffer<'a, X, K: Keeps<X> = Anything> {
    index: UniqueIndex<'a>,
    slots: &'a Slots<X, K>,
    /// Says that the slot was left empty as the place was taken.
    came: Emptied,
    /// The number that the value lay there with; 0 where nothing lay there.
    pub number: u64,
    /// The value that lay there, which keeps its rule. None where nothing lay there: as the pool is new, and after a buffer that was
    /// dropped or given back empty. That it is the value that was laid there last is only tested.
    pub value: Option<X>,
}

impl<'a, X: Drop, K: Keeps<X>> Drop for Buffer<'a, X, K> {
    fn drop(self) {
        let Self {
            index: _index,
            slots: _,
            came: _came,
            number: _,
            value: _value,
        } = self;
    }
}

// X need not be `Drop` from here on, so no value can be dropped: what lies in a slot is handed out, and what is given back is
// laid down or comes back.
impl<'a, X, K: Keeps<X>> Lender<'a, X, K> {
    ghost use Rattle.zero_copy_loans.specs.Pools.{place_in, places_lent, slots_lent, IsRefusedBuffer, IsTakenOut, KeepsShare};

    /// Another lender of the same pool. None where no further pass can be counted.
    pub fn split(&mut self) -> Option<Lender<'a, X, K>>
        ensures new { IfSome result (λ l. places_lent l ≡ places_lent self.old) }
        ensures same { places_lent self.new ≡ places_lent self.old }
    {
        let pass = self.pass.split()?;
        Some(Lender {
            set: self.set,
            pass,
            slots: self.slots,
        })
    }

    /// Takes a free place and the value in its slot, if one lies there. The value keeps the rule with
    /// its number; that it is the one laid there last is only tested. Refused where each place is
    /// taken (`NoPlace`), where no further pass can be counted (`NoPass`), and where somebody reads or
    /// writes the slot of the place (`InUse`), which only tests rule out. After a refusal the lender's
    /// pass has its share again.
    ///
    /// The steps of `acquire` of the set and of a split of a pass, and on the slot a load, at most one compare-exchange and one
    /// further step. Where it is refused for want of a place, also those of a join of passes.
    pub fn acquire(&mut self, rt: &impl Wait) -> Result<Buffer<'a, X, K>, PoolFailure>
        ensures within { IfOk result (λ b. place_in b < places_lent self.old) }
        ensures fits { IfOk result (λ b. IfSome b.value (K.holds b.number)) }
        ensures out { IfOk result IsTakenOut }
        ensures refused { IfErr result (IsRefusedBuffer self.old) }
        ensures kept { IfErr result (λ _. KeepsShare self.old self.new) }
        ensures same { (places_lent self.new ≡ places_lent self.old) × (slots_lent self.new ≡ slots_lent self.old) }
    {
        let Some(pass) = self.pass.split() else {
            return Err(PoolFailure::NoPass);
        };
        let index = match self.set.acquire(rt, pass) {
            Ok(index) => index,
            Err((failure, pass)) => {
                self.pass.join(pass);
                return Err(PoolFailure::NoPlace(failure));
            }
        };
        match taken_out(self.slots, &index) {
            Ok((came, number, value)) => Ok(Buffer {
                index,
                slots: self.slots,
                came,
                number,
                value,
            }),
            Err(failure) => {
                self.pass.join(index.release());
                Err(PoolFailure::InUse(failure))
            }
        }
    }
}

impl<'a, X, K: Keeps<X>> Lender<'a, X, K> {
    ghost use Rattle.zero_copy_loans.specs.Pools.{place_in, places_lent, slots_lent, HasPlaces, IsRefusedBuffer, IsTakenOut};

    /// Takes a place as soon as one is free. Between two tries another thread may run. It is refused where
    /// `acquire` is, but never for want of a free place: where no place is given back it waits for good.
    ///
    /// For each try, the steps of `acquire`.
    pub fn acquire_waiting(&mut self, rt: &impl Wait) -> Result<Buffer<'a, X, K>, PoolFailure>
        ensures within { IfOk result (λ b. place_in b < places_lent self.old) }
        ensures fits { IfOk result (λ b. IfSome b.value (K.holds b.number)) }
        ensures out { IfOk result IsTakenOut }
        ensures refused { IfErr result (IsRefusedBuffer self.old) }
        ensures places { IfErr result HasPlaces }
        ensures same { (places_lent self.new ≡ places_lent self.old) × (slots_lent self.new ≡ slots_lent self.old) }
    {
        for _ in rt.forever() {
            match self.acquire(rt) {
                Ok(buffer) => return Ok(buffer),
                Err(PoolFailure::NoPlace(failure)) => match failure {
                    UniqueIndexSetAcquireFailure::OutOfIndices => thread::yield_now(),
                    UniqueIndexSetAcquireFailure::IsLocked => return Err(PoolFailure::NoPlace(
                        failure,
                    )),
                },
                Err(PoolFailure::NoPass) => return Err(PoolFailure::NoPass),
                Err(PoolFailure::InUse(failure)) => return Err(PoolFailure::InUse(failure)),
            }
        }
        unreachable!()
    }

    /// Takes a place by at most `tries` tries (by no clause), and by one try at least. Between two tries
    /// another thread may run. A try that finds each place taken is followed by another, except the last,
    /// whose refusal is returned. Any other refusal of `acquire` is returned at once.
    ///
    /// For each try, the steps of `acquire`.
    pub fn acquire_within(
        &mut self,
        rt: &impl Wait,
        tries: u64,
    ) -> Result<Buffer<'a, X, K>, PoolFailure>
        ensures within { IfOk result (λ b. place_in b < places_lent self.old) }
        ensures fits { IfOk result (λ b. IfSome b.value (K.holds b.number)) }
        ensures out { IfOk result IsTakenOut }
        ensures refused { IfErr result (IsRefusedBuffer self.old) }
        ensures same { (places_lent self.new ≡ places_lent self.old) × (slots_lent self.new ≡ slots_lent self.old) }
    {
        // The last try is made behind the loop.
        for _ in 0..tries.saturating_sub(1) {
            match self.acquire(rt) {
                Ok(buffer) => return Ok(buffer),
                Err(PoolFailure::NoPlace(failure)) => match failure {
                    UniqueIndexSetAcquireFailure::OutOfIndices => thread::yield_now(),
                    UniqueIndexSetAcquireFailure::IsLocked => return Err(PoolFailure::NoPlace(
                        failure,
                    )),
                },
                Err(PoolFailure::NoPass) => return Err(PoolFailure::NoPass),
                Err(PoolFailure::InUse(failure)) => return Err(PoolFailure::InUse(failure)),
            }
        }
        self.acquire(rt)
    }
}

/// Takes the value with its number out of the slot of an index, which is left empty.
fn taken_out<X, K: Keeps<X>>(
    slots: &Slots<X, K>,
    index: &UniqueIndex<'_>,
) -> Result<(Emptied, u64, Option<X>), TakeFailure>
    ensures fits { IfOk result (λ r. IfSome r.2 (K.holds r.1)) }
    ensures slot { IfOk result (λ r. emptied_slot r.0 ≡ value_of index.now) }
    ensures out { IfOk result
        (λ r. MatchOption r.2 ((emptied_number r.0 ≡ None) × (r.1 ≡ 0)) (λ _. emptied_number r.0 ≡ Some r.1)) }
    ensures refused { IfErr result (IsUntaken slots.now (value_of index.now)) }
{
    let writing = match slots.take(index.value()) {
        Ok(writing) => writing,
        Err(failure) => return Err(failure),
    };
    let (came, before) = writing.clear();
    match before {
        Some((number, value)) => Ok((came, number, Some(value))),
        None => Ok((came, 0, None)),
    }
}

/// Lays a value into the slot of an index that is still in hand. The value comes back where somebody reads or
/// writes the slot.
fn laid<X: Drop, K: Keeps<X>>(
    slots: &Slots<X, K>,
    index: &UniqueIndex<'_>,
    number: u64,
    value: X,
) -> Result<Laid, (X, TakeFailure)>
    requires { K.holds number value }
    ensures laid { IfOk result (λ l. (laid_slot l ≡ value_of index.now) × (laid_number l ≡ number)) }
    ensures refused { IfErr result (λ r. (r.0 ≡ value) × IsUntaken slots.now (value_of index.now) r.1) }
{
    match slots.take(index.value()) {
        Ok(writing) => {
            let (laid, _before) = writing.put(number, value);
            Ok(laid)
        }
        Err(failure) => Err((value, failure)),
    }
}

impl<'a, X, K: Keeps<X>> Buffer<'a, X, K> {
    ghost use Rattle.zero_copy_loans.specs.Pools.{place_in};

    /// The number of the place. No atomic step.
    pub fn place(&self) -> u32
        ensures { result ≡ place_in self.now }
    {
        self.index.value()
    }
}

impl<'a, X: Drop, K: Keeps<X>> Buffer<'a, X, K> {
    ghost use Rattle.zero_copy_loans.specs.Pools.{place_in, IsGivenBack, IsNotLaid};

    /// Lays the value back, which keeps its rule with the number that stands beside it, and frees the place.
    /// The answer says what was laid there, if there was a value. The value comes back where somebody reads
    /// or writes its slot, which only tests rule out. That the place is free in both cases is only tested.
    ///
    /// On the slot a load, at most one compare-exchange and one further step, and then those of `release` of an index.
    pub fn give_back(self) -> Result<Option<Laid>, (X, TakeFailure)>
        requires fits { IfSome self.value (K.holds self.number) }
        ensures given { IfOk result (IsGivenBack self.entry) }
        ensures refused { IfErr result (IsNotLaid self.entry) }
    {
        let Self {
            index,
            slots,
            came: _,
            number,
            value,
        } = self;
        let answer = match value {
            Some(value) => match laid(slots, &index, number, value) {
                Ok(laid) => Ok(Some(laid)),
                Err(back) => Err(back),
            },
            None => Ok(None),
        };
        index.release();
        answer
    }
}
