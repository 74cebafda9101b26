//! The calls on the places of a counting bit set: `set`, `count` and `reset_all`.
ghost use Rattle.std.specs.Prelude.{◌≡◌, ◌+◌, ◌-◌, ◌^◌, ◌<◌, ℕ};
ghost use Rattle.model.specs.declared.turn.Kind.TheVariants as kinds;
ghost use Rattle.threaded.specs.Seats.{seen, IsSame, IsAt};
ghost use Rattle.history.specs.declared.view.View.{View as Views};
ghost use Rattle.lock_free_sets.specs.Sets.Calls.{capacity_of, IsPassOf, view, SamePass};
ghost use Rattle.lock_free_sets.specs.Counts.Callable.{TakesCounts};
ghost use Rattle.lock_free_sets.specs.Counts.Contracts.{HasTakenOut, SetDone, ResetAllDone};
ghost use Rattle.lock_free_sets.specs.Counts.Looks.{CountDone};
ghost use Rattle.lock_free_sets.specs.Driven.{IsIdle, HasDone};
ghost use Rattle.history.specs.Steps.{TakesAtMost};

use super::drives::{CountsPlace, LooksAt};
use super::{CountingBitSet, Pass};
use crate::mpmc::sets::calls::empty_none;
use crate::mpmc::sets::drives::Empties;
use crate::mpmc::sets::rule::{Counts, SetRule};
use history::view::View;
use steps::ask::After;
use steps::bits::counting_bit_set::{BitState, MAX_COUNT, Set};
use steps::bits::looks::Count;
use steps::bits::reset_all::ResetAll;
use steps::copied::OneWord;
use steps::routine::Routine;
use threaded::driver::seated::Seated;

/// Calls the closure with a place and its count if the count is above 0.
fn call_where<F: FnMut(BitState)>(visit: &mut F, place: u32, count: u64)
    requires { 0 < count → count < 2 ^ 64 → F.pre visit.old (record { bit = place; count = count }) }
    ensures small { count < 2 ^ 64 }
    ensures called { 0 < count
        → F.step visit.old (record { bit = place; count = count }) tt visit.new }
    ensures passed { count ≡ 0 → visit.new ≡ visit.old }
{
    if count > 0 {
        visit(BitState {
            bit: place as usize,
            count,
        });
    }
}

/// Takes all counts out, and calls the closure with each one above 0, after the step that took it out.
fn take_all<F: FnMut(BitState)>(
    seated: &mut Seated<View<u64>, u32, SetRule<Counts>>,
    capacity: u32,
    visit: &mut F,
)
    requires table { IsAt (λ (key : ℕ). key + 1) (λ (key : ℕ). key) (λ (v : Views ℕ). v.capacity) seated.old }
    requires idle { IsIdle capacity (seen seated.old) }
    requires places { 0 < capacity }
    requires states { TakesCounts F.pre (λ p x q. F.step p x tt q) capacity visit.old }
    ensures same { IsSame seated.old seated.new }
    ensures done { HasDone kinds.Counts (seen seated.old) (seen seated.new) }
    ensures taken { HasTakenOut (λ p x q. F.step p x tt q) capacity visit.old visit.new
        (seen seated.old) (seen seated.new) }
    ensures steps { TakesAtMost capacity (seen seated.old) (seen seated.new) }
{
    let mut room = OneWord(0);
    let mut call = ResetAll::counts(capacity);
    loop {
        let after = seated.step::<ResetAll, Empties<Counts>>(call, &(), &mut room);
        call_where(visit, call.word, room.0);
        match after {
            After::GoOn(next) => call = next,
            After::Done(()) => return,
        }
    }
}

impl CountingBitSet {
    /// Returns the greatest count, u64::MAX. After `max_count` of the Rust crate.
    pub fn max_count() -> u64
        ensures { result ≡ 2 ^ 64 - 1 }
    {
        MAX_COUNT
    }

    /// Adds 1 to the count of the place `id`, modulo 2^64, and returns the count before. The place is below the
    /// capacity. At most one step. After `set` of the Rust crate.
    pub fn set(&self, id: usize, pass: &mut Pass) -> u64
        requires pass { IsPassOf self.now pass.old }
        requires place { id < capacity_of self.now }
        ensures same { SamePass pass.old pass.new }
        ensures counted { SetDone id result (view pass.old) (view pass.new) }
        ensures steps { TakesAtMost 1 (view pass.old) (view pass.new) }
    {
        let place = id as u64;
        let old = pass.seated.drive::<Set, CountsPlace>(Set, &place, &mut ());
        Set::answer(old, &place, &())
    }

    /// Returns the count of the place `id`, which is below the capacity, as the call ends. It changes nothing. At most one
    /// step. This project's own.
    pub fn count(&self, id: usize, pass: &mut Pass) -> u64
        requires pass { IsPassOf self.now pass.old }
        requires place { id < capacity_of self.now }
        ensures same { SamePass pass.old pass.new }
        ensures answer { CountDone id result (view pass.old) (view pass.new) }
        ensures steps { TakesAtMost 1 (view pass.old) (view pass.new) }
    {
        let place = id as u64;
        let end = pass.seated.drive::<Count, LooksAt>(Count, &place, &mut ());
        Count::answer(end, &place, &())
    }

    /// Takes all counts out, and calls `visit` with each place whose count was above 0, and the count. The places
    /// ascend, each at most once. Of each that counted as the call began something was taken out in its span, by it or
    /// by another, unless it was counted 2^64 times in all.
    ///
    /// At most one step for each place, then its visit, and one look in a set of no place. After `reset_all` of the
    /// Rust crate.
    pub fn reset_all<F: FnMut(BitState)>(&self, visit: &mut F, pass: &mut Pass)
        requires pass { IsPassOf self.now pass.old }
        requires states { TakesCounts F.pre (λ p x q. F.step p x tt q)
            (capacity_of self.now) visit.old }
        ensures same { SamePass pass.old pass.new }
        ensures taken { ResetAllDone (λ p x q. F.step p x tt q) (capacity_of self.now) visit.old visit.new
            (view pass.old) (view pass.new) }
        ensures steps { 0 < capacity_of self.now → TakesAtMost (capacity_of self.now) (view pass.old) (view pass.new) }
        ensures one_step { capacity_of self.now ≡ 0 → TakesAtMost 1 (view pass.old) (view pass.new) }
    {
        let capacity = pass.capacity;
        if capacity == 0 {
            empty_none(&mut pass.seated, capacity);
        } else {
            take_all(&mut pass.seated, capacity, visit);
        }
    }
}
