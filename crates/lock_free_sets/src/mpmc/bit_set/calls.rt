//! The calls on the places of a bit set. `reset_next` looks from the reset position to the greatest place,
//! and then from 0 on. The position is 0 at first, and a call that resets a place stores the one after it, as
//! its last step: if two calls overlap, the later store stands, whichever place it is of. A call that returns
//! None leaves the position.
ghost use Rattle.std.specs.Prelude.{◌≡◌, ◌+◌, ◌<◌, ◌^◌, ℕ, IfSome, IfNone, IsTrue, IsFalse};
ghost use Rattle.steps.specs.Bits.Words.{elements, has_flag as flag_of};
ghost use Rattle.model.specs.declared.turn.Kind.TheVariants as kinds;
ghost use Rattle.threaded.specs.Seats.{seen, IsSame, IsAt};
ghost use Rattle.history.specs.declared.view.View.{View as Views};
ghost use Rattle.lock_free_sets.specs.Driven.{IsIdle, HasDone};
ghost use Rattle.lock_free_sets.specs.Sets.Calls.{capacity_of, IsPassOf, view, SamePass};
ghost use Rattle.lock_free_sets.specs.Bits.Callable.{TakesPlaces, Visited};
ghost use Rattle.lock_free_sets.specs.Bits.Contracts.{HasCleanedOut, SetDone, ResetDone, ResetNothing, ResetAllDone};
ghost use Rattle.lock_free_sets.specs.Bits.Looks.{IsSetDone};
ghost use Rattle.history.specs.Steps.{TakesAtMost, TakesAlone};

use super::drives::{LooksAt, SetsPlace};
use super::resets::reset_all;
use super::{BitSet, Pass};
use crate::mpmc::sets::calls::empty_none;
use crate::mpmc::sets::drives::Empties;
use crate::mpmc::sets::rule::{Flags, SetRule};
use history::view::View;
use std::sync::Wait;
use steps::ask::After;
use steps::bits::bit_set::{ResetNext, Set};
use steps::bits::flags::{has_flag, without_flag};
use steps::bits::looks::IsSet;
use steps::bits::reset_all::ResetAll;
use steps::copied::OneWord;
use steps::routine::Routine;
use threaded::driver::seated::Seated;

/// Calls the closure with the place if its flag was set (`stood`).
#[inline(always)]
fn call_where<F: FnMut(usize)>(visit: &mut F, stood: bool, place: u64)
    requires { IsTrue stood → F.pre visit.old place }
    ensures called { IsTrue stood → F.step visit.old place tt visit.new }
    ensures passed { IsFalse stood → visit.new ≡ visit.old }
{
    if stood {
        visit(place as usize);
    }
}

/// Calls the closure with each place whose flag is set in the word `found`, ascending. The places are the 64
/// from `first` on.
#[inline(always)]
fn visit_word<F: FnMut(usize)>(visit: &mut F, found: u64, first: u64)
    requires small { first + 64 < 2 ^ 64 }
    requires visits { (n : ℕ) (now : F) → n < 64 → IsTrue (flag_of found (first + n))
        → Visited (λ p x q. F.step p x tt q) found first visit.old n now → F.pre now (first + n) }
    ensures { Visited (λ p x q. F.step p x tt q) found first visit.old 64 visit.new }
{
    let mut left = found;
    for bit in 0..64u64 {
        // behind the last flag that is set nothing is left to do
        if left == 0 {
            return;
        }
        let place = first + bit;
        call_where(visit, has_flag(found, place), place);
        left = without_flag(left, place);
    }
}

/// Clears all flags, and calls the closure with each place whose flag was set, after the
/// step that cleared it.
fn clear_all<F: FnMut(usize)>(
    seated: &mut Seated<View<u64>, u32, SetRule<Flags>>,
    capacity: u32,
    visit: &mut F,
)
    requires table { IsAt (λ (key : ℕ). 1 + elements key + 1) (λ (key : ℕ). key) (λ (v : Views ℕ). v.capacity) seated.old }
    requires idle { IsIdle capacity (seen seated.old) }
    requires places { 0 < capacity }
    requires visits { TakesPlaces F.pre (λ p x q. F.step p x tt q) capacity visit.old }
    ensures same { IsSame seated.old seated.new }
    ensures done { HasDone kinds.Bits (seen seated.old) (seen seated.new) }
    ensures cleared { HasCleanedOut (λ p x q. F.step p x tt q) capacity visit.old visit.new
        (seen seated.old) (seen seated.new) }
    ensures steps { TakesAtMost (elements capacity) (seen seated.old) (seen seated.new) }
{
    let mut room = OneWord(0);
    let mut call = ResetAll::bits(capacity);
    loop {
        let after = seated.step::<ResetAll, Empties<Flags>>(call, &(), &mut room);
        visit_word(visit, room.0, (call.word as u64 - 1) * 64);
        match after {
            After::GoOn(next) => call = next,
            After::Done(()) => return,
        }
    }
}

impl BitSet {
    /// Sets the place `id`, which is below the capacity, and returns whether this call set it. False only where it
    /// stood at a moment of the call. At most 2 steps, and 1 more for each change of a word of the set by others during
    /// the call. After `set` of the Rust crate.
    pub fn set(&self, rt: &impl Wait, id: usize, pass: &mut Pass) -> bool
        requires pass { IsPassOf self.now pass.old }
        requires place { id < capacity_of self.now }
        ensures same { SamePass pass.old pass.new }
        ensures added { SetDone id result (view pass.old) (view pass.new) }
        ensures steps { TakesAlone 2 1 (view pass.old) (view pass.new) }
    {
        let place = id as u64;
        let end = pass
            .seated
            .drive_on::<Set, SetsPlace>(rt, Set::new(), &place, &mut ());
        Set::answer(end, &place, &())
    }

    /// Returns whether the place `id`, which is below the capacity, stands as the call ends. It changes nothing. At most
    /// one step. This project's own.
    pub fn is_set(&self, id: usize, pass: &mut Pass) -> bool
        requires pass { IsPassOf self.now pass.old }
        requires place { id < capacity_of self.now }
        ensures same { SamePass pass.old pass.new }
        ensures answer { IsSetDone id result (view pass.old) (view pass.new) }
        ensures steps { TakesAtMost 1 (view pass.old) (view pass.new) }
    {
        let place = id as u64;
        let end = pass.seated.drive::<IsSet, LooksAt>(IsSet, &place, &mut ());
        IsSet::answer(end, &place, &())
    }

    /// Resets the next place that stands and returns it, or None if each was clear at some moment. It looks from the
    /// reset position on, and each place that it passed on the way was clear at a moment of the call. At most 3 +
    /// capacity steps, and 1 more for each change of a word of the set by others during the call. After `reset_next` of
    /// the Rust crate.
    pub fn reset_next(&self, rt: &impl Wait, pass: &mut Pass) -> Option<usize>
        requires { IsPassOf self.now pass.old }
        ensures same { SamePass pass.old pass.new }
        ensures cleared { IfSome result (λ place. ResetDone (capacity_of self.now) place (view pass.old) (view pass.new)) }
        ensures clear { IfNone result (ResetNothing (capacity_of self.now) (view pass.old) (view pass.new)) }
        ensures steps { TakesAlone (3 + capacity_of self.now) 1 (view pass.old) (view pass.new) }
    {
        let call = ResetNext::new(pass.capacity);
        let end = reset_all(&mut pass.seated, rt, call);
        match ResetNext::answer(end, &(), &()) {
            Some(place) => Some(place as usize),
            None => None,
        }
    }

    /// Resets all places, and calls `visit` with each one that it cleared. They ascend, each at most once. Each that
    /// stood as the call began was cleared before its end.
    ///
    /// At most one step for each 64 places, before their visits, and one look in a set of no place. What `visit` sets
    /// at a place of a later step is visited too. The position of `reset_next` stays. After `reset_all` of the Rust
    /// crate, where each word has 8 places.
    pub fn reset_all<F: FnMut(usize)>(&self, visit: &mut F, pass: &mut Pass)
        requires pass { IsPassOf self.now pass.old }
        requires places { TakesPlaces F.pre (λ p x q. F.step p x tt q)
            (capacity_of self.now) visit.old }
        ensures same { SamePass pass.old pass.new }
        ensures cleared { ResetAllDone (λ p x q. F.step p x tt q) (capacity_of self.now) visit.old visit.new
            (view pass.old) (view pass.new) }
        ensures steps { 0 < capacity_of self.now
            → TakesAtMost (elements (capacity_of self.now)) (view pass.old) (view pass.new) }
        ensures one_step { capacity_of self.now ≡ 0 → TakesAtMost 1 (view pass.old) (view pass.new) }
    {
        let capacity = pass.capacity;
        if capacity == 0 {
            empty_none(&mut pass.seated, capacity);
        } else {
            clear_all(&mut pass.seated, capacity, visit);
        }
    }
}
