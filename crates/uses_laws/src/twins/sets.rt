//! Calls of the unique index set and of both bit sets once more, each with a clause that no other client has
//! a use for (as `twins.rt` says).
ghost use Rattle.std.specs.Prelude.{◌≡◌, ◌<◌, ◌≤◌, false, IfSome, IsFalse, IsTrue};
ghost use Rattle.model.specs.declared.event.Answer.TheVariants.{Number, State};
ghost use Rattle.model.specs.declared.families.indices.IndexStart.TheVariants as starts;
ghost use Rattle.lock_free.specs.Bits.Calls as bits;
ghost use Rattle.lock_free.specs.Bits.Callable.{TakesPlaces};
ghost use Rattle.lock_free.specs.Bits.Contracts.{CameFromPosition, MissedNoPlace};
ghost use Rattle.lock_free.specs.Bits.Looks.{IsSetDone};
ghost use Rattle.lock_free.specs.Counts.Looks.{CountDone};
ghost use Rattle.lock_free.specs.HistoryHeld.{Holds};
ghost use Rattle.lock_free.specs.HistorySteps.{TakesAlone, TakesAtMost};
ghost use Rattle.lock_free.specs.IndexReading.{is_locked as has_lock};
ghost use Rattle.lock_free.specs.ReleaseMode.TheVariants as modes;
ghost use Rattle.lock_free.specs.ReleaseState.TheVariants.{Locked, Unlocked};
ghost use Rattle.lock_free.specs.Unique.Calls.{BorrowedDone, IsLockedDone, ReleaseOrLockDone};
ghost use Rattle.lock_free.specs.Unique.Contracts.{Answered, HasGivenOrLocked, HasLooked};
ghost use Rattle.lock_free.specs.Unique.Handles.{knows, pass_in, set_in, SameHandle};
ghost use Rattle.lock_free.specs.Unique.Held.{HoldsNothing, HoldsSome};
ghost use Rattle.lock_free.specs.UniqueIndexSet.{capacity_of, history, index_pass, index_view, made, value_of, view, IsPassOf, SamePass};

use lock_free::mpmc::bit_set::BitSet;
use lock_free::mpmc::counting_bit_set::CountingBitSet;
use lock_free::mpmc::unique_index_set::{Handle, Pass, UniqueIndex, UniqueIndexSet};
use lock_free::mpmc::{bit_set, counting_bit_set};
use std::sync::Wait;
use steps::indices::enums::ReleaseState;

/// What a release in the mode that locks answers is right. If it locks, the pass holds no index then. If it
/// does not and the pass has the whole share, the pass still holds one.
pub fn release_or_lock(
    rt: &impl Wait,
    set: &UniqueIndexSet,
    index: u32,
    pass: &mut Pass,
) -> ReleaseState
    requires pass { IsPassOf set.now pass.old }
    requires held { Holds index (made pass.old) }
    ensures given { HasGivenOrLocked index result (view pass.old) (view pass.new) }
    ensures answered { Answered (starts.Release index modes.LockIfLastIndex) (State result) (view pass.old) (view pass.new) }
    ensures nothing { result ≡ Locked → HoldsNothing (made pass.new) }
    ensures whole { result ≡ Unlocked → HoldsSome (view pass.new) }
{
    set.release_or_lock(rt, index, pass)
}

/// A count of the indices is right, and at most the capacity.
pub fn borrowed_indices(set: &UniqueIndexSet, pass: &mut Pass) -> usize
    requires { IsPassOf set.now pass.old }
    ensures answered { Answered starts.BorrowedIndices (Number result) (view pass.old) (view pass.new) }
    ensures most { result ≤ capacity_of set.now }
{
    set.borrowed_indices(pass)
}

/// A pass that finds the lock holds no index. One that does not find it had not seen it before.
pub fn is_locked(set: &UniqueIndexSet, pass: &mut Pass) -> bool
    requires { IsPassOf set.now pass.old }
    ensures looked { HasLooked result (view pass.old) (view pass.new) }
    ensures nothing { IsTrue result → HoldsNothing (made pass.new) }
    ensures unlocked { IsFalse result → has_lock (history pass.old) ≡ false }
{
    set.is_locked(pass)
}

/// A count by a handle tells what the count of its set tells, in one step.
pub fn borrowed_by_handle(handle: &mut Handle<'_>) -> usize
    ensures same { SameHandle handle.old handle.new }
    ensures counted { BorrowedDone (capacity_of (set_in handle.old)) result (knows handle.old) (knows handle.new) }
    ensures steps { TakesAtMost 1 (knows handle.old) (knows handle.new) }
{
    handle.borrowed_indices()
}

/// A look at the lock by a handle tells what the look by a pass tells.
pub fn is_locked_by_handle(handle: &mut Handle<'_>) -> bool
    ensures same { SameHandle handle.old handle.new }
    ensures looked { IsLockedDone result (knows handle.old) (knows handle.new) }
    ensures steps { TakesAtMost 1 (knows handle.old) (knows handle.new) }
{
    handle.is_locked()
}

/// An index is given back in the mode that locks, and a handle comes back.
pub fn give_back_or_lock<'a>(rt: &impl Wait, index: UniqueIndex<'a>) -> (ReleaseState, Handle<'a>)
    ensures same { SamePass (index_pass index.entry) (pass_in result.1) }
    ensures given { ReleaseOrLockDone (value_of index.entry) result.0 (index_view index.entry) (knows result.1) }
    ensures steps { TakesAlone 4 2 (index_view index.entry) (knows result.1) }
{
    index.give_back_or_lock(rt)
}

/// A reset of the next place comes to it from the reset position.
pub fn reset_next(rt: &impl Wait, set: &BitSet, pass: &mut bit_set::Pass) -> Option<usize>
    requires { bits.IsPassOf set.now pass.old }
    ensures came { IfSome result (λ place. CameFromPosition (bits.capacity_of set.now) place (bits.view pass.new)) }
{
    match set.reset_next(rt, pass) {
        Some(place) => Some(place),
        None => None,
    }
}

/// A reset of all places misses none.
pub fn reset_all<F: FnMut(usize)>(set: &BitSet, visit: &mut F, pass: &mut bit_set::Pass)
    requires pass { bits.IsPassOf set.now pass.old }
    requires places { TakesPlaces F.pre (λ p x q. F.step p x tt q) (bits.capacity_of set.now) visit.old }
    ensures stood { MissedNoPlace (bits.capacity_of set.now) (bits.view pass.new) }
{
    set.reset_all(visit, pass)
}

/// A look at a flag answers whether it is set as the look ends, in one step.
pub fn is_set(set: &BitSet, id: usize, pass: &mut bit_set::Pass) -> bool
    requires pass { bits.IsPassOf set.now pass.old }
    requires place { id < bits.capacity_of set.now }
    ensures answer { IsSetDone id result (bits.view pass.old) (bits.view pass.new) }
    ensures steps { TakesAtMost 1 (bits.view pass.old) (bits.view pass.new) }
{
    set.is_set(id, pass)
}

/// A look at a count answers it as the look ends, in one step.
pub fn count(set: &CountingBitSet, id: usize, pass: &mut counting_bit_set::Pass) -> u64
    requires pass { bits.IsPassOf set.now pass.old }
    requires place { id < bits.capacity_of set.now }
    ensures answer { CountDone id result (bits.view pass.old) (bits.view pass.new) }
    ensures steps { TakesAtMost 1 (bits.view pass.old) (bits.view pass.new) }
{
    set.count(id, pass)
}
