//! Who holds an index knows that nobody else does. Who holds all indices of a set, and has joined all other threads, knows
//! that nobody else holds one, and who has seen the lock knows that nobody does.

ghost use Rattle.std.specs.Prelude.{◌≡◌, ◌<◌, ◌≤◌, ◌+◌, ◌++◌, ℕ, true, false, Ok, Some, None, List, [], length, sum_by, IsTrue};
ghost use Rattle.history.specs.Held.{claims};
ghost use Rattle.lock_free.specs.Event.{Event};
ghost use Rattle.lock_free.specs.Event.TheVariants.{Claimed};
ghost use Rattle.lock_free.specs.IndexReading.{holder_of, is_locked};
ghost use Rattle.lock_free.specs.Shares.{both_of, IsAll};
ghost use Rattle.lock_free.specs.Unique.Held.{HeldBy, HoldsNothing, IsSound};
ghost use Rattle.lock_free.specs.UniqueIndexSet.{capacity_of, history, IsPassOf, made, share, view};
ghost use Rattle.uses_laws.specs.Events.{Whenever};

use lock_free::laws::indices::{
    holders_are_sole, index_histories_are_sound, indices_are_conserved, locks_are_final,
};
use lock_free::mpmc::unique_index_set::{Pass, UniqueIndexSet};
use lock_free::mpmc::unique_index_set_enums::UniqueIndexSetAcquireFailure;
use std::sync::Wait;

/// Takes the last other pass in. What the two held is together at most the capacity, and where this one held all indices,
/// the other held none.
pub fn take_in(set: &UniqueIndexSet, mine: &mut Pass, other: Pass)
    requires mine { IsPassOf set.now mine.old }
    requires other { IsPassOf set.now other }
    requires whole { IsAll (both_of (share mine.old) (share other)) }
    requires sound { IsSound (view other) }
    ensures few { (is js : List ℕ) → HeldBy is (made mine.old) → HeldBy js (made other)
        → length is + length js ≤ capacity_of set.now }
    ensures sole { (is : List ℕ) → HeldBy is (made mine.old) → length is ≡ capacity_of set.now
        → HoldsNothing (made other) }
{
    indices_are_conserved::<u64>();
    mine.join(other);
    mine.history();
}

/// Takes an index with a pass that has seen nothing before. The pass is its only holder then, beside whatever others have
/// done meanwhile. Whoever claimed an index, as far as it has seen, claimed one that nobody held, while the set was not locked.
pub fn take_first(
    rt: &impl Wait,
    set: &UniqueIndexSet,
    pass: &mut Pass,
) -> Result<u32, UniqueIndexSetAcquireFailure>
    requires pass { IsPassOf set.now pass.old }
    requires fresh { history pass.old ≡ [] }
    ensures sole { (index : ℕ) → result ≡ Ok index
        → (by : ℕ) × ((view pass.new).party ≡ Some by) × (holder_of index (history pass.new) ≡ Some by) }
    ensures claimed { (by index : ℕ) → Whenever (history pass.new) (Claimed by index)
        (λ before. (index < capacity_of set.now) × (holder_of index before ≡ None) × (is_locked before ≡ false)) }
{
    holders_are_sole::<u64>();
    index_histories_are_sound::<u64>();
    let taken = set.acquire_raw_index(rt, pass);
    pass.history();
    taken
}

/// Whether the set is locked. If it is, nobody holds an index, whoever has taken it. After a moment at which it was locked
/// nobody has claimed one.
pub fn is_closed(set: &UniqueIndexSet, pass: &mut Pass) -> bool
    requires { IsPassOf set.now pass.old }
    ensures held { IsTrue result → (index : ℕ) → holder_of index (history pass.new) ≡ None }
    ensures claimed { (before after : List (Event ℕ)) → history pass.new ≡ before ++ after → is_locked before ≡ true
        → (index : ℕ) → sum_by (claims index) after ≡ 0 }
{
    locks_are_final::<u64>();
    let locked = set.is_locked(pass);
    pass.history();
    locked
}
