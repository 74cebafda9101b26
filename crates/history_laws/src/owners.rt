//! For how many changes the counter of a robust unique index set, or of a container, is surely not at its end. Once it
//! may be at its end, an acquire that got no index, an add that found no place and a lock that was not made may have no
//! other reason. These functions do nothing: the contract of each is a law, whose proof is a lemma that a client's
//! proof can cite.
ghost use Rattle.std.specs.Prelude.{◌≡◌, ◌-◌, ◌*◌, ◌^◌, ◌≤◌, ℕ, List};
ghost use Rattle.model.specs.declared.event.Event.{Event};
ghost use Rattle.model.specs.Coding.{Coding};
ghost use Rattle.lock_free_owners.specs.Robust.Contracts.{IsWorn};
ghost use Rattle.lock_free_owners.specs.Container.Contracts as containers;
ghost use Rattle.lock_free_owners.specs.Worn.{changes, lock_calls, LocksApart};

/// Where no two calls that may lock overlap, the counter is at its end only after a third of 2^64 - 2 changes: indices
/// filled or freed, and counts begun. Two that overlap could each make the other count again, and raise the counter,
/// any number of times. The lemma is `worn_set` of `lock_free_owners/proofs/Worn/Laws.antt`.
pub fn worn_sets_have_changed()
    ensures { (capacity : ℕ) (events : List (Event ℕ)) → IsWorn capacity events → LocksApart events
        → 2 ^ 64 - 2 ≤ 3 * changes events }
{}

/// Where no two calls that may lock a container overlap, its counter is at its end only after a third of 2^64 - 2
/// changes. The lemma is `worn_container` of `lock_free_owners/proofs/Worn/Laws.antt`.
pub fn worn_containers_have_changed<T>()
    ensures { (code : Coding T) (capacity : ℕ) (events : List (Event T)) → containers.IsWorn code capacity events → LocksApart events
        → 2 ^ 64 - 2 ≤ 3 * changes events }
{}

/// Where no call that may lock was begun, no two of them overlap. The lemma is
/// `none_overlap` of `lock_free_owners/proofs/Worn/Laws.antt`.
pub fn calls_that_lock_are_apart<T>()
    ensures { (events : List (Event T)) → lock_calls events ≡ 0 → LocksApart events }
{}
