//! What one history of a unique index set says: laws of every history that a pass has seen.
ghost use Rattle.std.specs.Prelude.{◌≡◌, ◌≤◌, ◌+◌, ◌++◌, ℕ, true, Some, None, is_some, List, sum_by};
ghost use Rattle.model.specs.declared.event.Event.{Event};
ghost use Rattle.model.specs.declared.turn.Kind.TheVariants as kinds;
ghost use Rattle.model.specs.Coding.{Coding};
ghost use Rattle.model.specs.Families.Indices.Reading.{holder_of, is_locked, tally_of};
ghost use Rattle.model.specs.Turns.{one_if};
ghost use Rattle.history.specs.Held.{claims, frees, Holds};
ghost use Rattle.history.specs.History.{IsHistory};
ghost use Rattle.history.specs.Known.{events_by};
ghost use Rattle.history_laws.specs.Indices.{held_below, IsSound};

/// No index is claimed that somebody holds, and none once the set is locked; its holder alone frees it. An acquire that
/// answers an index has claimed it in that call. An acquire finds `OutOfIndices` only where at its last step, without
/// it, as many indices are in use as there are: held, being taken, or on their way back.
pub fn index_histories_are_sound<T>()
    ensures { (code : Coding T) (capacity : ℕ) (events : List (Event T))
        → IsHistory code kinds.Indices capacity events → IsSound capacity events }
{}

/// Of the indices that count as in use, those that count as held are those that somebody holds.
pub fn holders_are_counted<T>()
    ensures { (code : Coding T) (capacity : ℕ) (events before after : List (Event T))
        → IsHistory code kinds.Indices capacity events → events ≡ before ++ after
        → (tally_of before).held ≡ held_below capacity before }
{}

/// Once the set is locked, nobody holds an index, and none is claimed.
pub fn locks_are_final<T>()
    ensures held { (code : Coding T) (capacity : ℕ) (events before after : List (Event T))
        → IsHistory code kinds.Indices capacity events → events ≡ before ++ after → is_locked before ≡ true
        → (index : ℕ) → holder_of index before ≡ None }
    ensures claimed { (code : Coding T) (capacity : ℕ) (events before after : List (Event T))
        → IsHistory code kinds.Indices capacity events → events ≡ before ++ after → is_locked before ≡ true
        → (index : ℕ) → sum_by (claims index) after ≡ 0 }
{}

/// Each index was claimed as often as it was freed, and once more where somebody holds it. No index at or behind the
/// capacity was claimed.
pub fn indices_are_conserved<T>()
    ensures conserved { (code : Coding T) (capacity : ℕ) (events : List (Event T))
        → IsHistory code kinds.Indices capacity events → (index : ℕ)
        → sum_by (claims index) events ≡ sum_by (frees index) events + one_if (is_some (holder_of index events)) }
    ensures within { (code : Coding T) (capacity : ℕ) (events : List (Event T))
        → IsHistory code kinds.Indices capacity events → (index : ℕ) → capacity ≤ index
        → sum_by (claims index) events ≡ 0 }
{}

/// A party that has claimed an index once more than it freed it is its only holder.
pub fn holders_are_sole<T>()
    ensures { (code : Coding T) (capacity : ℕ) (events : List (Event T))
        → IsHistory code kinds.Indices capacity events → (p index : ℕ) → Holds index (events_by p events)
        → holder_of index events ≡ Some p }
{}
