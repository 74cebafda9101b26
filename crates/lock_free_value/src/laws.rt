//! What one history of a value says: laws of every history that a pass has seen. These functions do nothing: the contract
//! of each is a law, whose proof is a lemma that a client's proof can cite.
ghost use Rattle.std.specs.Prelude.{◌≡◌, ◌<◌, ◌≤◌, ◌+◌, ◌++◌, ℕ, List, length};
ghost use Rattle.laws_value.specs.Stored.{stored};
ghost use Rattle.model.specs.declared.event.Event.{Event};
ghost use Rattle.model.specs.declared.turn.Kind.TheVariants as kinds;
ghost use Rattle.model.specs.Coding.{Coding};
ghost use Rattle.model.specs.Linearizable.{IsLinearizable};
ghost use Rattle.model.specs.Linearized.{as_value};
ghost use Rattle.model.specs.Progress.{KeepsGuarantees};
ghost use Rattle.model.specs.StronglyLinearizable.{AreStronglyLinearizable, Ordered};
ghost use Rattle.history.specs.declared.view.View.{View};
ghost use Rattle.history.specs.History.{IsBeginning, IsHistory};
ghost use Rattle.threaded.specs.Shares.{IsAll};
ghost use Rattle.history_value.specs.Value.{IsLast};
ghost use Rattle.lock_free_value.specs.Calls.{MissesNothing};
ghost use Rattle.lock_free_value.specs.ValueContracts.{HasStored, HasLoaded, HasSeenVersion};
ghost use Rattle.lock_free_value.specs.Versions.{IsStored, IsLoaded, IsSound};

/// A history of a value is linearizable as one value.
pub fn histories_are_linearizable<T>()
    ensures { (code : Coding T) (events : List (Event T)) → IsHistory code kinds.Atomic 1 events
        → IsLinearizable (as_value code) events }
{}

/// The histories of a value are strongly linearizable. One function of events gives the order of the stores and loads, and as a
/// history goes on calls are only added at the end of its order (`strong`). So two looks of one pass agree on the past: what it
/// had seen at the first begins what it has seen at the second, and so do the orders (`agree`).
pub fn histories_are_strongly_linearizable<T>()
    ensures strong { (code : Coding T) → AreStronglyLinearizable (IsHistory code kinds.Atomic 1) (as_value code) }
    ensures agree { (code : Coding T) (all : AreStronglyLinearizable (IsHistory code kinds.Atomic 1) (as_value code)) (old new : View T)
        → IsBeginning old.seen new.seen
        → (added : List (Ordered T)) × (all.order new.seen ≡ all.order old.seen ++ added) }
{}

/// Each answer in a history of a value is right, and who stores holds the role.
pub fn histories_are_sound<T>()
    ensures { (code : Coding T) (events : List (Event T)) → IsHistory code kinds.Atomic 1 events
        → IsSound code events }
{}

/// Each call is wait-free, or obstruction-free, as docs/FIELD.md says. In the machine that has the history no call has
/// taken more steps than that, whatever the number of turns. The clause `steps` of each call says the same of what the
/// thread's pass has counted.
pub fn calls_keep_guarantees<T>()
    ensures { (code : Coding T) (events : List (Event T))
        → (h : IsHistory code kinds.Atomic 1 events) → KeepsGuarantees h.trace }
{}

/// No version is stored twice: two stores at one version are the same store.
pub fn versions_are_once<T>()
    ensures { (p q v : ℕ) (x y : T) (events : List (Event T))
        → IsStored p v x events → IsStored q v y events → (p ≡ q) × (x ≡ y) }
{}

/// Two calls at equal versions, a store and a load or two loads, have equal values.
pub fn values_agree<T>()
    ensures stored { (code : Coding T) (p q v : ℕ) (x y : T) (events : List (Event T))
        → IsHistory code kinds.Atomic 1 events
        → IsStored p v x events → IsLoaded q v y events → x ≡ y }
    ensures loaded { (code : Coding T) (p q v : ℕ) (x y : T) (events : List (Event T))
        → IsHistory code kinds.Atomic 1 events
        → IsLoaded p v x events → IsLoaded q v y events → x ≡ y }
{}

/// What was stored or loaded at a version stays stored or loaded at it as the history goes on.
pub fn versions_stay<T>()
    ensures stored { (p v : ℕ) (x : T) (old new : List (Event T)) → IsBeginning old new
        → IsStored p v x old → IsStored p v x new }
    ensures loaded { (p v : ℕ) (x : T) (old new : List (Event T)) → IsBeginning old new
        → IsLoaded p v x old → IsLoaded p v x new }
{}

/// A store is at a version above all that its guard knew. A load is at one that is not below any that its pass knew.
pub fn versions_rise<T>()
    ensures stored { (x : T) (old new : View T) → (h : HasStored x old new)
        → IsStored h.by (length (stored old.seen) + 2) x new.seen
        × ((q v : ℕ) (y : T) → IsStored q v y old.seen → v < length (stored old.seen) + 2)
        × ((q v : ℕ) (y : T) → IsLoaded q v y old.seen → v < length (stored old.seen) + 2) }
    ensures loaded { (x : T) (old new : View T) → (h : HasLoaded x old new)
        → IsLoaded h.by (length (stored h.before) + 1) x new.seen
        × ((q v : ℕ) (y : T) → IsStored q v y old.seen → v ≤ length (stored h.before) + 1)
        × ((q v : ℕ) (y : T) → IsLoaded q v y old.seen → v ≤ length (stored h.before) + 1) }
{}

/// Where two calls of `version` answer the same, nothing was stored between their ends.
pub fn equal_versions_tell<T>()
    ensures { (v : ℕ) (a b c d : View T) → HasSeenVersion v a b → HasSeenVersion v c d → IsBeginning b.seen d.seen
        → stored d.seen ≡ stored b.seen }
{}

/// Who has the whole share loads the last value that it knows.
pub fn whole_loads_newest<T>()
    ensures { (x : T) (old new : View T) → HasLoaded x old new → IsAll old.share → IsAll new.share
        → MissesNothing old → MissesNothing new → IsLast x (stored old.seen) }
{}
