//! Laws of every history of a robust unique index set, and of a container, that a pass has seen. The functions do
//! nothing: the contract of each is the law, whose proof is a lemma that a client's proof can cite.
ghost use Rattle.std.specs.Prelude.{◌≡◌, ℕ, ◌<◌, ◌-◌, ◌^◌, List, [], ◌∷◌, ◌++◌};
ghost use Rattle.model.specs.declared.event.Answer.{Answer};
ghost use Rattle.model.specs.declared.event.Event.{Event};
ghost use Rattle.model.specs.declared.event.Event.TheVariants.{Finished};
ghost use Rattle.model.specs.declared.event.Start.{Start};
ghost use Rattle.model.specs.declared.turn.Kind.TheVariants as kinds;
ghost use Rattle.model.specs.Coding.{Coding, one_word};
ghost use Rattle.model.specs.Families.Container.Promises.{IsWellFormedRun, IsContained};
ghost use Rattle.model.specs.Reading.{Each};
ghost use Rattle.laws_container.specs.Open.{IsFaithfulRun};
ghost use Rattle.laws_machine.specs.Changes.{changes_of, MeetsChanges};
ghost use Rattle.history.specs.declared.view.View.{View};
ghost use Rattle.history.specs.History.{IsHistory, Knows};
ghost use Rattle.lock_free_owners.specs.Robust.Contracts.{IsSound};
ghost use Rattle.lock_free_owners.specs.Container.Contracts as containers;
ghost use Rattle.lock_free_owners.specs.Container.Ends.{RanTo};

/// Each event of a robust set does to the set what it may, and each answer is right. A recovery asks about an
/// index only with the owner that it has then. Where nobody acts for an owner who is gone nor gives back what
/// is not his, no index is granted that somebody holds.
pub fn histories_are_sound()
    ensures { (capacity : ℕ) (events : List (Event ℕ)) → IsHistory one_word kinds.Robust capacity events
        → IsSound capacity events }
{}

/// Each event of a container does to its set of indices what it may, and each answer is right. A recovery asks about
/// what its owner had, and frees what it was told to or was shown. Where nobody acts for an owner who is gone nor gives
/// back what is not his, no index is granted that somebody holds.
pub fn container_histories_are_sound<T>()
    ensures { (code : Coding T) (capacity : ℕ) (events : List (Event T))
        → IsHistory code kinds.Container capacity events → containers.IsSound code capacity events }
{}

/// Each add and replace that succeeded has placed its value, and each copy is of a value that stood there.
/// The copies are whole. This holds of a run where
///
/// - a remove that frees, and a replace, is begun as it may be,
/// - nobody takes a step for an owner who is gone, and
/// - so few turns are taken that no number of an element has come round.
pub fn container_histories_are_contained<T>()
    ensures { (code : Coding T) (capacity : ℕ) (events : List (Event T))
        → (h : IsHistory code kinds.Container capacity events)
        → IsWellFormedRun h.trace → IsFaithfulRun h.trace h.run.reached → IsContained h.trace }
{}

/// An update of a pass's state answers whether a change was counted since the look before. It is true where one was
/// counted since that look began, and false where none was since it ended, in a history of fewer than 2^64 - 1 changes.
pub fn container_updates_meet_changes<T>()
    ensures { (code : Coding T) (capacity : ℕ) (events : List (Event T))
        → IsHistory code kinds.Container capacity events → changes_of events < 2 ^ 64 - 1
        → Each MeetsChanges events }
{}

/// Up to the end of a call, what a pass of a container has seen is a history too. It is that of the first of the turns that
/// the pass knows. So the view with which a call began is that of a run, also where the end of a find that rested came first.
pub fn container_calls_end_histories<T>()
    ensures { (code : Coding T) (capacity : ℕ) (v : View T) → Knows code kinds.Container capacity v
        → (p : ℕ) (start : Start T) (answer : Answer T) (before rest : List (Event T))
        → v.seen ≡ (before ++ Finished p start answer ∷ []) ++ rest
        → RanTo code capacity v before (Finished p start answer) }
{}
