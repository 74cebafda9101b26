//! That the values of a container stand whole, where its history keeps to conditions on its events alone, and two ways
//! to show such a condition. A caller that has joined all passes knows the whole history, and can count its events.
//! These functions do nothing: the contract of each is a law, whose proof is a lemma that a client's proof can cite.
ghost use Rattle.std.specs.Prelude.{◌≡◌, ℕ, List};
ghost use Rattle.model.specs.declared.event.Event.{Event};
ghost use Rattle.model.specs.declared.turn.Kind.TheVariants as kinds;
ghost use Rattle.model.specs.Coding.{Coding};
ghost use Rattle.history.specs.History.{IsHistory};
ghost use Rattle.history_laws.specs.Containers.{IsOrderly, IsContained, IsFaithful, IsWellFormed, recoveries, removals};

/// Each add and replace that succeeded has placed its value, what is copied stands there, whole, and no index is
/// granted that somebody holds: where nobody acts for an owner in recovery, nor gives back or replaces what is not
/// his, no two calls that may lock overlap, and so little was done that no number can have come round. The lemma is
/// `contained_history` of `proofs/ContainerLaws.antt`.
pub fn copies_are_whole<T>()
    ensures { (code : Coding T) (capacity : ℕ) (events : List (Event T))
        → IsHistory code kinds.Container capacity events → IsOrderly events → IsContained events }
{}

/// Where no recovery began and no owner died, nobody acts for an owner who is gone. The lemma is
/// `none_recovers` of `proofs/ContainerLaws.antt`.
pub fn histories_without_recoveries_are_faithful<T>()
    ensures { (events : List (Event T)) → recoveries events ≡ 0 → IsFaithful events }
{}

/// Where no index was freed and no replace was begun, nobody gives back or replaces what is not his. The lemma is
/// `none_frees` of `proofs/ContainerLaws.antt`.
pub fn histories_without_removals_are_well_formed<T>()
    ensures { (events : List (Event T)) → removals events ≡ 0 → IsWellFormed events }
{}
