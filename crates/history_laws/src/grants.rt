//! That one index is held by one caller alone, where each call that frees it may. The conditions speak of
//! that index alone: they allow any use of other indices, an owner's number that is used again, and
//! recoveries that do not free the index. These functions do nothing: the contract of each is a law, whose
//! proof is a lemma that a client's proof can cite.
ghost use Rattle.std.specs.Prelude.{◌≡◌, ℕ, List};
ghost use Rattle.model.specs.declared.event.Event.{Event};
ghost use Rattle.model.specs.declared.turn.Kind.TheVariants as kinds;
ghost use Rattle.model.specs.Coding.{Coding, one_word};
ghost use Rattle.history.specs.History.{IsHistory};
ghost use Rattle.history_laws.specs.Grants.{IsFreedRight, IsHeldByOne, times_freed};

/// An index of a robust unique index set is granted only while nobody holds it, if each release that freed it
/// was begun when it might be given back for its owner, and each recovery freed it while no call was at it.
/// The lemma is `set_grants` of `proofs/GrantsLaws.antt`.
pub fn set_indices_are_held_by_one()
    ensures { (index capacity : ℕ) (events : List (Event ℕ)) → IsHistory one_word kinds.Robust capacity events
        → IsFreedRight index events → IsHeldByOne index events }
{}

/// An index of a container is granted only while nobody holds it, if each remove that freed it was begun when
/// it might be given back for its owner, and each recovery freed it while no call was at it. The lemma is
/// `container_grants` of `proofs/GrantsLaws.antt`.
pub fn container_indices_are_held_by_one<T>()
    ensures { (index : ℕ) (code : Coding T) (capacity : ℕ) (events : List (Event T))
        → IsHistory code kinds.Container capacity events → IsFreedRight index events → IsHeldByOne index events }
{}

/// In a history in which nobody freed the index, the condition on those who free it holds. The lemma is `never_freed`
/// of `proofs/GrantsLaws.antt`.
pub fn indices_never_freed_are_freed_right<T>()
    ensures { (index : ℕ) (events : List (Event T)) → times_freed index events ≡ 0 → IsFreedRight index events }
{}
