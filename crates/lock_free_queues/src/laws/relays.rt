//! The law of a queue over which one thread sends and another one receives. For the loops of clients,
//! `proofs/Queues/Relays.antt` has each law of `pushes_are_sent` and `pops_are_received` in the shape of the
//! contracts of the guards' calls, so that a search in a client's proof finds what it needs.
ghost use Rattle.std.specs.Prelude.{◌≡◌, ℕ, Bool, true, Option, IfSome, IfNone, List, is_some, not};
ghost use Rattle.steps.specs.declared.queues.roles.Role.{Role};
ghost use Rattle.model.specs.declared.event.Item.{Item};
ghost use Rattle.model.specs.declared.families.queues.QueueKind.{QueueKind};
ghost use Rattle.model.specs.Coding.{Coding};
ghost use Rattle.history.specs.declared.view.View.{View};
ghost use Rattle.history.specs.History.{IsHistory};
ghost use Rattle.history.specs.Passes.{Goes, MissesNothing};
ghost use Rattle.history.specs.Views.{first_view};
ghost use Rattle.lock_free_queues.specs.Queues.Bounded.{IsBounded, machine_kind};
ghost use Rattle.lock_free_queues.specs.Queues.Relays.{IsRelayed};
ghost use Rattle.lock_free_queues.specs.Queues.Sent.{HasSent, HasReceived, TellsApart};
ghost use Rattle.lock_free_queues.specs.Queues.Contracts.{HasAcquired, HasSplit, HasJoined, PopDone, PopEmpty};

/// What one half of a first pass received is a beginning of what the other half sent. It holds once both are
/// joined and one further pop was made. All of it was received just where that pop found nothing, and at most
/// the capacity is left. The lemma is `views_relayed` of `proofs/Queues/Relays.antt`.
pub fn halves_relay<T, V>()
    ensures { (named : V → Item T) (code : Coding T) (queue : QueueKind) (n most : ℕ) (role : Role)
        (first left right mine theirs joined taking last : View T) (sent received : List V) (answer : Option V) (emptied : Bool)
        → TellsApart named → IsBounded queue → first ≡ first_view n → HasSplit first left right
        → HasSent named sent left mine → HasReceived named received right theirs → HasJoined mine theirs joined
        → MissesNothing joined → IsHistory code (machine_kind queue) n joined.seen
        → Goes joined taking → HasAcquired role true joined taking
        → Goes taking last → IsHistory code (machine_kind queue) most last.seen → IfSome answer (λ x. PopDone (named x) taking last)
        → IfNone answer (PopEmpty taking last) → is_some answer ≡ not emptied
        → IsRelayed n sent received emptied }
{}
