//! What one history of a bit set or of a counting bit set says in the field's words: the laws of every history that
//! threads have seen, and of every run of a machine. These functions do nothing: the contract of each is a law, whose
//! proof is a lemma that a client's proof can cite.
ghost use Rattle.std.specs.Prelude.{ℕ, List};
ghost use Rattle.model.specs.declared.event.Event.{Event};
ghost use Rattle.model.specs.declared.turn.Kind.{Kind};
ghost use Rattle.model.specs.Coding.{Coding};
ghost use Rattle.model.specs.Turns.{IsReached, IsReachedOn};
ghost use Rattle.model.specs.World.{Trace};
ghost use Rattle.history.specs.History.{IsHistory};
ghost use Rattle.history_bits.specs.Acts.{ActsByPlace, IsSet};

/// In a history of a bit set or of a counting bit set the calls act place by place: a set, and a reset of the next
/// place that answers one, at one moment; a reset of all, and one that answers none, once at each place (but for a
/// count that was raised 2^64 times in all). In the order of these acts each call answers what the bit set, or the
/// counting bit set, answers when calls come one by one. The lemma is `histories_act` of `proofs/Acts/Laws.antt`.
pub fn histories_act<T>()
    ensures { (code : Coding T) (kind : Kind) (capacity : ℕ) (events : List (Event T)) → IsSet kind
        → IsHistory code kind capacity events → ActsByPlace kind capacity events }
{}

/// In every run of a machine of a bit set or a counting bit set, without a bound on turns or parties, the calls act
/// place by place as in `histories_act`. The lemma is `runs_act` of `proofs/Acts/Laws.antt`.
pub fn runs_act<T>()
    ensures { (t : Trace T) → IsReachedOn t → IsSet t.world.kind → ActsByPlace t.world.kind t.world.capacity t.events }
{}

/// On every machine of a bit set or a counting bit set, whatever turns it was given (refused ones change nothing), the
/// calls act place by place as in `histories_act`. The lemma is `machines_act` of `proofs/Acts/Machines.antt`.
pub fn machines_act<T>()
    ensures { (t : Trace T) → IsReached t → IsSet t.world.kind → ActsByPlace t.world.kind t.world.capacity t.events }
{}
