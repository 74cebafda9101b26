//! Laws of a pass that has the whole share: it makes each call alone.
ghost use Rattle.std.specs.Prelude.{◌≡◌, ℕ, List, []};
ghost use Rattle.model.specs.declared.event.Answer.{Answer};
ghost use Rattle.model.specs.declared.event.Event.{Event};
ghost use Rattle.model.specs.declared.event.Start.{Start};
ghost use Rattle.model.specs.declared.turn.Kind.{Kind};
ghost use Rattle.model.specs.Coding.{Coding};
ghost use Rattle.threaded.specs.Shares.{IsAll};
ghost use Rattle.history.specs.declared.view.View.{View};
ghost use Rattle.history.specs.History.{Called, Knows};
ghost use Rattle.history.specs.Passes.{MissesNothing, HasJoined};
ghost use Rattle.history.specs.Steps.{TakesAlone, TakesAtMost};
ghost use Rattle.lock_free_sets.specs.Whole.{IsDone, AllInside, HasWhole, CallsWhole};

/// Who has the whole share, and whose calls have ended, makes each call alone. Nobody else changes a
/// word during it. So it takes at most the number of steps that its clause `steps` gives for a call
/// alone. The premise `Knows` comes from clause `run` of `history`, after the call. The lemma is
/// `takes_most` of `proofs/Whole/Alone.antt`.
pub fn whole_calls_are_alone<T>()
    ensures { (code : Coding T) (kind : Kind) (capacity alone retry : ℕ) (old new : View T)
        → CallsWhole old new → Knows code kind capacity new → TakesAlone alone retry old new → TakesAtMost alone old new }
{}

/// Who has the whole keeps it over calls. A first pass has it, and so has a join that leaves no share out.
/// The lemmas are `first_whole`, `still_whole` and `joined_whole` of `proofs/Whole/Alone.antt`.
pub fn wholes_stay<T>()
    ensures first { (v : View T) → IsAll v.share → v.seen ≡ [] → v.made ≡ [] → HasWhole v }
    ensures call { (p : ℕ) (start : Start T) (answer : Answer T) (wrote : List (Event T)) (old new : View T)
        → Called p start answer wrote old new → HasWhole old → AllInside wrote
        → new.share ≡ old.share → MissesNothing new → HasWhole new }
    ensures joined { (mine theirs new : View T) → HasJoined mine theirs new → IsDone mine.made → IsDone theirs.made
        → IsAll new.share → MissesNothing new → HasWhole new }
{}
