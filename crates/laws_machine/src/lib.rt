//! What the promises of a machine leave open, as laws of every machine that turns have reached: which questions its calls
//! put, what a turn leaves as it was, when a recovery locks, and what a container counts. These functions do nothing: the
//! contract of each is a law, whose proof is a lemma that a client's proof can cite.
#![tactic(auto)]

ghost use Rattle.std.specs.Prelude.{◌≡◌, None, Some};
ghost use Rattle.model.specs.declared.turn.Kind.TheVariants.{Robust, Container, Loan};
ghost use Rattle.model.specs.declared.turn.Turn.{Turn};
ghost use Rattle.model.specs.Reading.{Each};
ghost use Rattle.model.specs.Refusals.{refusal_of};
ghost use Rattle.model.specs.Turns.{world_after, after_turn, IsReached};
ghost use Rattle.model.specs.World.{World, Trace};
ghost use Rattle.laws_machine.specs.Changes.{CountsChanges, MeetsChanges};
ghost use Rattle.laws_machine.specs.Others.{OthersStay, KeepsQueue, queue_in};
ghost use Rattle.laws_machine.specs.Questions.{WaitsForAnswers, IsAnswered, AsksAtOnce, FindsAsking};
ghost use Rattle.laws_machine.specs.Recoveries.{LocksRight};

/// The calls of the other parties stay, in any machine. The lemma is `others_stay` of `proofs/Others.antt`.
pub fn others_stay<T>()
    ensures { (w : World T) (turn : Turn T) → OthersStay w turn (world_after w turn) }
{}

/// A turn leaves the submission queue of a loan channel as long as it was. The lemma is `keeps_queue` of
/// `proofs/Queue.antt`.
pub fn keeps_queue<T>()
    ensures { (w : World T) (turn : Turn T) → KeepsQueue w (world_after w turn) }
{}

/// In every reached machine the submission queue of a loan channel is as long as the machine was opened with. The lemma is
/// `queue_is` of `proofs/Queue.antt`.
pub fn queue_is<T>()
    ensures { (t : Trace T) → t.world.kind ≡ Loan → (r : IsReached t) → queue_in t.world.kept ≡ Some r.queue }
{}

/// What a recovery of the robust set writes that it asks, it asks. The lemma is `asks_at_once` of `proofs/Asking.antt`.
pub fn asks_at_once<T>()
    ensures { (t : Trace T) (turn : Turn T) → t.world.kind ≡ Robust → IsReached t → AsksAtOnce t (after_turn t turn) }
{}

/// A find of the robust set that loads a cell asks about its index just where that is filled with the find's owner. The
/// lemma is `finds_asking` of `proofs/Finding.antt`.
pub fn finds_asking<T>()
    ensures { (t : Trace T) (turn : Turn T) → t.world.kind ≡ Robust → IsReached t → refusal_of t.world turn ≡ None
        → FindsAsking t turn (after_turn t turn) }
{}

/// A call of a container waits for a decision just where it asks about a value. The lemma is `waits` of
/// `proofs/Waiting.antt`.
pub fn waits<T>()
    ensures { (t : Trace T) → t.world.kind ≡ Container → IsReached t → WaitsForAnswers t }
{}

/// A call of the robust set, or of a container, puts no question again once it has an answer. The lemmas are `answered` of
/// `proofs/Answering.antt` and of `proofs/Waiting.antt`.
pub fn answered<T>()
    ensures robust { (t : Trace T) (turn : Turn T) → t.world.kind ≡ Robust → IsReached t
        → refusal_of t.world turn ≡ None → IsAnswered turn (after_turn t turn) }
    ensures container { (t : Trace T) (turn : Turn T) → t.world.kind ≡ Container → IsReached t
        → refusal_of t.world turn ≡ None → IsAnswered turn (after_turn t turn) }
{}

/// A recovery of the robust set in mode `LockIfLastIndex` that answers `Unlocked` has met an index that was filled after
/// each that it freed: where the last that it frees leaves none, it locks. The lemma is `locks` of `proofs/Locking.antt`.
pub fn locks<T>()
    ensures { (t : Trace T) → t.world.kind ≡ Robust → IsReached t → Each LocksRight t.events }
{}

/// The number of changes of a container counts the adds, removes and replaces that succeeded, and the recoveries, once
/// each. The lemma is `counts_changes` of `proofs/Counting.antt`.
pub fn counts_changes<T>()
    ensures { (t : Trace T) → t.world.kind ≡ Container → IsReached t → CountsChanges t }
{}

/// An update of a state that answers true has met a change since the look began that last brought that state up to date;
/// where one answers false, there was none since that look ended. The lemma is `meets_changes` of `proofs/UpdateAnswers.antt`.
pub fn meets_changes<T>()
    ensures { (t : Trace T) → t.world.kind ≡ Container → IsReached t → Each MeetsChanges t.events }
{}
