//! The laws of every history that threads have seen. These functions do nothing: the contract of each is a law, whose
//! proof is a lemma that a client's proof can cite.
ghost use Rattle.std.specs.Prelude.{◌≡◌, ℕ, Some, None, List};
ghost use Rattle.atomic_table.specs.Table.{State};
ghost use Rattle.model.specs.declared.event.Answer.{Answer};
ghost use Rattle.model.specs.declared.event.Event.{Event};
ghost use Rattle.model.specs.declared.event.Start.{Start};
ghost use Rattle.model.specs.declared.turn.Kind.{Kind};
ghost use Rattle.model.specs.Coding.{Coding, IsCoding};
ghost use Rattle.model.specs.Linearizable.{Precedes};
ghost use Rattle.model.specs.World.{capacity_error};
ghost use Rattle.history.specs.declared.view.View.{View};
ghost use Rattle.history.specs.History.{IsBeginning, IsMachine, Called, Knows, Continues};
ghost use Rattle.history.specs.OneRun.{SeatsKnowOneRun};
ghost use Rattle.history.specs.Passes.{HasSplit, HasJoined};
ghost use Rattle.history.specs.Views.{first_view};
ghost use Rattle.history.specs.Order.{StandsIn, EndsNone};
ghost use Rattle.history.specs.Steps.{TakesAlone, TakesInRun};

/// A call that a pass made stands, with its answer, in every history that goes on from what the pass has seen then. The
/// lemma is `stands_in` of `proofs/Acts/Order.antt`.
pub fn calls_stand<T>()
    ensures { (p : ℕ) (start : Start T) (answer : Answer T) (wrote : List (Event T)) (old new : View T)
        → Called p start answer wrote old new → EndsNone p wrote
        → (history : List (Event T)) → IsBeginning new.seen history → StandsIn p start answer old new history }
{}

/// Of two calls that passes made, the first ended before the second began, if what the second's pass had seen before
/// its call goes on from what the first's pass had seen after its own. This holds where one pass made both, or the
/// second's pass had taken in the first's. The lemma is `in_order` of `proofs/Acts/Order.antt`.
pub fn calls_are_in_order<T>()
    ensures { (p q : ℕ) (s t : Start T) (a b : Answer T) (old new later last : View T) (history : List (Event T))
        → (x : StandsIn p s a old new history) → (y : StandsIn q t b later last history)
        → IsBeginning new.seen later.seen → Precedes x.call y.call }
{}

/// One run of the model is the whole life of a table. From call to call the run that a pass knew goes on to the one
/// that it knows: turns, none refused, lead from the one to the other (`calls`). Over splits and joins too: a pass that
/// is split off knows the run of the pass that was split (`splits`), and the runs that two passes knew are beginnings
/// of the one that the joined pass knows (`joins`). The first pass of a table that opens empty knows the run in which
/// nothing has happened (`first`). A value, or a queue at a later position, opens with a run that led there, which its
/// first pass knows. Of any two seats of a table, at any moment, the run that the one knows goes on to the run that the
/// other knows (`tables`). The lemmas are in `proofs/OneRun.antt`.
pub fn runs_go_on<T>()
    ensures calls { (code : Coding T) (kind : Kind) (capacity : ℕ) (a b c : View T) → Continues code kind capacity a b
        → Continues code kind capacity b c → Continues code kind capacity a c }
    ensures splits { (code : Coding T) (kind : Kind) (capacity : ℕ) (old left right : View T) → HasSplit old left right
        → Knows code kind capacity old → Continues code kind capacity old left × Continues code kind capacity old right }
    ensures joins { (code : Coding T) (kind : Kind) (capacity : ℕ) (mine theirs new : View T) → HasJoined mine theirs new
        → Knows code kind capacity new → Continues code kind capacity mine new × Continues code kind capacity theirs new }
    ensures first { (code : Coding T) (kind : Kind) (capacity : ℕ) → IsCoding code → capacity_error kind capacity ≡ None
        → Knows code kind capacity (first_view capacity) }
    ensures tables { (code : Coding T) (kind : Kind) (capacity : ℕ) (s : State (Unit {0}) (View T))
        → IsMachine code kind capacity s → SeatsKnowOneRun s }
{}

/// A bound on the operations of a call, said of the run that the pass knows after it. `TakesAlone` bounds
/// them by a number that the pass keeps: of the changes of words that others made while the call was under
/// way. In the run that the pass knows, its party's latest call is this one, and the run counts as many
/// changes by others while it was under way. So the bound is the one that the model promises of that call.
/// The lemma is `takes_in_run` of `proofs/Latest.antt`.
pub fn steps_are_bounded<T>()
    ensures { (code : Coding T) (kind : Kind) (capacity alone retry p : ℕ) (start : Start T) (answer : Answer T) (wrote : List (Event T))
        (old new : View T) → Called p start answer wrote old new → new.party ≡ Some p → Knows code kind capacity new
        → TakesAlone alone retry old new → TakesInRun code kind capacity alone retry p old new }
{}
