//! The main theorem about every machine, in one statement. The functions do nothing: the contract of each is a law, and what
//! its words mean stands in `specs`.
//!
//! Read first the page of your structure in `pages/specs`, if it has one (docs/THEOREM.md, section 0), then `main_theorem`, then
//! the record of its kind in `headline`. There stand lock-freedom, and what else every machine does, turn by turn.
#![tactic(auto)]

ghost use Rattle.std.specs.Prelude.{◌≡◌, ℕ, None, IfOk, List};
ghost use Rattle.model.specs.declared.event.Answer.{Answer};
ghost use Rattle.model.specs.declared.event.Event.{Event};
ghost use Rattle.model.specs.declared.event.Event.TheVariants.{Finished};
ghost use Rattle.model.specs.declared.event.Start.{Start};
ghost use Rattle.model.specs.declared.turn.Kind.{Kind};
ghost use Rattle.model.specs.declared.turn.Kind.TheVariants.{Indices, Container};
ghost use Rattle.model.specs.declared.turn.Turn.{Turn};
ghost use Rattle.model.specs.Coding.{Coding, IsCoding};
ghost use Rattle.model.specs.Reading.{Each, span_of};
ghost use Rattle.model.specs.Shape.{IsOpenFor};
ghost use Rattle.model.specs.Turns.{IsReached, run};
ghost use Rattle.model.specs.World.{Trace, opened, capacity_error, queue_error, flight_in};
ghost use Rattle.headline.specs.Headline.{Holds};
ghost use Rattle.headline.specs.Holders.{NoTwoHold, claims};
ghost use Rattle.headline.specs.Moments.{Follows};
ghost use Rattle.headline_whole.specs.Answers.{AreAlone, Says, Wrote};
ghost use Rattle.headline_whole.specs.Dialogues.{AreFinished, calls_of};
ghost use Rattle.headline_whole.specs.Kinds.{AnswersWhole};
ghost use Rattle.headline_whole.specs.States.{HoldsPlaces, ShowsViews};
ghost use Rattle.headline_whole.specs.Whole.{RunsWhole};

use machine::Machine;
use machine::turn::{Kind, Shape, Turn};
use std::alloc::Global;
use steps::enums::UniqueIndexCreationError;
use steps::words::Words;

/// For every admitted capacity and list of turns, whoever stops where:
/// - What every run of its kind keeps, by `holds`: each finished push, pop, load and store acts at one moment inside it, on one
///   list, which is bounded or overflows, or on one value; what was set or counted was taken out, or is still there; by the
///   events no index has two holders, and none of a locked set has one; what a call copies from a container, asks about or shows
///   is a whole element that was placed there; a recovery that answers Unlocked has asked about each index that its owner filled
///   all the while, or (in a container) found it without a value, and has left no owner an index that it was told to free; each
///   retry of a call is paid by another party's change, and each call keeps its bounds on steps.
/// - A call that has finished has written what its answer says, and nothing else. An acquire of a robust set, or an add, that
///   answers IsLocked may have filled an index, and of a `reset_all` and of recoveries nothing is said here (`wrote`).
/// - Where a call ends holds what its answer says, of this moment or of a moment of the call: a set that answers true found its
///   bit clear. Of a loan channel nothing is said here (`says`).
/// - In the unique index set an index has a holder from the answer of an acquire to the begin of a release of it. An acquire
///   answers an index only if it has no holder and no call has answered Locked, and as a call answers so no index has a holder.
///   The same holds of the indices that a robust set or a container has answered for an owner, until a release or remove of it
///   begins or it is freed, if releases and removes keep the rule `IsWellFormed`. In a loan channel, which has no lock, a loan or a
///   receive answers an index only if nobody has it. Who was answered it has it until a send, give-up or give-back of it begins,
///   or a reclaim of another party (`holds_alone`).
/// - If each call begins when no other is under way, the finished calls answer as a list, a set or a map does, call after call.
///   `AnswersWhole` says which object a kind has. Of what a loan channel answers nothing is said.
///
/// `IsReached` says that a list of turns leads there from the opening at an admitted capacity; by `runs` each list does. A
/// refused turn changes nothing.
///
/// A find and a recovery put questions. In a whole run, in which each call begins when no other is under way, the object also
/// says which questions a call puts, and what the call does after the decisions that the turns of the run have made. By
/// `calls` the calls that `calls_of` lists are all that ended in a run, in order, each with its party and its answer. A
/// container's object also has what the state of each party shows: by `states` the state that the machine keeps for a party
/// shows the same, while the party has no look under way. By `places` the flags and counts of a machine are those of its
/// object, while no call is under way: after a `reset_all` none is set. That the closure of a `reset_all` hears all that stood,
/// in ascending order, is proved in the crate `plain`.
pub fn main_theorem<T>()
    ensures runs { (code : Coding T) (kind : Kind) (capacity queue parties : ℕ) (turns : List (Turn T))
        → IsCoding code → capacity_error kind capacity ≡ None → queue_error kind queue ≡ None
        → IsReached (run turns (opened code kind capacity queue parties)) }
    ensures holds { (t : Trace T) → (r : IsReached t) → Holds r.queue t }
    ensures wrote { (t : Trace T) → IsReached t → (p : ℕ) (start : Start T) (answer : Answer T) (before : List (Event T))
        → Follows (Finished p start answer) before t.events
        → IsOpenFor start (Wrote t.world.kind t.world.capacity start answer) (span_of p before) }
    ensures says { (t : Trace T) → IsReached t → Each (Says t.world.kind t.world.coding t.world.capacity) t.events }
    ensures holds_alone { (t : Trace T) → IsReached t → AreAlone t.world.kind t }
    ensures answers { (t : Trace T) → (r : IsReached t) → RunsWhole t.events → AnswersWhole t.world.kind t r }
    ensures places { (t : Trace T) → IsReached t → RunsWhole t.events → ((q : ℕ) → flight_in t.world q ≡ None)
        → HoldsPlaces t.world.kind t }
    ensures calls { (t : Trace T) → (r : IsReached t) → AreFinished (calls_of t r) t.events }
    ensures states { (t : Trace T) → (r : IsReached t) → RunsWhole t.events → t.world.kind ≡ Container
        → ShowsViews t r }
{}

/// Of the machine of a unique index set that a caller has, from that theorem: no index has two holders.
pub fn no_two_hold<T: Words>(machine: &Machine<T>)
    requires { machine.now.kind ≡ Indices }
    ensures { NoTwoHold claims machine.now.events }
{
    main_theorem::<T>();
    machine.reached();
}

/// A caller: it makes the machine of a unique index set, which takes these turns up to the first that is refused.
pub fn run_index_set<T: Words>(
    alloc: Global,
    capacity: u64,
    parties: u32,
    turns: &[Turn<T>],
) -> Result<Machine<T>, UniqueIndexCreationError>
    ensures { IfOk result (λ machine. NoTwoHold claims machine.events) }
{
    let mut machine = Machine::new(alloc, Shape::Of(Kind::Indices, capacity), parties)?;
    machine.run(turns);
    no_two_hold(&machine);
    Ok(machine)
}
