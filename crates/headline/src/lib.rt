//! What every machine does, kind by kind and turn by turn, and lock-freedom. The functions do nothing: the contract of each is
//! a law, and what its words mean stands in `specs`.
//!
//! The main theorem, in one statement, is that of the crate `headline_whole`.
#![tactic(auto)]

ghost use Rattle.std.specs.Prelude.{◌≡◌, ℕ, List, None, IfSome};
ghost use Rattle.model.specs.declared.turn.Kind.{Kind};
ghost use Rattle.model.specs.declared.turn.Turn.{Turn};
ghost use Rattle.model.specs.Coding.{Coding, IsCoding};
ghost use Rattle.model.specs.declared.turn.Kind.TheVariants.{Robust, Container, Loan};
ghost use Rattle.model.specs.LockFree.{IsLockFree, IsLockFreeOf, HasLockFreeRuns, IsDefault};
ghost use Rattle.model.specs.LockFree.{lock_free_bound, default_bound, default_container_bound};
ghost use Rattle.model.specs.Promises.{IsKept, IsTurn};
ghost use Rattle.model.specs.Refusals.{refusal_of};
ghost use Rattle.model.specs.Turns.{IsReached, after_turn, run};
ghost use Rattle.model.specs.World.{Trace, opened, capacity_error, queue_error, trace_in};
ghost use Rattle.laws_loan.specs.LockFree.{channel_bound};
ghost use Rattle.headline.specs.Headline.{Holds, Takes};
ghost use Rattle.headline.specs.Strong.{StrongRuns};
ghost use Rattle.model.specs.Coding.{coding_by};

pub mod going;
pub mod loads;

use machine::Machine;
use steps::words::Words;

/// `Holds` is true of a machine of every kind, at every admitted capacity, after every list of turns, of which those that are
/// refused change nothing. `Takes` is true of each further turn that is not refused.
///
/// The runs of queues and of the single value are strongly linearizable (`strong`): one function of events orders the calls of
/// each run, and as a run goes on it only adds calls at the end of their order.
///
/// The kinds that have a bound in `lock_free_bound` are lock-free: whatever turns some parties take, of which none is refused,
/// from any state that turns reach without a bound on turns and parties, in more steps than the bound says for that many
/// parties one of their calls ends. A robust index set and a container are lock-free in runs in which no call may lock. In all
/// runs each turn back of a call is paid by a change that another party made (`Holds`). A loan channel is lock-free in the
/// runs of machines, which have a bound on turns and parties.
///
/// A step is an operation on a word. A turn without one is no step, and no bound counts it: it begins a call, hands it
/// a decision, lets an owner die, or ends the call (`ends` of `Takes`).
pub fn headline<T>()
    ensures runs { (code : Coding T) (kind : Kind) (capacity queue parties : ℕ) (turns : List (Turn T))
        → IsCoding code → capacity_error kind capacity ≡ None → queue_error kind queue ≡ None
        → Holds queue (run turns (opened code kind capacity queue parties)) }
    ensures reached { (t : Trace T) → (r : IsReached t) → Holds r.queue t }
    ensures turn { (t : Trace T) (turn : Turn T) → IsReached t → refusal_of t.world turn ≡ None
        → Takes t turn (after_turn t turn) }
    ensures strong { StrongRuns T }
    ensures lock_free { (kind : Kind) → IfSome (lock_free_bound kind) (IsLockFree T kind) }
    ensures lock_free_by_default { IsLockFreeOf T Robust IsDefault default_bound }
    ensures lock_free_container { IsLockFreeOf T Container IsDefault default_container_bound }
    ensures lock_free_channel { HasLockFreeRuns T Loan channel_bound }
{}

/// All that the family of a machine's kind promises of every run, and of each further turn that is not refused. What it promises
/// stands in `model`.
pub fn promises<T>()
    ensures run { (t : Trace T) → IsReached t → IsKept t }
    ensures turn { (t : Trace T) (turn : Turn T) → IsReached t → refusal_of t.world turn ≡ None
        → IsTurn t turn (after_turn t turn) }
{}

/// Of a machine that a caller has `Holds` is true, for some capacity of a submission queue.
pub fn of_machine<T: Words>(machine: &Machine<T>)
    ensures { (queue : ℕ) × Holds queue (trace_in (coding_by T.Words) machine.now) }
{
    machine.reached();
}
