//! What follows from lock-freedom for a call: a finite load ends, and a call ends whose party goes on. The functions do
//! nothing: the contract of each is a law.

ghost use Rattle.std.specs.Prelude.{IfSome};
ghost use Rattle.model.specs.declared.turn.Kind.{Kind};
ghost use Rattle.model.specs.declared.turn.Kind.TheVariants.{Robust, Container, Loan};
ghost use Rattle.model.specs.Fair.{EndsInRounds, EndsInRoundsOf, EndsInRoundsRuns, EndsIfFair};
ghost use Rattle.model.specs.Loads.{EndsLoad, EndsLoadOf, EndsLoadRuns};
ghost use Rattle.model.specs.LockFree.{IsDefault};
ghost use Rattle.model.specs.LockFree.{lock_free_bound, default_bound, default_container_bound};
ghost use Rattle.laws_loan.specs.LockFree.{channel_bound};
ghost use Rattle.headline.specs.Nexts.{EndsByTurns};

/// A finite load ends. Whatever some parties do from any state that turns reach, all their steps together are at most the
/// bound for that many parties, and one, for each call that was under way or begins: on average a call costs at most the bound and one. Of a
/// robust index set and a container the small bounds hold in runs in which no call may lock, and of a loan channel in
/// the runs of machines.
pub fn finite_loads<T>()
    ensures load_ends { (kind : Kind) → IfSome (lock_free_bound kind) (EndsLoad T kind) }
    ensures load_ends_by_default { EndsLoadOf T Robust IsDefault default_bound }
    ensures load_ends_container { EndsLoadOf T Container IsDefault default_container_bound }
    ensures load_ends_channel { EndsLoadRuns T Loan channel_bound }
{}

/// A call ends whose party goes on. In more rounds than the load of all, a party that takes a step in each has no call under
/// way as one of them begins (`in_rounds`). A party with a call under way, that goes on in more turns than the load of the
/// calls that were under way and of those that others begin, ends it (`by_turns`, of machines as they run). On an endless
/// schedule on which finitely many calls begin, each party to which the schedule is fair comes to a moment at which it has
/// no call under way (`if_fair`).
///
/// The first holds of all kinds, of a robust set and a container in runs in which no call may lock. The second holds of the
/// seven kinds and of the loan channel (of a robust set and a container `owners_end_by_turns` says it), the third of the seven
/// kinds. Only the party itself has to be scheduled. A call that waits for a decision takes no step, so a
/// schedule that is fair to it contains the decision.
pub fn calls_end<T>()
    ensures in_rounds { (kind : Kind) → IfSome (lock_free_bound kind) (EndsInRounds T kind) }
    ensures in_rounds_by_default { EndsInRoundsOf T Robust IsDefault default_bound }
    ensures in_rounds_container { EndsInRoundsOf T Container IsDefault default_container_bound }
    ensures in_rounds_channel { EndsInRoundsRuns T Loan channel_bound }
    ensures by_turns { (kind : Kind) → IfSome (lock_free_bound kind) (EndsByTurns T kind) }
    ensures by_turns_channel { EndsByTurns T Loan channel_bound }
    ensures if_fair { (kind : Kind) → IfSome (lock_free_bound kind) (EndsIfFair T kind) }
{}
