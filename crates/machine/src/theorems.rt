//! What follows from the promises of every run, in the words of the literature. These functions do nothing:
//! the contract of each is a law, and its proof a lemma that a client's proof can cite.
ghost use Rattle.std.specs.Prelude.{ℕ, IfSome, ◌<◌, ◌*◌, ◌-◌, ◌^◌};
ghost use Rattle.model.specs.declared.families.Flight.{Flight};
ghost use Rattle.model.specs.declared.turn.Kind.{Kind};
ghost use Rattle.model.specs.declared.turn.Kind.TheVariants.{IndexQueue, Overflow, Queue, Atomic, Bits, Counts, Robust};
ghost use Rattle.model.specs.declared.turn.Kind.TheVariants.{Container, Loan};
ghost use Rattle.model.specs.Coding.{Coding};
ghost use Rattle.model.specs.LockFree.{Bound, IsLockFree, KeepsEnding, IsLockFreeOf, KeepsEndingOf};
ghost use Rattle.model.specs.LockFree.{HasLockFreeRuns, IsDefault, lock_free_bound, default_bound, default_container_bound};
ghost use Rattle.model.specs.Linearized.{IsLinearizableRun};
ghost use Rattle.model.specs.Progress.{AreGuaranteed, KeepsGuarantees, Looks, ChangesNothing};
ghost use Rattle.model.specs.Promises.{IsKept};
ghost use Rattle.model.specs.World.{Trace};
ghost use Rattle.laws_loan.specs.LockFree.{KeepsEndingRuns, channel_bound};

/// A run that keeps the promises of its kind is linearizable: the pushes and pops of a queue, the stores and loads of the
/// single value. The lemma is `run_linearizable` of `proofs/Linearizable/Kinds.antt` of `model`.
pub fn linearizable<T>()
    ensures { (t : Trace T) → IsKept t → IsLinearizableRun t }
{}

/// Each entry of the table `guarantee_of` follows from the bound of steps that the kind promises for the
/// call: whether the call is wait-free or obstruction-free, with its constants. The lemma is `guaranteed` of
/// `proofs/Progress.antt` of `model`.
pub fn guaranteed<T>()
    ensures { (kind : Kind) → AreGuaranteed T kind }
{}

/// In a run that keeps the promises of its kind each party's latest call keeps the guarantee that the table
/// `guarantee_of` gives its name. The lemma is `keeps_guarantees` of `proofs/Progress.antt` of `model`.
pub fn keeps_guarantees<T>()
    ensures { (t : Trace T) → IsKept t → KeepsGuarantees t }
{}

/// The lengths, peeks and looks at roles of queues, the load, the version and the look at the role of the single value, and
/// the looks at a flag and at a count change no word. The lemma is `looks_change_nothing` of `proofs/Looks.antt` of `model`.
pub fn looks_change_nothing<T>()
    ensures { (code : Coding T) (flight : Flight T) → Looks flight → ChangesNothing code flight }
{}

/// Index queues, overflowing queues, queues, the single value, bit sets, counting bit sets and unique index
/// sets are lock-free, each with the bound that the table `lock_free_bound` says. Wherever turns have led,
/// and whatever turns some parties take from there while the others have stopped anywhere, in more steps than
/// the bound for that many parties one of their calls ends, and calls go on ending as often as the steps have that bound. The third
/// clause says what the first one says of the machines as they run, where n is the number of parties. A turn
/// that is refused is in no such list, a call that waits for a decision takes no step, and nothing says that
/// a party takes turns. The proof is `keep_ending` of `proofs/LockFree.antt`, by a measure of each call in
/// the crate of its kind's laws.
pub fn lock_free<T>()
    ensures one_ends { (kind : Kind) → IfSome (lock_free_bound kind) (IsLockFree T kind) }
    ensures keep_ending { (kind : Kind) → IfSome (lock_free_bound kind) (KeepsEnding T kind) }
    ensures as_run { (kind : Kind) → IfSome (lock_free_bound kind) (HasLockFreeRuns T kind) }
{}

/// Robust index sets and containers are lock-free in runs in which no release, no remove and no recovery is
/// in the mode `LockIfLastIndex`, with the bounds `default_bound` and `default_container_bound`, in the way
/// that `lock_free` says of the other kinds. The second clause of each says that calls go on ending.
pub fn lock_free_by_default<T>()
    ensures one_ends { IsLockFreeOf T Robust IsDefault default_bound }
    ensures keep_ending { KeepsEndingOf T Robust IsDefault default_bound }
    ensures container_ends { IsLockFreeOf T Container IsDefault default_container_bound }
    ensures container_keeps_ending { KeepsEndingOf T Container IsDefault default_container_bound }
{}

/// Loan channels are lock-free, as their machines run, with the bound `channel_bound`. Wherever turns have
/// led, and whatever turns follow, in more steps than the bound a call ends, and calls go on ending as often
/// as the steps have that bound. The bound depends on the slots alone. It is the same for any number of
/// parties, since only the sender and one receiver at a time take steps, and for any capacity of the
/// submission queue. The two clauses say nothing of runs with more turns than a machine takes. The proof is
/// `proofs/LockFree.antt` of `laws_loan`, by the steps that the sender's call has left and those that the
/// receiver's has left.
pub fn lock_free_channel<T>()
    ensures one_ends { HasLockFreeRuns T Loan channel_bound }
    ensures keep_ending { KeepsEndingRuns T Loan channel_bound }
{}

/// No bound that makes a kind lock-free is less than the number that the clause of that kind names. The
/// clause takes the bound at a number of parties, a capacity and values of one word, in this order: there is
/// a run with these of that many steps in which no call ends. For the first six kinds the numbers are what
/// `lock_free_bound` says, so its bounds cannot be less. In a robust index set of two indices two releases in
/// the mode `LockIfLastIndex` make each other begin again, in ten steps a round, until the counter is at its
/// end: there are as many rounds as it has room for (`proofs/Rounds.antt`). Of a loan channel with one slot
/// `channel_bound` says 24, and no bound is below 14. The other runs are those of
/// `proofs/WorkedLockFree.antt` of `model`, and that of the channel of the file of this name in `laws_loan`.
pub fn not_lock_free_below()
    ensures index_queue { (bound : Bound) → bound 2 1 1 < 10 → IsLockFree ℕ IndexQueue bound → ⊥ }
    ensures overflow { (bound : Bound) → bound 1 1 1 < 5 → IsLockFree ℕ Overflow bound → ⊥ }
    ensures queue { (bound : Bound) → bound 2 1 1 < 10 → IsLockFree ℕ Queue bound → ⊥ }
    ensures value { (bound : Bound) → bound 2 1 1 < 6 → IsLockFree ℕ Atomic bound → ⊥ }
    ensures bits { (bound : Bound) → bound 1 3 1 < 5 → IsLockFree ℕ Bits bound → ⊥ }
    ensures counts { (bound : Bound) → bound 2 3 1 < 4 → IsLockFree ℕ Counts bound → ⊥ }
    ensures robust { (bound : Bound) → bound 2 2 1 < 10 * (2 ^ 63 - 5) → IsLockFree ℕ Robust bound → ⊥ }
    ensures loan { (bound : Bound) → bound 2 1 1 < 14 → HasLockFreeRuns ℕ Loan bound → ⊥ }
{}
