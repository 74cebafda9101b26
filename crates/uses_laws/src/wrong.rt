//! Histories that contracts refuse, so that no clause that refuses one can go out of its record unnoticed. The crate
//! `wrong_runs` has runs of machines that promises refuse, and `proofs/WrongBodies.antt` what wrong bodies of calls would
//! leave.

ghost use Rattle.std.specs.Prelude.{List, []};
ghost use Rattle.lock_free.specs.Passes.{HasSplit};
ghost use Rattle.lock_free.specs.Queues.Closes.{Closes};
ghost use Rattle.lock_free.specs.Queues.Contracts.{HasTakenFirst};
ghost use Rattle.lock_free.specs.Queues.Item.TheVariants.{Index};
ghost use Rattle.lock_free.specs.ReleaseMode.TheVariants.{Default};
ghost use Rattle.lock_free.specs.ReleaseState.TheVariants.{Unlocked};
ghost use Rattle.lock_free.specs.Robust.Contracts.{HasRecovered};
ghost use Rattle.uses_laws.specs.Wrong.{first, took_the_second, knows_of_one, nothing_left, stays, same_party};
ghost use Rattle.uses_laws.specs.Wrong.{never_asked, may_be_asked, never_told, asked_of_one, freed_one};

/// What no call has done. A pop of an overflowing queue, or a push that makes room there, has taken out another number
/// than the oldest. The list that `close` returns is without a number that waits. A recovery of a robust set has asked
/// about an index, and has not called its first closure, or it has freed one, and has not called its second. A pass that
/// was split off is the party of another pass. The other wrong histories stand in `proofs/WrongHistories.antt`.
pub fn refused()
    ensures oldest { HasTakenFirst (Index 8) first took_the_second → ⊥ }
    ensures closed { Closes Index 2 knows_of_one nothing_left → ⊥ }
    ensures asked { HasRecovered never_asked never_told Default Unlocked [] [] [] [] first asked_of_one → ⊥ }
    ensures told { HasRecovered may_be_asked never_told Default Unlocked [] [] [] [] first freed_one → ⊥ }
    ensures split { HasSplit first stays same_party → ⊥ }
{}
