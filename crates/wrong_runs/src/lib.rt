//! Wrong runs, each of which is refused by one field of a promise or of a record of `headline`, so that no field can go out
//! of its record unnoticed. The files of `proofs` whose names begin with `Orders` have runs and turns that wrong bodies of
//! calls would make. Machines that the main theorem alone refuses stand in `never_reached`.
#![tactic(auto)]

ghost use Rattle.std.specs.Prelude.{◌≡◌, ◌≤◌, ℕ, Some, None, List};
ghost use Rattle.model.specs.declared.party.Progress.{Progress};
ghost use Rattle.model.specs.declared.turn.Kind.{Kind};
ghost use Rattle.model.specs.declared.turn.Turn.{Turn};
ghost use Rattle.model.specs.Coding.{one_word};
ghost use Rattle.model.specs.Families.Indices.Robust.Promises.{IsRobustSet};
ghost use Rattle.model.specs.Turns.{IsReached, run};
ghost use Rattle.model.specs.World.{opened, capacity_error, queue_error, progress_in};
ghost use Rattle.wrong_runs.specs.Made as made;
ghost use Rattle.wrong_runs.specs.Wrong.{granted_twice};

use headline_whole::main_theorem;

/// A robust index set that has granted one index to two owners, in a well-formed run, does not keep what it promises. The other
/// runs stand in `proofs`, a file for each promise.
pub fn refused()
    ensures { IsRobustSet granted_twice → ⊥ }
{}

/// No turns lead to these machines, by the main theorem alone. Each is wrong in one thing that the theorem says.
pub fn never_reached()
    ensures acts_outside { IsReached made.acts_outside → ⊥ }
    ensures pops_unpushed { IsReached made.pops_unpushed → ⊥ }
    ensures pops_from_nothing { IsReached made.pops_from_nothing → ⊥ }
    ensures turns_back_unpaid { IsReached made.turns_back_unpaid → ⊥ }
    ensures loads_unstored { IsReached made.loads_unstored → ⊥ }
    ensures sets_what_stood { IsReached made.sets_what_stood → ⊥ }
    ensures sets_nothing { IsReached made.sets_nothing → ⊥ }
    ensures stands_unset { IsReached made.stands_unset → ⊥ }
    ensures leaves_a_flag { IsReached made.leaves_a_flag → ⊥ }
    ensures loses_a_count { IsReached made.loses_a_count → ⊥ }
    ensures claims_nothing { IsReached made.claims_nothing → ⊥ }
    ensures answers_twice { IsReached made.answers_twice → ⊥ }
    ensures answers_locked { IsReached made.answers_locked → ⊥ }
    ensures says_locked { IsReached made.says_locked → ⊥ }
    ensures owned_twice { IsReached made.owned_twice → ⊥ }
    ensures fills_nothing { IsReached made.fills_nothing → ⊥ }
    ensures passes_the_lowest { IsReached made.passes_the_lowest → ⊥ }
    ensures asks_nothing { IsReached made.asks_nothing → ⊥ }
    ensures frees_nothing { IsReached made.frees_nothing → ⊥ }
    ensures copies_nothing { IsReached made.copies_nothing → ⊥ }
    ensures copies_another { IsReached made.copies_another → ⊥ }
    ensures places_nothing { IsReached made.places_nothing → ⊥ }
    ensures shows_unlooked { IsReached made.shows_unlooked → ⊥ }
    ensures loans_twice { IsReached made.loans_twice → ⊥ }
{
    main_theorem::<u64>();
}

/// Of a client: whatever turns are attempted, each turn back of a call was paid by another party's change.
pub fn backs_are_paid()
    ensures { (kind : Kind) (capacity queue parties : ℕ) (turns : List (Turn ℕ)) → capacity_error kind capacity ≡ None
        → queue_error kind queue ≡ None → (p : ℕ) (g : Progress)
        → progress_in (run turns (opened one_word kind capacity queue parties)).world p ≡ Some g → g.backs ≤ g.others }
{
    main_theorem::<u64>();
}
