//! Laws of a sender's calls.
ghost use Rattle.std.specs.Prelude.{◌≡◌, ℕ, ◌+◌, List, sum_by};
ghost use Rattle.model.specs.declared.turn.Kind.TheVariants as kinds;
ghost use Rattle.model.specs.Coding.{one_word};
ghost use Rattle.history.specs.declared.view.View.{View};
ghost use Rattle.history.specs.History.{Knows};
ghost use Rattle.history.specs.Held.{claims, frees};
ghost use Rattle.lock_free_queues.specs.Queues.Contracts.{FoundNone};
ghost use Rattle.lock_free_sets.specs.Unique.Held.{times};
ghost use Rattle.lock_free_loans.specs.Loan.Contracts.{InTurn, HasFreed, HasFreedInRun, HasEmptied};

/// A pass that frees a list of indices in turn frees each as often as it stands there. It claims nothing. The lemmas
/// are `freed_in_turn` and `claims_in_turn` of `proofs/Loan/Contracts.antt`.
pub fn frees_are_counted()
    ensures freed { (is : List ℕ) (old new : View ℕ) → InTurn HasFreed is old new
        → (i : ℕ) → sum_by (frees i) new.made ≡ sum_by (frees i) old.made + times i is }
    ensures claimed { (is : List ℕ) (old new : View ℕ) → InTurn HasFreed is old new
        → (i : ℕ) → sum_by (claims i) new.made ≡ sum_by (claims i) old.made }
{}

/// What a pass knew after each of several frees in turn is a run too. It is a beginning of the run that the pass knows in
/// the end. The lemma is `known_in_turn` of `proofs/Loan/Known.antt`.
pub fn frees_are_known()
    ensures { (is : List ℕ) (capacity : ℕ) (old new : View ℕ) → InTurn HasFreed is old new
        → Knows one_word kinds.Indices capacity old → Knows one_word kinds.Indices capacity new
        → InTurn (HasFreedInRun capacity) is old new }
{}

/// In a queue that was emptied nothing waited at one moment behind what its guard had seen. The lemma is `emptied_once`
/// of `proofs/Loan/Contracts.antt`.
pub fn emptied_queues_were_empty()
    ensures { (old new : View ℕ) → HasEmptied old new → FoundNone old new }
{}
