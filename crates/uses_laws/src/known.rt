//! What a pass knows of the run says more of a call than the pass's own counts do: how many steps it took,
//! and which index was freed.

ghost use Rattle.std.specs.Prelude.{◌≡◌, ℕ, Some, List};
ghost use Rattle.model.specs.declared.party.Progress.{Progress};
ghost use Rattle.model.specs.declared.event.Answer.{Answer};
ghost use Rattle.model.specs.declared.event.Start.{Start};
ghost use Rattle.model.specs.declared.turn.Kind.{Kind};
ghost use Rattle.model.specs.declared.turn.Kind.TheVariants as kinds;
ghost use Rattle.model.specs.World.{progress_in};
ghost use Rattle.lock_free.specs.Coding.{Coding, one_word};
ghost use Rattle.lock_free.specs.Event.{Event};
ghost use Rattle.lock_free.specs.History.{Called, Knows, run_of};
ghost use Rattle.lock_free.specs.HistorySteps.{TakesAlone, TakesAtMost};
ghost use Rattle.lock_free.specs.HistoryView.View.{View};
ghost use Rattle.lock_free.specs.Loan.Contracts.{HasFreed, HasFreedInRun};

use lock_free::laws::histories::steps_are_bounded;
use lock_free::laws::loans::frees_are_known;

/// A call during which the run counts no change by other parties takes no more steps than
/// the call takes alone.
pub fn takes_alone()
    ensures { (code : Coding ℕ) (kind : Kind) (capacity alone retry p : ℕ) (start : Start ℕ) (answer : Answer ℕ) (wrote : List (Event ℕ))
        (old new : View ℕ) → Called p start answer wrote old new → new.party ≡ Some p → Knows code kind capacity new
        → TakesAlone alone retry old new → (progress : Progress)
        → progress_in (run_of code kind capacity new.turns).world p ≡ Some progress → progress.others ≡ 0
        → TakesAtMost alone old new }
{
    steps_are_bounded::<u64>();
}

/// If one index was freed between two moments at which the pass knew a run, the run has this free.
pub fn free_is_known()
    ensures { (index capacity : ℕ) (old new : View ℕ) → HasFreed index old new
        → Knows one_word kinds.Indices capacity old → Knows one_word kinds.Indices capacity new
        → HasFreedInRun capacity index old new }
{
    frees_are_known();
}
