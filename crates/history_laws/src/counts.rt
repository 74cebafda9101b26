//! What one history of a counting bit set says: laws of every history that a pass has seen.
ghost use Rattle.std.specs.Prelude.{◌≡◌, ◌≤◌, ◌+◌, ℕ, List};
ghost use Rattle.model.specs.declared.event.Event.{Event};
ghost use Rattle.model.specs.declared.turn.Kind.TheVariants as kinds;
ghost use Rattle.model.specs.Coding.{Coding};
ghost use Rattle.model.specs.Families.Bits.Promises.{CountsAnswerOn};
ghost use Rattle.model.specs.Families.Bits.Reading.{counts, takes, count_at};
ghost use Rattle.model.specs.Reading.{Each};
ghost use Rattle.history.specs.History.{IsHistory};
ghost use Rattle.history_laws.specs.Counts.{TakesAll};

/// What was counted at a place is what was taken out of it in all, and what stands there. At no place at or
/// behind the capacity was anything counted.
pub fn counts_are_conserved<T>()
    ensures conserved { (code : Coding T) (capacity : ℕ) (events : List (Event T))
        → IsHistory code kinds.Counts capacity events → (place : ℕ)
        → counts place events ≡ takes place events + count_at place events }
    ensures within { (code : Coding T) (capacity : ℕ) (events : List (Event T))
        → IsHistory code kinds.Counts capacity events → (place : ℕ) → capacity ≤ place → counts place events ≡ 0 }
{}

/// What a reset takes out of a place is all that stands there at that moment, less than 2^64.
pub fn counts_are_taken_whole<T>()
    ensures { (code : Coding T) (capacity : ℕ) (events : List (Event T))
        → IsHistory code kinds.Counts capacity events → Each TakesAll events }
{}

/// Each answer is right, of every thread's call: a set answers what stands at its place, less than 2^64, and a reset of
/// all takes something out of each place that counted as it began, unless that was counted 2^64 times in all.
pub fn count_answers_are_right<T>()
    ensures { (code : Coding T) (capacity : ℕ) (events : List (Event T))
        → IsHistory code kinds.Counts capacity events → Each (CountsAnswerOn capacity) events }
{}
