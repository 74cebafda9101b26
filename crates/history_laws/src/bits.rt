//! What one history of a bit set says: laws of every history that a pass has seen.
ghost use Rattle.std.specs.Prelude.{◌≡◌, ◌≤◌, ◌+◌, ℕ, List};
ghost use Rattle.model.specs.declared.event.Event.{Event};
ghost use Rattle.model.specs.declared.turn.Kind.TheVariants as kinds;
ghost use Rattle.model.specs.Coding.{Coding};
ghost use Rattle.model.specs.Families.Bits.Promises.{BitsAnswerRight};
ghost use Rattle.model.specs.Families.Bits.Reading.{sets, clears, standing};
ghost use Rattle.model.specs.Reading.{Each};
ghost use Rattle.history.specs.History.{IsHistory};
ghost use Rattle.history_laws.specs.Bits.{ChangesBit};

/// Each bit was set as often as it was cleared, and once more where it stands. No bit at or behind the
/// capacity was set.
pub fn bits_are_conserved<T>()
    ensures conserved { (code : Coding T) (capacity : ℕ) (events : List (Event T))
        → IsHistory code kinds.Bits capacity events → (bit : ℕ) → sets bit events ≡ clears bit events + standing bit events }
    ensures once { (code : Coding T) (capacity : ℕ) (events : List (Event T))
        → IsHistory code kinds.Bits capacity events → (bit : ℕ) → standing bit events ≤ 1 }
    ensures within { (code : Coding T) (capacity : ℕ) (events : List (Event T))
        → IsHistory code kinds.Bits capacity events → (bit : ℕ) → capacity ≤ bit → sets bit events ≡ 0 }
{}

/// At each moment a bit is set only where it is clear, and cleared only where it stands.
pub fn bits_change_in_turn<T>()
    ensures { (code : Coding T) (capacity : ℕ) (events : List (Event T))
        → IsHistory code kinds.Bits capacity events → Each ChangesBit events }
{}

/// Each answer is right, of every thread's call: a set finds its bit standing only where it stood at a moment of the call,
/// a reset of the next bit finds none only where each bit was clear at a moment of it, and a reset of all clears what stood.
pub fn bit_answers_are_right<T>()
    ensures { (code : Coding T) (capacity : ℕ) (events : List (Event T))
        → IsHistory code kinds.Bits capacity events → Each (BitsAnswerRight capacity) events }
{}
