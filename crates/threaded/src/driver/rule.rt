//! What a table's rule says for the driver, and what a call says of the views at its steps.
ghost use Rattle.std.specs.Prelude.{ℕ};

use atomic_table::TableRule;
use steps::routine::Routine;

/// A rule over tables with a key K and views V. Its tables have no slots.
pub trait Rule<V, K>: TableRule<(), V, K> {
    /// How many words a table with this key has.
    ghost size: { K → ℕ };

    /// The capacity of a table with this key. `capacity_seen` is the one that a view tells.
    ghost capacity: { K → ℕ };

    ghost capacity_seen: { V → ℕ };

    /// How many operations on words a view has counted. The driver adds 1 for each one that it performs.
    ghost asked: { V → ℕ };
}

/// What a seat knows while the call C is under way, and how the call ends. One call may be driven
/// for several reasons, as to take one role or the other, so it stands apart from the call.
pub trait Drives<V, C: Routine> {
    /// What holds while the call is under way. It is a relation of what the call was given, the view with
    /// which it began, the view now, the call as it stands, and its room.
    ghost at: { C.Given → V → V → C → C.Room → Type 0 };

    /// What holds once the call has ended. It is a relation of what the call was given, the view with which
    /// it began, its end, its room, and the view now.
    ghost ends: { C.Given → V → C.End → C.Room → V → Type 0 };

    /// Whether the call is at a stage that comes many times in a row, as that of a scan. `drive_on` takes
    /// such steps in a loop of their own, so that a compiler knows the stage inside this loop. No clause
    /// depends on the answer.
    #[inline(always)]
    fn repeats(_call: C) -> bool {
        false
    }
}

/// What one step tells, of the view before it, the number that it heard, and the view after it. Who takes the
/// step picks what it tells.
pub trait Tells<V> {
    ghost told: { V → ℕ → V → Type 0 };
}
