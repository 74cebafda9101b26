//! A `set` by a pass with the whole share takes no more steps than the call takes alone.

ghost use Rattle.std.specs.Prelude.{◌<◌};
ghost use Rattle.lock_free.specs.Bits.Calls.{capacity_of, IsPassOf, view};
ghost use Rattle.lock_free.specs.HistorySteps.{TakesAtMost};
ghost use Rattle.lock_free.specs.Whole.{HasWhole};

use lock_free::laws::histories::{whole_calls_are_alone, wholes_stay};
use lock_free::mpmc::bit_set::{BitSet, Pass};
use std::sync::Wait;

/// Sets a place of a set that nobody else has, in at most two steps, and returns whether this call set it.
pub fn set_alone(rt: &impl Wait, set: &BitSet, place: usize, pass: &mut Pass) -> bool
    requires pass { IsPassOf set.now pass.old }
    requires place { place < capacity_of set.now }
    requires whole { HasWhole (view pass.old) }
    ensures steps { TakesAtMost 2 (view pass.old) (view pass.new) }
    ensures whole { HasWhole (view pass.new) }
{
    whole_calls_are_alone::<u64>();
    wholes_stay::<u64>();
    let was_clear = set.set(rt, place, pass);
    pass.history();
    was_clear
}
