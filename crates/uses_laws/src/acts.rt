//! A call of a bit set acts place by place, not at once. The two calls that a caller made itself stand in an
//! order of all these acts, in which they come in the order in which it made them.

ghost use Rattle.std.specs.Prelude.{◌<◌};
ghost use Rattle.lock_free.specs.Bits.Calls.{capacity_of, IsPassOf, view};
ghost use Rattle.uses_laws.specs.Acts.{ActedInOrder};

use lock_free::laws::bits::histories_act;
use lock_free::laws::histories::{calls_are_in_order, calls_stand};
use lock_free::mpmc::bit_set::{BitSet, Pass};
use std::sync::Wait;

/// Sets two places, one after the other, and answers of each whether this call set it: the acts of all threads' calls have
/// an order in which these answers are right, and in which the first call is over before the second begins.
pub fn set_both(
    rt: &impl Wait,
    set: &BitSet,
    first: usize,
    second: usize,
    pass: &mut Pass,
) -> (bool, bool)
    requires pass { IsPassOf set.now pass.old }
    requires first { first < capacity_of set.now }
    requires second { second < capacity_of set.now }
    ensures { ActedInOrder (capacity_of set.now) first second result.0 result.1 (view pass.old) (view pass.new) }
{
    calls_stand::<u64>();
    calls_are_in_order::<u64>();
    histories_act::<u64>();
    let one = set.set(rt, first, pass);
    let two = set.set(rt, second, pass);
    pass.history();
    (one, two)
}
