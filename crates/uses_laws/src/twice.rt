//! A bit that a caller sets twice was cleared in between, by whomever.

ghost use Rattle.std.specs.Prelude.{◌<◌, IsTrue};
ghost use Rattle.lock_free.specs.Bits.Calls.{capacity_of, IsPassOf, history};
ghost use Rattle.lock_free.specs.Sums.{clears};

use lock_free::laws::bits::bits_are_conserved;
use lock_free::mpmc::bit_set::{BitSet, Pass};
use std::sync::Wait;

/// Sets the place twice: whether both calls have set it. Then somebody has cleared it meanwhile.
pub fn set_twice(rt: &impl Wait, set: &BitSet, place: usize, pass: &mut Pass) -> bool
    requires pass { IsPassOf set.now pass.old }
    requires place { place < capacity_of set.now }
    ensures { IsTrue result → clears place (history pass.old) < clears place (history pass.new) }
{
    bits_are_conserved::<u64>();
    pass.history();
    if !set.set(rt, place, pass) {
        return false;
    }
    let again = set.set(rt, place, pass);
    pass.history();
    again
}
