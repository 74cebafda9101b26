//! A closure that is lent to a call counts what the call does: how many flags a reset of all cleared, how
//! much was taken out of the counts.

ghost use Rattle.std.specs.Prelude.{◌≡◌, ◌+◌};
ghost use Rattle.lock_free.specs.Bits.Calls.{IsPassOf, made};
ghost use Rattle.lock_free.specs.Counts.Handles.{pass_in};
ghost use Rattle.uses_laws.specs.Sums.{cleared, taken};

use lock_free::mpmc::bit_set::{BitSet, Pass};
use lock_free::mpmc::counting_bit_set::Handle;

/// Resets all places: how many of them it has cleared.
pub fn clear(set: &BitSet, pass: &mut Pass) -> usize
    requires { IsPassOf set.now pass.old }
    ensures { cleared (made pass.new) ≡ cleared (made pass.old) + result }
{
    // Each is counted once, so the number is at most the capacity.
    let _most = set.capacity();
    let mut number = 0usize;
    set.reset_all(&mut |_place| number += 1, pass);
    number
}

/// Takes all counts out, and returns their sum.
pub fn take(counts: &mut Handle<'_>) -> u128
    ensures { taken (made (pass_in counts.new)) ≡ taken (made (pass_in counts.old)) + result }
{
    let mut sum = 0u128;
    counts.reset_all(&mut |state| sum += state.count() as u128);
    sum
}
