//! A thread that has joined all others and takes all counts out of a counting bit set has
//! all that was counted.

ghost use Rattle.std.specs.Prelude.{◌≡◌, ◌<◌, ◌^◌, ℕ};
ghost use Rattle.lock_free.specs.Counts.Calls.{capacity_of, IsPassOf, MissesNothing, made, share};
ghost use Rattle.lock_free.specs.Shares.{IsAll};
ghost use Rattle.lock_free.specs.Sums.{counts, takes};

use lock_free::laws::counts::{counts_are_conserved, counts_are_taken_whole};
use lock_free::mpmc::counting_bit_set::{CountingBitSet, Pass};

/// Takes all counts out. Then what was taken out of each place, over all calls, is what was counted there,
/// unless that comes to 2^64.
pub fn drain(set: &CountingBitSet, pass: &mut Pass)
    requires pass { IsPassOf set.now pass.old }
    requires whole { IsAll (share pass.old) }
    requires all { MissesNothing pass.old }
    ensures { (place : ℕ) → place < capacity_of set.now → counts place (made pass.old) < 2 ^ 64
        → takes place (made pass.new) ≡ counts place (made pass.new) }
{
    counts_are_conserved::<u64>();
    counts_are_taken_whole::<u64>();
    set.reset_all(&mut |_state| {}, pass);
    pass.history();
}
