//! How often a place was counted by all threads: what was taken out of it, and what still stands there. For a thread that
//! has joined all others.

ghost use Rattle.std.specs.Prelude.{◌≡◌, ◌<◌, ◌^◌};
ghost use Rattle.lock_free.specs.Counts.Calls.{capacity_of, IsPassOf, MissesNothing, made, share};
ghost use Rattle.lock_free.specs.Shares.{IsAll};
ghost use Rattle.lock_free.specs.Sums.{counts, takes};

use lock_free::laws::counts::counts_are_conserved;
use lock_free::mpmc::counting_bit_set::{CountingBitSet, Pass};

/// How often the place was counted before this call: `taken`, which is all that was taken out of it, and what still stands
/// there, which one more count answers. No count comes to 2^64.
pub fn total(set: &CountingBitSet, place: usize, taken: u64, pass: &mut Pass) -> u64
    requires pass { IsPassOf set.now pass.old }
    requires place { place < capacity_of set.now }
    requires whole { IsAll (share pass.old) }
    requires all { MissesNothing pass.old }
    requires out { taken ≡ takes place (made pass.old) }
    requires few { counts place (made pass.old) < 2 ^ 64 }
    ensures { result ≡ counts place (made pass.old) }
{
    counts_are_conserved::<u64>();
    pass.history();
    let left = set.set(place, pass);
    taken + left
}
