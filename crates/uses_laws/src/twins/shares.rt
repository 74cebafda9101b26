//! Laws of shares that no other client has a use for.
ghost use Rattle.std.specs.Prelude.{◌≡◌, ◌<◌, ◌+◌, ℕ};
ghost use Rattle.lock_free.specs.Parts.{IsPart};
ghost use Rattle.lock_free.specs.Share.{Share};
ghost use Rattle.lock_free.specs.Shares.{added, all_shares, both_of, pieces, rest, IsAll};

use lock_free::laws::histories::{any_number, any_order};

/// A first pass that was split any number of times has the whole share again where all that was split
/// off is joined to it. Two passes with k and j of k + j equal parts of the whole have the whole
/// share once they are joined.
pub fn of_shares()
    ensures split { (n : ℕ) → IsAll (added (rest n all_shares) (pieces n all_shares)) }
    ensures joined { (whole k j : ℕ) (one other : Share) → 0 < whole → IsPart k whole one → IsPart j whole other → k + j ≡ whole
        → IsAll (both_of one other) }
{
    any_number();
    any_order();
}
