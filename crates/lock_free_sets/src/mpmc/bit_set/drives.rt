//! A type for each call on places of a bit set. It says what the seat's view knows while the call is under
//! way and once it has ended. These types are for the proofs alone.
ghost use Rattle.model.specs.Coding.{one_word};
ghost use Rattle.model.specs.declared.turn.Kind.TheVariants as kinds;

use history::view::View;
use steps::bits::bit_set::{ResetNext, Set};
use steps::bits::looks::IsSet;
use threaded::driver::rule::Drives;

/// Setting a place.
pub struct SetsPlace;

impl Drives<View<u64>, Set> for SetsPlace {
    ghost use Rattle.history.specs.Stages.{At, Ends};
    ghost use Rattle.lock_free_sets.specs.Bits.Stages.{sets_place};

    ghost at = { λ place. At one_word kinds.Bits (sets_place place) };

    ghost ends = { λ place. Ends one_word kinds.Bits (sets_place place) };
}

/// Resetting the next place.
pub struct ResetsNext;

impl Drives<View<u64>, ResetNext> for ResetsNext {
    ghost use Rattle.history.specs.Stages.{At, Ends};
    ghost use Rattle.lock_free_sets.specs.Bits.Stages.{resets_next};

    ghost at = { λ given. At one_word kinds.Bits resets_next };

    ghost ends = { λ given. Ends one_word kinds.Bits resets_next };
}

/// Looking at a place.
pub struct LooksAt;

impl Drives<View<u64>, IsSet> for LooksAt {
    ghost use Rattle.history.specs.Stages.{At, Ends};
    ghost use Rattle.lock_free_sets.specs.Bits.Looks.{looks_at};

    ghost at = { λ place. At one_word kinds.Bits (looks_at place) };

    ghost ends = { λ place. Ends one_word kinds.Bits (looks_at place) };
}
