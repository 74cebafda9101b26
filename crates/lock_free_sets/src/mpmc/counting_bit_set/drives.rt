//! A type for each call on one count. It says what the seat's view knows while the call is under way and once
//! it has ended. These types are for the proofs alone.
ghost use Rattle.model.specs.Coding.{one_word};
ghost use Rattle.model.specs.declared.turn.Kind.TheVariants as kinds;

use history::view::View;
use steps::bits::counting_bit_set;
use steps::bits::looks::Count;
use threaded::driver::rule::Drives;

/// Counting a place.
pub struct CountsPlace;

impl Drives<View<u64>, counting_bit_set::Set> for CountsPlace {
    ghost use Rattle.history.specs.Stages.{At, Ends};
    ghost use Rattle.lock_free_sets.specs.Counts.Stages.{counts_place};

    ghost at = { λ place. At one_word kinds.Counts (counts_place place) };

    ghost ends = { λ place. Ends one_word kinds.Counts (counts_place place) };
}

/// Looking at a count.
pub struct LooksAt;

impl Drives<View<u64>, Count> for LooksAt {
    ghost use Rattle.history.specs.Stages.{At, Ends};
    ghost use Rattle.lock_free_sets.specs.Counts.Looks.{looks_at};

    ghost at = { λ place. At one_word kinds.Counts (looks_at place) };

    ghost ends = { λ place. Ends one_word kinds.Counts (looks_at place) };
}
