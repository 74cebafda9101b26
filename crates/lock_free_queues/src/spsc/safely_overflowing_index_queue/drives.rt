//! A type for the push and one for the pop. It says what the seat's view knows while the call is under way
//! and once it has ended. These types are for the proofs alone.
ghost use Rattle.model.specs.Coding.{one_word};
ghost use Rattle.model.specs.declared.turn.Kind.TheVariants as kinds;

use history::view::View;
use steps::queues::overflow::{Pop, Push};
use threaded::driver::rule::Drives;

/// Pushing a number into an overflowing queue.
pub struct Pushes;

impl Drives<View<u64>, Push> for Pushes {
    ghost use Rattle.history.specs.Stages.{At, Over};
    ghost use Rattle.history_queues.specs.Overflow.{pushes_over};

    ghost at = { λ v. At one_word kinds.Overflow (pushes_over v) };

    ghost ends = { λ v. Over one_word kinds.Overflow (pushes_over v) };
}

/// Popping a number from an overflowing queue.
pub struct Pops;

impl Drives<View<u64>, Pop> for Pops {
    ghost use Rattle.history.specs.Stages.{At, Ends};
    ghost use Rattle.history_queues.specs.Overflow.{pops_over};

    ghost at = { λ given. At one_word kinds.Overflow pops_over };

    ghost ends = { λ given. Ends one_word kinds.Overflow pops_over };
}
