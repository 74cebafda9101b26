//! A type for each of push, pop and peek. It says what the seat's view knows while the call is under way and
//! once it has ended. These types are for the proofs alone.
ghost use Rattle.model.specs.Coding.{one_word};
ghost use Rattle.model.specs.declared.turn.Kind.TheVariants as kinds;

use history::view::View;
use steps::copied::OneWord;
use steps::queues::peek::Peek;
use steps::queues::ring::{Pop, Push};
use threaded::driver::rule::Drives;

/// Pushing a number.
pub struct Pushes;

impl Drives<View<u64>, Push<u64>> for Pushes {
    ghost use Rattle.history.specs.Stages.{At, Over};
    ghost use Rattle.history_queues.specs.Queues.{pushes_index};

    ghost at = { λ v. At one_word kinds.IndexQueue (pushes_index v) };

    ghost ends = { λ v. Over one_word kinds.IndexQueue (pushes_index v) };
}

/// Popping a number.
pub struct Pops;

impl Drives<View<u64>, Pop<u64, OneWord>> for Pops {
    ghost use Rattle.history.specs.Stages.{At, Ends};
    ghost use Rattle.history_queues.specs.Queues.{pops_index};

    ghost at = { λ given. At one_word kinds.IndexQueue pops_index };

    ghost ends = { λ given. Ends one_word kinds.IndexQueue pops_index };
}

/// Peeking at the oldest number.
pub struct Peeks;

impl Drives<View<u64>, Peek<u64, OneWord>> for Peeks {
    ghost use Rattle.history.specs.Stages.{At, Ends};
    ghost use Rattle.history_queues.specs.Queues.{peeks_index};

    ghost at = { λ given. At one_word kinds.IndexQueue peeks_index };

    ghost ends = { λ given. Ends one_word kinds.IndexQueue peeks_index };
}
