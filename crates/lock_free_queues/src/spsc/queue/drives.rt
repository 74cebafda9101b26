//! A type for each of push, pop and peek. It says what the seat's view knows while the call is under way and
//! once it has ended. These types are for the proofs alone.
ghost use Rattle.model.specs.Coding.{coding_by};
ghost use Rattle.model.specs.declared.turn.Kind.TheVariants as kinds;

use history::view::View;
use std::marker::PhantomData;
use steps::copied::Room;
use steps::queues::peek::Peek;
use steps::queues::ring::{Pop, Push};
use steps::words::Words;
use threaded::driver::rule::Drives;

/// Pushing a value.
pub struct Pushes<T> {
    of: PhantomData<T>,
}

impl<T: Words + Drop> Drives<View<T>, Push<T>> for Pushes<T> {
    ghost use Rattle.history.specs.Stages.{At, Over};
    ghost use Rattle.history_queues.specs.ValueQueue.{pushes_value};

    ghost at = { λ value. At (coding_by T.Words) kinds.Queue
        (pushes_value (coding_by T.Words) value) };

    ghost ends = { λ value. Over (coding_by T.Words) kinds.Queue
        (pushes_value (coding_by T.Words) value) };
}

/// Popping a value into a room of the type R.
pub struct Pops<T, R> {
    of: PhantomData<(T, R)>,
}

impl<T: Words, R: Room<T> + Drop> Drives<View<T>, Pop<T, R>> for Pops<T, R> {
    ghost use Rattle.history.specs.Stages.{At, Ends};
    ghost use Rattle.history_queues.specs.ValueQueue.{pops_value};

    ghost at = { λ given. At (coding_by T.Words) kinds.Queue
        (pops_value (coding_by T.Words) R.words_in) };

    ghost ends = { λ given. Ends (coding_by T.Words) kinds.Queue
        (pops_value (coding_by T.Words) R.words_in) };
}

/// Peeking at a value, whose words go into a room of the type R.
pub struct Peeks<T, R> {
    of: PhantomData<(T, R)>,
}

impl<T: Words, R: Room<T> + Drop> Drives<View<T>, Peek<T, R>> for Peeks<T, R> {
    ghost use Rattle.history.specs.Stages.{At, Ends};
    ghost use Rattle.history_queues.specs.ValueQueue.{peeks_value};

    ghost at = { λ given. At (coding_by T.Words) kinds.Queue
        (peeks_value (coding_by T.Words) R.words_in) };

    ghost ends = { λ given. Ends (coding_by T.Words) kinds.Queue
        (peeks_value (coding_by T.Words) R.words_in) };
}
