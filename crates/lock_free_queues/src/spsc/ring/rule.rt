//! The rule of a queue's table. Its words are those of the machine of its kind, and one
//! word more behind them.
ghost use Rattle.model.specs.Coding.{coding_by};
ghost use Rattle.model.specs.declared.families.queues.QueueKind.{QueueKind};
ghost use Rattle.model.specs.declared.families.queues.QueueKind.TheVariants as queues;

use atomic_table::TableRule;
use history::view::View;
use std::marker::PhantomData;
use steps::words::Words;
use threaded::driver::rule::Rule;

/// A type for each kind of queue of the model.
pub trait Kind {
    ghost KIND: { QueueKind };
}

/// The queue of numbers that refuses a push where it is full.
pub struct Numbers;

impl Kind for Numbers {
    ghost KIND = { queues.IndexQueue };
}

/// The queue of values that refuses a push where it is full.
pub struct Values;

impl Kind for Values {
    ghost KIND = { queues.Queue };
}

/// The queue of numbers that hands its oldest number back where it is full.
pub struct Overflowing;

impl Kind for Overflowing {
    ghost KIND = { queues.Overflow };
}

/// The key of a queue's table: its capacity, and the number of pushes and pops after which it opens.
#[derive(Clone, Copy)]
pub struct Origin {
    pub capacity: u64,
    pub position: u64,
}

/// The rule of a queue's table: its views are those of one history of the machine of the kind E.
pub struct RingRule<E, T> {
    of: PhantomData<(E, T)>,
}

impl<E: Kind, T: Words> TableRule<(), View<T>, Origin> for RingRule<E, T> {
    ghost use Rattle.history.specs.History.{IsMachine};
    ghost use Rattle.lock_free_queues.specs.Queues.Bounded.{machine_kind};
    ghost use Rattle.lock_free_queues.specs.Queues.Kinds.{opened_by};

    ghost holds = { λ key. IsMachine (coding_by T.Words) (machine_kind E.KIND) key.capacity };

    ghost first = { λ key. opened_by (coding_by T.Words) E.KIND key.capacity key.position };
}

impl<E: Kind, T: Words> Rule<View<T>, Origin> for RingRule<E, T> {
    ghost use Rattle.std.specs.Prelude.{◌+◌};
    ghost use Rattle.lock_free_queues.specs.Queues.Kinds.{words_in_cells};

    ghost size = { λ key. 4 + words_in_cells T.WORDS E.KIND key.capacity + 1 };

    ghost capacity = { λ key. key.capacity };

    ghost capacity_seen = { λ v. v.capacity };

    ghost asked = { λ v. v.asked };
}
