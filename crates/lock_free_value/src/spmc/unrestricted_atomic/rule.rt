//! The rule of a value's table: its words are those of the machine `Atomic`, and one word more behind them.
ghost use Rattle.model.specs.Coding.{coding_by};
ghost use Rattle.model.specs.declared.turn.Kind.TheVariants as kinds;

use atomic_table::TableRule;
use history::view::View;
use std::marker::PhantomData;
use steps::words::Words;
use threaded::driver::rule::Rule;

/// The key of a table: the value with which it opens, and the version at which it opens.
#[derive(Clone, Copy)]
pub struct Origin<T> {
    pub value: T,
    pub version: u64,
}

/// The rule of the table of an `UnrestrictedAtomic`: its views are those of one history of the machine.
pub struct ValueRule<T> {
    of: PhantomData<T>,
}

impl<T: Words> TableRule<(), View<T>, Origin<T>> for ValueRule<T> {
    ghost use Rattle.history.specs.History.{IsMachine};
    ghost use Rattle.history_value.specs.ValueOpened.{opened_view};

    ghost holds = { λ origin. IsMachine (coding_by T.Words) kinds.Atomic 1 };

    ghost first = { λ origin. opened_view origin.value T.WORDS origin.version };
}

/// A value has no capacity of its own: that of its machine is 1.
impl<T: Words> Rule<View<T>, Origin<T>> for ValueRule<T> {
    ghost use Rattle.std.specs.Prelude.{◌+◌, ◌*◌};

    ghost size = { λ origin. 2 + T.WORDS * 2 + 1 };

    ghost capacity = { λ origin. 1 };

    ghost capacity_seen = { λ v. v.capacity };

    ghost asked = { λ v. v.asked };
}
