//! The rule of a container's table. Its words are those of the machine, and one word more behind them.
ghost use Rattle.model.specs.Coding.{coding_by};
ghost use Rattle.model.specs.declared.turn.Kind.TheVariants as kinds;

use atomic_table::TableRule;
use history::view::View;
use std::marker::PhantomData;
use steps::words::Words;
use threaded::driver::rule::Rule;
use threaded::driver::seated::Seated;

/// The rule of a container's table, whose key is the capacity. Its views are those of one
/// history of the machine.
pub struct ContainerRule<T> {
    of: PhantomData<T>,
}

impl<T: Words> TableRule<(), View<T>, u64> for ContainerRule<T> {
    ghost use Rattle.history.specs.History.{IsMachine};
    ghost use Rattle.history.specs.Views.{first_view};

    ghost holds = { λ capacity. IsMachine (coding_by T.Words) kinds.Container capacity };

    ghost first = { first_view };
}

impl<T: Words> Rule<View<T>, u64> for ContainerRule<T> {
    ghost use Rattle.std.specs.Prelude.{◌+◌};
    ghost use Rattle.steps.specs.Container.Layout.{total_words};

    ghost size = { λ capacity. total_words capacity T.WORDS + 1 };

    ghost capacity = { λ capacity. capacity };

    ghost capacity_seen = { λ v. v.capacity };

    ghost asked = { λ v. v.asked };
}

pub type Seat<T> = Seated<View<T>, u64, ContainerRule<T>>;
