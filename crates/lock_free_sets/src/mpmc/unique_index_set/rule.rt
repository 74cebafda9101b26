//! The rule of the table of a unique index set. Its words are those of the machine, and one
//! word more behind them.
ghost use Rattle.model.specs.Coding.{one_word};
ghost use Rattle.model.specs.declared.turn.Kind.TheVariants as kinds;

use atomic_table::TableRule;
use history::view::View;
use threaded::driver::rule::Rule;

/// The rule of a unique index set's table, whose key is the capacity. Its views are those of one
/// history of the machine.
pub struct IndicesRule;

impl TableRule<(), View<u64>, u64> for IndicesRule {
    ghost use Rattle.history.specs.History.{IsMachine};
    ghost use Rattle.history.specs.Views.{first_view};

    ghost holds = { λ capacity. IsMachine one_word kinds.Indices capacity };

    ghost first = { first_view };
}

impl Rule<View<u64>, u64> for IndicesRule {
    ghost use Rattle.std.specs.Prelude.{◌+◌};
    ghost use Rattle.lock_free_sets.specs.Unique.Held.{size};

    ghost size = { λ capacity. size capacity + 1 };

    ghost capacity = { λ capacity. capacity };

    ghost capacity_seen = { λ v. v.capacity };

    ghost asked = { λ v. v.asked };
}
