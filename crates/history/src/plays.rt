//! How a split makes two seats of one (`Cut`), and a join one of two (`Both`). These types are for the proofs alone.

use super::view::View;
use atomic_table::{Join, Split};
use steps::words::Words;

/// A split: it makes a new seat of the same table, with half of the share.
pub struct Cut;

impl<T: Words> Split<View<T>> for Cut {
    ghost use Rattle.history.specs.Views.{left_view, right_view};

    ghost left = { left_view };

    ghost right = { right_view };
}

/// A join: one seat takes in another, whose seat keeps nothing.
pub struct Both;

impl<T: Words> Join<View<T>> for Both {
    ghost use Rattle.history.specs.Views.{joined_view, spent_view};

    ghost both = { joined_view };

    ghost spent = { spent_view };
}
