//! The rule of the table of a bit set or a counting bit set. Its words are those of the machine of its kind,
//! and one word more: a split of a pass loads a word, and counts of no place have none.
ghost use Rattle.std.specs.Prelude.{◌≡◌, ◌+◌, ◌≤◌};
ghost use Rattle.lock_free_sets.specs.Sets.Kinds as kinds;
ghost use Rattle.lock_free_sets.specs.Sets.Kinds.{SetKind, words_of};

use atomic_table::TableRule;
use history::view::View;
use std::marker::PhantomData;
use steps::bits::flags::{FIRST_ELEMENT, elements};
use threaded::driver::rule::Rule;

/// A type for each of the two kinds, bit sets and counting bit sets.
pub trait Kind {
    ghost KIND: { SetKind };

    /// How many words the machine of a set of this kind has, one less than its table.
    fn words(capacity: u32) -> usize
        ensures number { result ≡ words_of KIND capacity }
        ensures few { result ≤ capacity + 1 };
}

/// The kind of a bit set, whose flags stand 64 to a word.
pub struct Flags;

impl Kind for Flags {
    ghost KIND = { kinds.Flags };

    fn words(capacity: u32) -> usize {
        FIRST_ELEMENT + elements(capacity) as usize
    }
}

/// The kind of a counting bit set, which has a word for each count.
pub struct Counts;

impl Kind for Counts {
    ghost KIND = { kinds.Counts };

    fn words(capacity: u32) -> usize {
        capacity as usize
    }
}

/// The rule of a set's table, whose key is the capacity. Its views are those of one history of the machine.
pub struct SetRule<E> {
    of: PhantomData<E>,
}

impl<E: Kind> TableRule<(), View<u64>, u32> for SetRule<E> {
    ghost use Rattle.model.specs.Coding.{one_word};
    ghost use Rattle.history.specs.History.{IsMachine};
    ghost use Rattle.history.specs.Views.{first_view};
    ghost use Rattle.lock_free_sets.specs.Sets.Kinds.{machine_kind};

    ghost holds = { λ capacity. IsMachine one_word (machine_kind E.KIND) capacity };

    ghost first = { first_view };
}

impl<E: Kind> Rule<View<u64>, u32> for SetRule<E> {
    ghost size = { λ capacity. words_of E.KIND capacity + 1 };

    ghost capacity = { λ capacity. capacity };

    ghost capacity_seen = { λ v. v.capacity };

    ghost asked = { λ v. v.asked };
}
