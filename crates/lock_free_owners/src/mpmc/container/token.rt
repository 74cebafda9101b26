//! A seat at a container's table.
ghost use Rattle.std.specs.Prelude.{◌≡◌, ◌<◌, ◌+◌, []};
ghost use Rattle.steps.specs.Container.Layout.{total_words};
ghost use Rattle.std.specs.Coded.{Coded-set};
ghost use Rattle.model.specs.declared.turn.Kind.TheVariants as kinds;
ghost use Rattle.model.specs.Coding.{coding_by};
ghost use Rattle.threaded.specs.Seats.{key_of};
ghost use Rattle.history.specs.History.{Knows};
ghost use Rattle.history.proofs.KnownRuns.{knows_prop};
ghost use Rattle.lock_free_owners.specs.Container.Idle.{IsIdle};

use super::rule::ContainerRule;
use atomic_table::TableRule;
use history::view::View;
use steps::words::Words;
use threaded::driver::seated::Seated;

/// A seat at a container's table, with no call under way, unless a find rests. An answer to its question has
/// ended that find. The rule Q is a parameter, since else `sized` could not name `T::WORDS`.
#[derive(Drop)]
pub struct Held<T: Words, Q: TableRule<(), View<T>, u64>> {
    pub seated: Seated<View<T>, u64, Q>,
    pub capacity: u32,
    ghost sized: { seated.seat.table_id.words ≡ total_words capacity T.WORDS + 1 },
    ghost keyed: { key_of seated ≡ capacity },
    ghost known: { seated.seat.me.0.capacity ≡ capacity },
    ghost places: { 0 < capacity },
    ghost idle: { IsIdle seated.seat.me.0 },
    ghost alone: { seated.seat.me.0.other ≡ [] },
    ghost some: { (0 < seated.seat.me.0.share.part) × (0 < seated.seat.me.0.share.parts) },
    ghost knows: { Knows (coding_by T.Words) kinds.Container capacity seated.seat.me.0 } by { knows_prop (Coded-set T.code) (coding_by T.Words) kinds.Container capacity seated.seat.me.0 },
}

pub type Token<T> = Held<T, ContainerRule<T>>;
