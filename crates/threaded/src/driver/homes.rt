//! How seats are made, split and joined, and how a seat loads a word outside any call.
ghost use Rattle.std.specs.Prelude.{◌≡◌, ◌<◌, ◌+◌, ℕ, IfOk, IfSome, IfNone, [], length};
ghost use Rattle.atomic_table.specs.Table.{opening, Splits, Joins};
ghost use Rattle.steps.specs.declared.ask.Op.TheVariants.{Load};
ghost use Rattle.threaded.specs.Driver.{OwesAsk};
ghost use Rattle.threaded.specs.Seats.{seen, table_of, key_of, home_id, IsSame};

use super::rule::{Rule, Tells};
use super::seated::{Home, Seated};
use atomic_table::{Join, Split, Table};
use std::alloc::{AllocError, Global};
use std::sync::Arc;
use steps::ask::{Ask, Op};

impl<V, K, Q: Rule<V, K>> Seated<V, K, Q> {
    /// Makes a table of these words, and its first seat.
    pub fn open(
        alloc: Global,
        words: &[u64],
        about: &K,
    ) -> Result<(Home<V, K, Q>, Seated<V, K, Q>), AllocError>
        requires { Q.holds about.now (opening words.now [] (Q.first about.now)) }
        ensures { IfOk result (λ r. (home_id r.0 ≡ table_of r.1) × ((table_of r.1).words ≡ length words.now)
            × (key_of r.1 ≡ about.now) × (seen r.1 ≡ Q.first about.now)) }
    {
        let (table, seat) = Table::of_words(alloc, words, about)?;
        let table = Arc::new(alloc, table)?;
        let shared = Arc::try_clone(&table)?;
        Ok((
            Home { table },
            Seated {
                seat,
                table: shared,
            },
        ))
    }

    /// Makes a further seat at the same table, by one load, which the view counts. None where no further
    /// reference can be counted.
    pub fn split<S: Split<V>>(&mut self) -> Option<Seated<V, K, Q>>
        requires some { 0 < (table_of self.old).words }
        requires splits { Splits (Q.holds (key_of self.old)) self.old.seat.id (seen self.old)
            (S.left (seen self.old)) (S.right (seen self.old)) }
        requires counts { Q.asked (S.left (seen self.old)) ≡ Q.asked (seen self.old) + 1 }
        ensures same { IsSame self.old self.new }
        ensures cut { IfSome result (λ t. (table_of t ≡ table_of self.old) × (key_of t ≡ key_of self.old)
            × (seen self.new ≡ S.left (seen self.old)) × (seen t ≡ S.right (seen self.old))) }
        ensures none { IfNone result (seen self.new ≡ seen self.old) }
    {
        let Ok(table) = Arc::try_clone(&self.table) else {
            return None;
        };
        let seat = self.table.shared.split_seat::<S>(&mut self.seat);
        Some(Seated { seat, table })
    }

    /// Takes in another seat of the table, by one load. The view then has what both views have counted, and 1
    /// more for this load.
    pub fn join<J: Join<V>>(&mut self, other: Seated<V, K, Q>)
        requires table { table_of other ≡ table_of self.old }
        requires some { 0 < (table_of self.old).words }
        requires joins { Joins (Q.holds (key_of self.old)) self.old.seat.id (seen self.old) other.seat.id (seen other)
            (J.both (seen self.old) (seen other)) J.spent }
        requires counts { Q.asked (J.both (seen self.old) (seen other))
            ≡ Q.asked (seen self.old) + Q.asked (seen other) + 1 }
        ensures same { IsSame self.old self.new }
        ensures joined { seen self.new ≡ J.both (seen self.old) (seen other) }
    {
        let Seated { seat, .. } = other;
        self.table.shared.join_seat::<J>(&mut self.seat, seat);
    }

    /// Loads one word outside any call; the view counts this load. The type M, which the caller picks, says
    /// what the load tells.
    #[inline(always)]
    pub fn look<M: Tells<V>>(&mut self, word: usize) -> u64
        requires owes { OwesAsk Q.asked (Q.holds (key_of self.old)) (table_of self.old).words
            (table_of self.old).slots self.old.seat.id M.told word Load self.old.seat.me }
        requires capacity { (v : V) (n : ℕ) (w : V) → M.told v n w
            → Q.capacity_seen w ≡ Q.capacity_seen v }
        ensures same { IsSame self.old self.new }
        ensures told { M.told (seen self.old) result (seen self.new) }
        ensures counted { Q.asked (seen self.new) ≡ Q.asked (seen self.old) + 1 }
    {
        self.perform::<M>(Ask { word, op: Op::Load })
    }
}
