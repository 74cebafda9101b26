//! A seat at a shared table, and the reference to this table that a structure holds.
ghost use Rattle.std.specs.Prelude.{◌≡◌, []};
ghost use Rattle.std.specs.Arc.{arc_value};

use atomic_table::{Seat, Table, TableRule};
use std::alloc::Global;
use std::sync::Arc;

/// A seat, with the reference to its table through which its steps go. Only this crate can name the field
/// `table`, so no other crate can read or write a word through it.
#[derive(Drop)]
pub struct Seated<V, K, Q: TableRule<(), V, K>> {
    pub seat: Seat<(), V>,
    pub(crate) table: Arc<Table<(), V, K, Q, Global>, Global>,
    ghost seated: { seat.table_id ≡ (arc_value table).shared.table_id },
    ghost bare: { seat.me.1 ≡ [] },
}

/// The reference to its table that a structure holds. It gives no access to a word: for that
/// a caller needs a seat.
#[derive(Drop)]
pub struct Home<V, K, Q: TableRule<(), V, K>> {
    pub(crate) table: Arc<Table<(), V, K, Q, Global>, Global>,
}
