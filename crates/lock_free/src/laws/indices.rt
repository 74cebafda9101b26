//! Laws of unique index sets. They say who holds an index, how often it was claimed and freed, and that a lock is
//! final.

pub use history_laws::indices::{
    holders_are_counted, holders_are_sole, index_histories_are_sound, indices_are_conserved,
    locks_are_final,
};
