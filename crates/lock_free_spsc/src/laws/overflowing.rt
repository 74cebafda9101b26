//! Laws of overflowing index queues alone.

pub use lock_free_queues::laws::{
    overflowing_histories_are_sound, overflowing_merges, overflowing_takes_in_order,
};
