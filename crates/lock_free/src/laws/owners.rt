//! Laws of robust unique index sets: what one history says of owners and of answers. Besides, how long the generation
//! counter can be told not to be at its end.

pub use history_laws::grants::{indices_never_freed_are_freed_right, set_indices_are_held_by_one};
pub use history_laws::owners::{calls_that_lock_are_apart, worn_sets_have_changed};
pub use lock_free_owners::laws::histories_are_sound;
