//! Laws of containers: those of robust unique index sets, and what stands in them, by turns and by events alone.

pub use history_laws::containers::{
    copies_are_whole, histories_without_recoveries_are_faithful,
    histories_without_removals_are_well_formed,
};
pub use history_laws::grants::{
    container_indices_are_held_by_one, indices_never_freed_are_freed_right,
};
pub use history_laws::owners::{calls_that_lock_are_apart, worn_containers_have_changed};
pub use lock_free_owners::laws::{
    container_calls_end_histories, container_histories_are_contained,
    container_histories_are_sound, container_updates_meet_changes,
};
