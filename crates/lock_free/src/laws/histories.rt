//! Laws of every structure. They say where the calls of passes stand in one history, that the runs which passes know are one
//! run, when joined shares are the whole, and that who has the whole share makes each call alone.

pub use history::laws::{calls_are_in_order, calls_stand, runs_go_on, steps_are_bounded};
pub use lock_free_sets::laws::wholes::{whole_calls_are_alone, wholes_stay};
pub use threaded::laws::{any_number, any_order};
