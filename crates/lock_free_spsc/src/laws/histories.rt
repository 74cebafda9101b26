//! Laws of every structure. They say where the calls of passes stand in one history, that the runs which passes know are one
//! run, and when joined shares are the whole.

pub use history::laws::{calls_are_in_order, calls_stand, runs_go_on, steps_are_bounded};
pub use threaded::laws::{any_number, any_order};
