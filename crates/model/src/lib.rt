//! What a machine is: the types of its calls, parties, turns and events. What a turn makes of it, which a reader must
//! believe, stands in `specs/`, and the functions that do so in the crate `turns`.
#![tactic(auto)]

pub mod event;
pub mod families;
pub mod party;
pub mod room;
pub mod turn;
