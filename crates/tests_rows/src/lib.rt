//! Plays a row: threads that call one structure, meet inside their calls, and write each call down with its answer and the
//! times before and after it. Programs of rows bring the structures (`Maker`), and what a thread does with them (`Role`).
#![tactic(auto)]

pub mod desk;
pub mod pairs;
pub mod play;
pub mod row;
pub mod shared;
