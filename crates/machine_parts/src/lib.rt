//! A machine: what a turn tests, and what it makes of the parts of a machine. No promise of every run is proved here.
#![tactic(auto)]

pub mod parts;
pub mod running;
