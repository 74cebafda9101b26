//! What a turn makes of a machine, as functions: how a structure opens, which call begins, what it wants, how it goes
//! on, and what is written down then. Their types, and the definitions that they are held to, stand in `model`.
#![tactic(auto)]

pub mod families;
pub mod party;
pub mod words;
