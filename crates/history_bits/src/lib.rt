//! What a pass knows of bit sets and counting bit sets: what `history` says of any kind, for these.
#![tactic(auto)]

pub mod laws;
