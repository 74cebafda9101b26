//! What a pass knows of unique index sets: what `history` says of any kind, for these.
#![tactic(auto)]
