//! What a pass knows of the single value: what `history` says of any kind, for these.
#![tactic(auto)]
