//! What a pass knows of robust sets and containers: what `history` says of any kind, for these.
#![tactic(auto)]
