//! What a pass knows of queues: what `history` says of any kind, for these.
#![tactic(auto)]
