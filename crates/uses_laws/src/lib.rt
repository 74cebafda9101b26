//! Small clients whose contracts need a law of the whole history: each module shows what one law is for.
#![tactic(auto)]

pub mod acts;
pub mod alone;
pub mod copies;
pub mod counted;
pub mod drain;
pub mod ending;
pub mod known;
pub mod leases;
pub mod order;
pub mod page;
pub mod parted;
pub mod runs;
pub mod sole;
pub mod totals;
pub mod twice;
pub mod twins;
pub mod wrong;
