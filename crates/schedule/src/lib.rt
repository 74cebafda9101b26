//! Reads a written schedule of turns, and prints what each of them did.
#![tactic(auto)]

mod allowed;
pub mod arguments;
pub mod bare;
pub mod explained;
pub mod input;
pub mod output;
pub mod runs;
mod shown;
mod told;
pub mod wrong;

pub use runs::{run, run_and_tell};
pub use texts::{error, grammar, line, pen, text};
pub use told::status;
