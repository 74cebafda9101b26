//! Drives the calls of `steps` on the words of a table. Besides, only four functions touch a word: those that
//! make a table, split a seat, join two seats, and look at one word.
//!
//! The view of a seat counts each operation on a word by a function of these modules. No other crate can name
//! the table of a seat or of a structure, so no structure can touch a word uncounted.
pub mod drive;
pub mod homes;
pub mod rule;
pub mod seated;
