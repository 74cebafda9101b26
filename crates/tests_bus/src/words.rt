//! The records that the buses of these tests carry, and what a record of a number has to hold.
ghost use Rattle.std.specs.Prelude.{◌≡◌};

use std::alloc::{AllocError, Global};
use zero_copy_slots::Keeps;

/// A record: its number, words that follow from the number (`word_of`), and a text (`text_of`).
pub struct Words {
    pub number: u64,
    pub all: Vec<u64>,
    pub text: String,
}

impl Drop for Words {
    fn drop(self) {
        let Self {
            number: _,
            all: _all,
            text: _text,
        } = self;
    }
}

/// The rule that the number in a record equals the number that it is published with.
pub struct OwnNumber;

impl Keeps<Words> for OwnNumber {
    ghost holds = { λ number words. words.number ≡ number };
}

/// Texts of different lengths, one of them empty.
const TEXTS: [&str; 4] = [
    "one",
    "two and two",
    "",
    "a text that is longer than a word",
];

/// The text of the record of this number.
pub fn text_of(number: u64) -> &'static str {
    TEXTS[(number % 4) as usize]
}

/// The word at the place `at` of the record of this number.
pub fn word_of(number: u64, at: usize) -> u64 {
    number.wrapping_mul(16).wrapping_add(at as u64)
}

/// Makes a record the one of this number: its number, its words and its text. False where there was no memory
/// for the text.
pub fn write(words: &mut Words, number: u64) -> bool {
    words.number = number;
    for (at, word) in words.all.iter_mut().enumerate() {
        *word = word_of(number, at);
    }
    words.text.clear();
    words.text.push_str(text_of(number)).is_ok()
}

/// Whether a record is the one of this number, with `so_many` words. A record that was torn, or overwritten
/// by another one, has a word or a text of another number.
pub fn is_whole(words: &Words, number: u64, so_many: usize) -> bool {
    for at in 0..so_many {
        if words.all.get(at).copied() != Some(word_of(number, at)) {
            return false;
        }
    }
    words.number == number && words.all.len() == so_many && words.text.as_str() == text_of(number)
}

/// `number` records with `words` words each, all of them 0, and an empty text. A publisher is
/// given them to write.
pub fn spares(alloc: Global, number: usize, words: usize) -> Result<Vec<Words>, AllocError> {
    let mut spares = Vec::new(alloc);
    for _ in 0..number {
        let all = vec![in alloc; 0u64; words]?;
        let text = String::new(alloc);
        spares.push(Words {
            number: 0,
            all,
            text,
        })?;
    }
    Ok(spares)
}
