//! The lines of a text, the words of a line, and numbers in decimal.
ghost use Rattle.std.specs.Prelude.{◌≡◌, [], ◌∷◌, ◌==◌, ◌≤◌, IfOk, MatchOption, length};
ghost use Rattle.std.specs.List.{position_or_len};
ghost use Rattle.texts.specs.Text.{parts, lines, words, number_of, words_left};
ghost use Rattle.texts.specs.Grammar.{Gives};

use crate::error::Cause;

const LINE_FEED: u8 = b'\n';

const SPACE: u8 = b' ';

/// The parts of a text that are not read yet.
#[derive(Clone, Copy)]
pub struct Rest<'a> {
    rest: Option<&'a [u8]>,
    separator: u8,
}

/// The lines of a text. Behind its last line feed stands one more, which is empty where nothing follows.
pub fn lines(text: &[u8]) -> Rest<'_>
    ensures { words_left result ≡ lines text.now }
{
    Rest {
        rest: Some(text),
        separator: LINE_FEED,
    }
}

/// The words of a line, which exactly one space parts: two spaces have an empty
/// word between them. An empty line has none.
pub fn words(line: &[u8]) -> Rest<'_>
    ensures { words_left result ≡ words line.now }
{
    match line {
        [] => Rest {
            rest: None,
            separator: SPACE,
        },
        [_, ..] => Rest {
            rest: Some(line),
            separator: SPACE,
        },
    }
}

// Where the byte stands first, or the length.
fn place_of(byte: u8, text: &[u8]) -> usize
    ensures { result ≡ position_or_len (λ b. b == byte) text.now }
{
    for (at, b) in text.iter().enumerate() {
        if *b == byte {
            return at;
        }
    }
    text.len()
}

impl<'a> Rest<'a> {
    /// The first part, and the parts after it. None where no part is left.
    pub fn first(self) -> Option<(&'a [u8], Rest<'a>)>
        ensures { MatchOption result (words_left self.entry ≡ [])
            (λ x. words_left self.entry ≡ x.0.now ∷ words_left x.1) }
    {
        match self.rest {
            None => None,
            Some(text) => {
                let at = place_of(self.separator, text);
                if at < text.len() {
                    Some((
                        &text[..at],
                        Rest {
                            rest: Some(&text[at + 1..]),
                            separator: self.separator,
                        },
                    ))
                } else {
                    Some((
                        text,
                        Rest {
                            rest: None,
                            separator: self.separator,
                        },
                    ))
                }
            }
        }
    }
}

/// The number that a word writes: one decimal digit or more, nothing else, and a value up to `greatest`. Any other
/// word is `BadValue`.
pub fn number_of(greatest: u128, word: &[u8]) -> Result<u128, Cause>
    ensures value { Gives (λ n. n) result (number_of greatest word.now) }
    ensures bound { IfOk result (λ n. n ≤ greatest) }
{
    if word.is_empty() {
        return Err(Cause::BadValue);
    }
    let mut number: u128 = 0;
    for digit in word {
        if !digit.is_ascii_digit() {
            return Err(Cause::BadValue);
        }
        let Some(shifted) = number.checked_mul(10) else {
            return Err(Cause::BadValue);
        };
        let Some(sum) = shifted.checked_add(u128::from(*digit - b'0')) else {
            return Err(Cause::BadValue);
        };
        if sum > greatest {
            return Err(Cause::BadValue);
        }
        number = sum;
    }
    Ok(number)
}
