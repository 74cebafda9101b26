//! What may stand at a place of a line, found by trying it: each word that some line has, and numbers.
use crate::bare::read_setup;
use crate::wrong::Grammar;
use std::alloc::{AllocError, Global};
use texts::error::Cause;
use texts::pen::Pen;

/// The words that are no numbers.
const WORDS: [&str; 54] = [
    "index_queue",
    "overflow",
    "queue",
    "atomic",
    "bits",
    "counts",
    "indices",
    "robust",
    "container",
    "die",
    "begin",
    "next",
    "yes",
    "no",
    "acquire_producer",
    "release_producer",
    "acquire_consumer",
    "release_consumer",
    "has_producer",
    "has_consumer",
    "push",
    "pop",
    "peek",
    "store",
    "load",
    "version",
    "set",
    "reset_next",
    "reset_all",
    "is_set",
    "count",
    "acquire",
    "release",
    "borrowed_indices",
    "add",
    "remove",
    "replace",
    "find",
    "recover",
    "get_state",
    "update_state",
    "len",
    "is_empty",
    "is_full",
    "is_locked",
    "loan",
    "send",
    "give_up",
    "take_back",
    "receive",
    "give_back",
    "reclaim",
    "default",
    "lock",
];

/// The greatest numbers of a line, the greatest first.
const NUMBERS: [&str; 5] = [
    "340282366920938463463374607431768211455",
    "18446744073709551615",
    "18446744073709551614",
    "4294967295",
    "16777214",
];

/// What is tried: a next word of a line, or one number of a first line whose capacity is refused.
#[derive(Clone, Copy)]
pub enum Tried<'a> {
    Words(Grammar, &'a [u8]),
    /// What stands before the word, and behind it.
    Capacity(&'a [u8], &'a [u8]),
}

impl Tried<'_> {
    /// Why this word may not stand there, if it may not. More words can be missing behind it.
    pub fn cause(self, alloc: Global, word: &[u8]) -> Result<Option<Cause>, AllocError> {
        match self {
            Tried::Words(grammar, before) => {
                let cause = grammar.cause(&line_of(alloc, before, word, b"")?);
                Ok(cause.filter(|cause| *cause != Cause::MissingValue))
            }
            Tried::Capacity(before, behind) => {
                Ok(read_setup(&line_of(alloc, before, word, behind)?).err())
            }
        }
    }

    // Whether this word may stand there.
    fn takes(self, alloc: Global, word: &str) -> Result<bool, AllocError> {
        Ok(self.cause(alloc, word.as_bytes())?.is_none())
    }

    // Whether the line may end there.
    fn ends(self) -> bool {
        match self {
            Tried::Words(grammar, before) => {
                let line = before.strip_suffix(b" ".as_slice()).unwrap_or(before);
                grammar.cause(line).is_none()
            }
            Tried::Capacity(_, _) => false,
        }
    }

    // The numbers that may stand there, if some may.
    fn put_numbers(self, alloc: Global, list: &mut List) -> Result<(), AllocError> {
        if !self.takes(alloc, "1")? {
            return Ok(());
        }
        let least = if self.takes(alloc, "0")? { "0" } else { "1" };
        for greatest in NUMBERS.iter() {
            if self.takes(alloc, greatest)? {
                list.put("a number from ");
                list.pen.put(least);
                list.pen.put(" to ");
                list.pen.put(greatest);
                return Ok(());
            }
        }
        list.put("1");
        Ok(())
    }

    /// Writes all that may stand there.
    pub fn put_all(self, alloc: Global, pen: &mut Pen) -> Result<(), AllocError> {
        let mut list = List {
            pen,
            is_begun: false,
        };
        self.put_numbers(alloc, &mut list)?;
        for word in WORDS.iter() {
            if self.takes(alloc, word)? {
                list.put(word);
            }
        }
        if self.ends() {
            list.put("the end of the line");
        }
        Ok(())
    }
}

// A list that commas part.
#[derive(Drop)]
struct List<'a> {
    pen: &'a mut Pen,
    is_begun: bool,
}

impl List<'_> {
    /// Adds a word or a number to those that are listed.
    fn put(&mut self, text: &str) {
        self.pen.put(if self.is_begun { ", " } else { " " });
        self.pen.put(text);
        self.is_begun = true;
    }
}

// A line with this word between what stands before it and behind it.
fn line_of(
    alloc: Global,
    before: &[u8],
    word: &[u8],
    behind: &[u8],
) -> Result<Vec<u8>, AllocError> {
    let mut line = Vec::from_slice(alloc, before)?;
    line.extend_from_slice(word)?;
    line.extend_from_slice(behind)?;
    Ok(line)
}
