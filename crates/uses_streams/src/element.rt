//! An element of a stream's queue: a value or the end, and how it is coded as words.
ghost use Rattle.std.specs.Prelude.{◌≤◌};

use steps::words::Words;

/// A value that a stream can carry: its words leave room for one word more.
pub trait Short: Words {
    ghost short: { Self.WORDS ≤ 127 };
}

impl Short for u32 {
    ghost use Rattle.std.proofs.Common.{rules};

    ghost short = { Prim.search rules };
}

impl Short for u64 {
    ghost use Rattle.std.proofs.Common.{rules};

    ghost short = { Prim.search rules };
}

impl Short for u128 {
    ghost use Rattle.std.proofs.Common.{rules};

    ghost short = { Prim.search rules };
}

impl Short for (u64, u64) {
    ghost use Rattle.std.proofs.Common.{rules};

    ghost short = { Prim.search rules };
}

/// A value of the stream, or the end, after which no value comes.
#[derive(Debug, Clone, Copy)]
pub enum Element<T> {
    Value(T),
    End,
}

/// The words of an element: one that is 1 for a value and 0 for the end, and then the words of the value.
impl<T: Short> Words for Element<T> {
    ghost use Rattle.std.specs.Prelude.{ℕ, ◌+◌};
    ghost use Rattle.std.proofs.Common.{arith};
    ghost use Rattle.uses_streams.specs.Elements.{words_of_element, element_of, long, given_back_element};

    const WORDS: usize = 1 + T::WORDS;

    ghost WORDS = { 1 + T.WORDS };

    ghost words_of = { words_of_element T.WORDS T.words_of };

    ghost value_of = { element_of T.value_of };

    ghost some = { let more = T.some in Prim.omega arith };

    ghost few = { let more = T.short in Prim.omega arith };

    ghost sized = { long T.WORDS T.words_of T.sized };

    ghost given_back = { given_back_element T.WORDS T.words_of T.value_of T.given_back };

    fn word(&self, at: usize) -> u64 {
        match self {
            Element::Value(value) => { if at == 0 { 1 } else { value.word(at - 1) } }
            Element::End => 0,
        }
    }

    fn of_words(words: &[u64]) -> Element<T> {
        if words[0] == 0 {
            Element::End
        } else {
            Element::Value(T::of_words(&words[1..]))
        }
    }
}
