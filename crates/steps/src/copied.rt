//! Room for the words of a value while they are read.
ghost use Rattle.std.specs.Prelude.{◌≡◌, ℕ, List, length, slice_set};
ghost use Rattle.steps.specs.Copied.{value_in};

use crate::words::Words;

/// Room for the words of one value, which are read one after another, each to its place.
pub trait Room<T: Words> {
    ghost words_in: { Self → List ℕ };

    ghost with_word: { Self → ℕ → ℕ → Self };

    /// Keeps the word at this place. Where there is no such place, nothing changes.
    fn put(&mut self, at: usize, word: u64)
        ensures { self.new ≡ with_word self.old at word };

    /// The value that its first words make.
    fn value(&self) -> T
        ensures { result ≡ value_in T.value_of T.WORDS (words_in self.now) };

    ghost put_in: { (x : Self) (at word : ℕ) → words_in (with_word x at word)
        ≡ slice_set (words_in x) at word };
}

/// Room for a number of one word.
#[derive(Debug, Clone, Copy, PartialEq, Eq)]
pub struct OneWord(pub u64);

/// A room of one word: it keeps the word put at place 0, and drops all others.
impl Room<u64> for OneWord {
    ghost use Rattle.std.specs.Prelude.{[], ◌∷◌};
    ghost use Rattle.steps.specs.Copied.{kept_in_one, one_put_in};

    ghost words_in = { λ x. x.0 ∷ [] };

    ghost with_word = { kept_in_one };

    ghost put_in = { one_put_in };

    #[inline(always)]
    fn put(&mut self, at: usize, word: u64) {
        if at == 0 {
            self.0 = word;
        }
    }

    #[inline(always)]
    fn value(&self) -> u64 {
        self.0
    }
}

/// Room for a value of at most N words. It keeps them in itself, so that reading takes no memory.
#[derive(Clone, Copy)]
pub struct Buffer<const N: usize> {
    /// The words, of which a value takes the first ones.
    pub words: [u64; N],
}

/// Room for any value.
pub type Copied = Buffer<128>;

impl<const N: usize> Buffer<N> {
    /// A buffer of zeros: no word is read yet.
    #[inline(always)]
    pub fn new() -> Buffer<N>
        ensures { length result.words ≡ N }
    {
        Buffer { words: [0; N] }
    }
}

/// The value that the first `T::WORDS` of these words make. Where there are fewer words, the value that words
/// of zeros make.
#[inline(always)]
fn value_in<T: Words>(words: &[u64]) -> T
    ensures { result ≡ value_in T.value_of T.WORDS words.now }
{
    if T::WORDS <= words.len() {
        T::of_words(&words[..T::WORDS])
    } else {
        T::of_words(&[0; 128][..T::WORDS])
    }
}

/// A room of N words: it keeps the words put at places below N, and drops all others.
impl<T: Words, const N: usize> Room<T> for Buffer<N> {
    ghost use Rattle.std.specs.Prelude.{refl};

    ghost words_in = { λ x. x.words };

    ghost with_word = { λ x at word. record x { words = slice_set x.words at word } };

    ghost put_in = { λ x at word. refl };

    #[inline(always)]
    fn put(&mut self, at: usize, word: u64) {
        if at < N {
            self.words[at] = word;
        }
    }

    #[inline(always)]
    fn value(&self) -> T {
        value_in(&self.words[..])
    }
}
