//! Values as words of 64 bits.
ghost use Rattle.std.specs.Prelude.{◌≡◌, ◌≤◌, ◌<◌, ℕ, List, [], ◌∷◌, length, slice_index};
ghost use Rattle.steps.specs.Words.{words_of_u32, value_of_u32, given_back_u32, words_of_u128, value_of_u128, words_of_pair, value_of_pair, given_back_u128};

/// A value that is kept in words of 64 bits, from 1 to 128 of them.
///
/// `of_words` of a value's words is that value. What `of_words` makes of other words is the implementation's choice.
pub trait Words: Copy {
    /// How many words a value has.
    const WORDS: usize;

    ghost WORDS: { ℕ };

    ghost words_of: { Self → List ℕ };

    ghost value_of: { List ℕ → Self };

    /// The word at this place, which is below `WORDS`.
    fn word(&self, at: usize) -> u64
        requires { at < WORDS }
        ensures { result ≡ slice_index (words_of self.now) at };

    /// The value of these words, exactly `WORDS` of them.
    fn of_words(words: &[u64]) -> Self
        requires { length words.now ≡ WORDS }
        ensures { result ≡ value_of words.now };

    ghost some: { 1 ≤ WORDS };

    ghost few: { WORDS ≤ 128 };

    ghost sized: { (x : Self) → length (words_of x) ≡ WORDS };

    ghost given_back: { (x : Self) → value_of (words_of x) ≡ x };
}

/// One word, of which `of_words` reads the low half.
impl Words for u32 {
    ghost use Rattle.std.specs.Prelude.{ℕ, refl};
    ghost use Rattle.std.proofs.Common.{rules};

    const WORDS: usize = 1;

    ghost WORDS = { 1 };

    ghost words_of = { words_of_u32 };

    ghost value_of = { value_of_u32 };

    ghost some = { Prim.search rules };

    ghost few = { Prim.search rules };

    ghost sized = { λ x. refl };

    ghost given_back = { given_back_u32 };

    fn word(&self, at: usize) -> u64 {
        *self as u64
    }

    fn of_words(words: &[u64]) -> u32 {
        (words[0] & 0xffff_ffff) as u32
    }
}

/// One word.
impl Words for u64 {
    ghost use Rattle.std.specs.Prelude.{ℕ, refl, List, [], ◌∷◌, slice_index};
    ghost use Rattle.std.proofs.Common.{rules};

    const WORDS: usize = 1;

    ghost WORDS = { 1 };

    ghost words_of = { λ x. x ∷ [] };

    ghost value_of = { λ words. slice_index words 0 };

    ghost some = { Prim.search rules };

    ghost few = { Prim.search rules };

    ghost sized = { λ x. refl };

    ghost given_back = { λ x. refl };

    fn word(&self, at: usize) -> u64 {
        *self
    }

    fn of_words(words: &[u64]) -> u64 {
        words[0]
    }
}

/// Two words, the high one first.
impl Words for u128 {
    ghost use Rattle.std.specs.Prelude.{ℕ, refl};
    ghost use Rattle.std.proofs.Common.{rules};

    const WORDS: usize = 2;

    ghost WORDS = { 2 };

    ghost words_of = { words_of_u128 };

    ghost value_of = { value_of_u128 };

    ghost some = { Prim.search rules };

    ghost few = { Prim.search rules };

    ghost sized = { λ x. refl };

    ghost given_back = { given_back_u128 };

    fn word(&self, at: usize) -> u64 {
        if at == 0 {
            (*self >> 64) as u64
        } else {
            (*self & 0xffff_ffff_ffff_ffff) as u64
        }
    }

    fn of_words(words: &[u64]) -> u128 {
        ((words[0] as u128) << 64) | words[1] as u128
    }
}

/// Two words, the first number first.
impl Words for (u64, u64) {
    ghost use Rattle.std.specs.Prelude.{ℕ, refl};
    ghost use Rattle.std.proofs.Common.{rules};

    const WORDS: usize = 2;

    ghost WORDS = { 2 };

    ghost words_of = { words_of_pair };

    ghost value_of = { value_of_pair };

    ghost some = { Prim.search rules };

    ghost few = { Prim.search rules };

    ghost sized = { λ x. refl };

    ghost given_back = { λ x. refl };

    fn word(&self, at: usize) -> u64 {
        if at == 0 { self.0 } else { self.1 }
    }

    fn of_words(words: &[u64]) -> (u64, u64) {
        (words[0], words[1])
    }
}
