//! Values of three, 16 and 128 words, for tests of structures that copy a value word by word.
use steps::words::Words;

/// A value of three words.
#[derive(Clone, Copy, PartialEq)]
pub struct Three(pub u64, pub u64, pub u64);

impl Words for Three {
    ghost use Rattle.std.specs.Prelude.{ℕ, refl, [], ◌∷◌, slice_index};
    ghost use Rattle.std.proofs.Common.{rules};

    const WORDS: usize = 3;

    ghost WORDS = { 3 };

    ghost words_of = { λ x. x.0 ∷ x.1 ∷ x.2 ∷ [] };

    ghost value_of = { λ words. record { 0 = slice_index words 0; 1 = slice_index words 1; 2 = slice_index words 2 } };

    ghost some = { Prim.search rules };

    ghost few = { Prim.search rules };

    ghost sized = { λ x. refl };

    ghost given_back = { λ x. refl };

    fn word(&self, at: usize) -> u64 {
        let words = [self.0, self.1, self.2];
        words[at]
    }

    fn of_words(words: &[u64]) -> Three {
        Three(words[0], words[1], words[2])
    }
}

/// A value of 16 words: its four numbers, four times one after another.
#[derive(Clone, Copy, PartialEq)]
pub struct Sixteen(pub u64, pub u64, pub u64, pub u64);

impl Words for Sixteen {
    ghost use Rattle.std.specs.Prelude.{ℕ, refl, [], ◌∷◌, slice_index};
    ghost use Rattle.std.proofs.Common.{rules};

    const WORDS: usize = 16;

    ghost WORDS = { 16 };

    ghost words_of = { λ x. x.0 ∷ x.1 ∷ x.2 ∷ x.3 ∷ x.0 ∷ x.1 ∷ x.2 ∷ x.3 ∷ x.0 ∷ x.1 ∷ x.2 ∷ x.3 ∷ x.0 ∷ x.1 ∷ x.2 ∷ x.3 ∷ [] };

    ghost value_of = { λ words. record { 0 = slice_index words 0; 1 = slice_index words 5; 2 = slice_index words 10; 3 = slice_index words 15 } };

    ghost some = { Prim.search rules };

    ghost few = { Prim.search rules };

    ghost sized = { λ x. refl };

    ghost given_back = { λ x. refl };

    fn word(&self, at: usize) -> u64 {
        let Sixteen(a, b, c, d) = *self;
        let words = [a, b, c, d, a, b, c, d, a, b, c, d, a, b, c, d];
        words[at]
    }

    fn of_words(words: &[u64]) -> Sixteen {
        Sixteen(words[0], words[5], words[10], words[15])
    }
}

/// A value of 128 words, which is the most that a value may have. Its three numbers are the words 0, 64 and
/// 127, and each other word is 9.
#[derive(Clone, Copy, PartialEq)]
pub struct Greatest(pub u64, pub u64, pub u64);

impl Words for Greatest {
    ghost use Rattle.std.specs.Prelude.{ℕ, refl, slice_index, slice_set, replicate};
    ghost use Rattle.std.proofs.Common.{rules};

    const WORDS: usize = 128;

    ghost WORDS = { 128 };

    ghost words_of = { λ x. slice_set (slice_set (slice_set (replicate 128 9) 0 x.0) 64 x.1) 127 x.2 };

    ghost value_of = { λ words. record { 0 = slice_index words 0; 1 = slice_index words 64; 2 = slice_index words 127 } };

    ghost some = { Prim.search rules };

    ghost few = { Prim.search rules };

    ghost sized = { λ x. refl };

    ghost given_back = { λ x. refl };

    fn word(&self, at: usize) -> u64 {
        let mut words = [9; 128];
        words[0] = self.0;
        words[64] = self.1;
        words[127] = self.2;
        words[at]
    }

    fn of_words(words: &[u64]) -> Greatest {
        Greatest(words[0], words[64], words[127])
    }
}
