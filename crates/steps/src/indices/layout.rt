//! The words of a unique index set: the head, the next indices, and the claim flags, 64 to a word.
ghost use Rattle.std.specs.Prelude.{◌≡◌};
ghost use Rattle.steps.specs.Indices.Head.{next_word, flag_word, flag, has_flag};

/// The head word.
pub const HEAD: usize = 0;
/// The word of the next index of index 0.
pub const FIRST_NEXT: usize = 1;

/// The word that says which free index comes after this one.
#[inline(always)]
pub fn next_word(index: u32) -> usize
    ensures { result ≡ next_word index }
{
    FIRST_NEXT + index as usize
}

/// The word of the claim flag of this index.
#[inline(always)]
pub fn flag_word(capacity: u32, index: u32) -> usize
    ensures { result ≡ flag_word capacity index }
{
    FIRST_NEXT + capacity as usize + index as usize / 64
}

/// The bit of the claim flag of this index in its word.
#[inline(always)]
pub fn flag(index: u32) -> u64
    ensures { result ≡ flag index }
{
    1 << (index % 64)
}

/// Whether the claim flag of this index stands in its word.
#[inline(always)]
pub fn has_flag(word: u64, index: u32) -> bool
    ensures { result ≡ has_flag word index }
{
    word & flag(index) != 0
}
