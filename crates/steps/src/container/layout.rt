//! The words of a container, behind those of its set of indices.
//!
//! The first words are a robust set of indices: the container's calls are made of calls on that set, whose
//! `BorrowedIndices` and `IsLocked` say how many indices are filled and whether it is locked. Then come the
//! word that counts changes, the number of each element, and the `T::WORDS` words of each value. All of these
//! open at 0. A container has a capacity of 1 or more.
ghost use Rattle.std.specs.Prelude.{◌≡◌};
ghost use Rattle.steps.specs.Container.Layout.{change_word, count_word, element_word, total_words};

/// The word that counts changes, which wraps. Every call that has changed what stands in the container adds 1 before
/// it ends; a look that finds as many changes as it knows of ends there.
#[inline(always)]
pub fn change_word(capacity: u32) -> usize
    ensures { result ≡ change_word capacity }
{
    1 + capacity as usize
}

/// The word of an element's number, which wraps: a value stands at an index while it is odd.
///
/// Who adds or replaces a value makes an odd number even first, stores the words, and then adds 1. Who copies one
/// loads the number, then the words, and then exchanges the number for itself: the copy counts only where that
/// succeeds, so it is whole.
#[inline(always)]
pub fn count_word(capacity: u32, index: u32) -> usize
    ensures { result ≡ count_word capacity index }
{
    2 + capacity as usize + index as usize
}

/// The word `at` of an element's value, where a value takes `words` words.
#[inline(always)]
pub fn element_word(capacity: u32, words: u8, index: u32, at: u8) -> usize
    ensures { result ≡ element_word capacity words index at }
{
    2 + (capacity as usize + capacity as usize) + (words as usize * index as usize + at as usize)
}

/// How many words a container has, where a value takes `words` words.
pub fn total_words(capacity: u32, words: u8) -> usize
    ensures { result ≡ total_words capacity words }
{
    2 + (capacity as usize + capacity as usize) + words as usize * capacity as usize
}
