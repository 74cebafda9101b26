//! Where the parts of a loan channel begin in its words.
//!
//! They are a unique set of indices, an overflowing queue (the submission queue), and a bounded queue of numbers of
//! one word with as many cells as there are slots (the completion queue), one after another. The words of the roles in
//! both queues are never asked for.
ghost use Rattle.std.specs.Prelude.{◌≡◌};
ghost use Rattle.steps.specs.Loan.Layout.{submission_word, completion_word, total_words};

/// The first word of the submission queue.
#[inline(always)]
pub fn submission_word(slots: u32) -> usize
    ensures { result ≡ submission_word slots }
{
    1 + slots as usize + (slots as usize + 63) / 64
}

/// The first word of the completion queue.
#[inline(always)]
pub fn completion_word(slots: u32, queue: u32) -> usize
    ensures { result ≡ completion_word slots queue }
{
    submission_word(slots) + (5 + queue as usize)
}

/// How many words a channel has.
pub fn total_words(slots: u32, queue: u32) -> usize
    ensures { result ≡ total_words slots queue }
{
    completion_word(slots, queue) + (4 + slots as usize)
}
