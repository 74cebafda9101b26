//! The call that empties a bit set or a counting bit set.
ghost use Rattle.std.specs.Prelude.{◌≡◌};
ghost use Rattle.steps.specs.Bits.ResetAll.{all_bits, all_counts, reset_all_want, reset_all_after, reset_all_kept};

use super::flags::{FIRST_ELEMENT, elements};
use crate::ask::{After, Ask, Op, Want};
use crate::copied::OneWord;
use crate::routine::{Ends, Routine};

/// Empties the words with the flags or the counts of a set, ascending. One step for each of them.
///
/// Each step swaps one word with 0. What stood in it lies in the room until the next step: whoever drives the
/// call hands it out. The places of one element are emptied in one step, those of different words in
/// different steps. Where there is no such word the call takes no step. After `reset_all` of the Rust crate's
/// `BitSet` and `CountingBitSet`.
#[derive(Clone, Copy)]
pub struct ResetAll {
    /// The word that is swapped next.
    pub word: u32,
    /// The word after the last.
    pub end: u32,
}

impl ResetAll {
    /// The call on the elements of a bit set that has taken no step.
    #[inline(always)]
    pub fn bits(capacity: u32) -> ResetAll
        ensures { result ≡ all_bits capacity }
    {
        ResetAll {
            word: FIRST_ELEMENT as u32,
            end: FIRST_ELEMENT as u32 + elements(capacity),
        }
    }

    /// The call on the counts of a counting bit set that has taken no step.
    #[inline(always)]
    pub fn counts(capacity: u32) -> ResetAll
        ensures { result ≡ all_counts capacity }
    {
        ResetAll {
            word: 0,
            end: capacity,
        }
    }
}

/// The steps of `reset_all`: given nothing, it keeps in its room the word that it swapped
/// last, and answers nothing.
impl Routine for ResetAll {
    ghost use Rattle.steps.specs.Bits.Laws.{reset_all_tells};

    type Given = ();

    type Room = OneWord;

    type End = ();

    type Value = u64;

    type Answer = ();

    ghost want_of = { λ c given. reset_all_want c };

    ghost after = { λ c given old. reset_all_after c old };

    ghost kept = { λ c. reset_all_kept };

    ghost value_of = { λ given room. room.0 };

    ghost answer_of = { λ end given room. end };

    ghost store_tells_nothing = { λ c given room m n t. reset_all_tells c room m n t };

    /// Swaps the next word with 0. Without a word left it asks for nothing, and ends with the next `take`.
    #[inline(always)]
    fn ask(self, _given: &()) -> Want<()> {
        if self.word < self.end {
            Want::Ask(Ask {
                word: self.word as usize,
                op: Op::Swap(0),
            })
        } else {
            Want::Nothing
        }
    }

    /// Puts the old word into the room and goes on to the next one, if there is one.
    #[inline(always)]
    fn take(self, _given: &(), room: &mut OneWord, answer: u64) -> After<ResetAll, ()> {
        room.0 = answer;
        if self.word as u64 + 1 < self.end as u64 {
            After::GoOn(ResetAll {
                word: self.word + 1,
                end: self.end,
            })
        } else {
            After::Done(())
        }
    }

    /// The old word that was swapped last.
    fn value(_given: &(), room: &OneWord) -> u64 {
        room.0
    }

    #[inline(always)]
    fn answer(_end: (), _given: &(), _room: &OneWord) {}
}

impl Ends for ResetAll {
    ghost use Rattle.steps.specs.Bits.ResetAll.{reset_all_left};
    ghost use Rattle.steps.specs.Bits.Laws.{reset_all_fewer};

    ghost left = { λ c. reset_all_left c };

    ghost fewer = { λ c d given n goes. reset_all_fewer c d n goes };
}
