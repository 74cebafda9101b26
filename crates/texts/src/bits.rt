//! The calls of the bit sets and of the counting bit sets, as a schedule names them and as they print.
ghost use Rattle.std.specs.Prelude.{◌≡◌, ◌+◌, ◌≤◌, ◌++◌, length, codes, decimal};
ghost use Rattle.texts.specs.Text.{words_left};
ghost use Rattle.texts.specs.Grammar.{Gives};
ghost use Rattle.texts.specs.Bits.{set, is_set, count, any_set_call, any_bit_set_call, any_counting_call, bit_set_call};
ghost use Rattle.texts.specs.Bits.{counting_bit_set_call, call_text, taken_text};

use crate::error::Cause;
use crate::grammar::number_at;
use crate::line::Line;
use crate::text::Rest;
use model::event::Start;
use model::families::bits::BitsStart;

/// A set, by the place that these words begin with.
#[tactic(auto, unfolding(crate::specs::Bits::set))]
fn set(words: Rest<'_>) -> Result<(BitsStart, Rest<'_>), Cause>
    ensures { Gives (λ x. (x.0, words_left x.1)) result (set (words_left words.entry)) }
{
    let (place, rest) = number_at(u128::from(u64::MAX), words)?;
    Ok((BitsStart::Set(place as u64), rest))
}

/// A look at a place, by the place that these words begin with.
#[tactic(auto, unfolding(crate::specs::Bits::is_set))]
fn is_set(words: Rest<'_>) -> Result<(BitsStart, Rest<'_>), Cause>
    ensures { Gives (λ x. (x.0, words_left x.1)) result (is_set (words_left words.entry)) }
{
    let (place, rest) = number_at(u128::from(u64::MAX), words)?;
    Ok((BitsStart::IsSet(place as u64), rest))
}

/// A look at a count, by the place that these words begin with.
#[tactic(auto, unfolding(crate::specs::Bits::count))]
fn count(words: Rest<'_>) -> Result<(BitsStart, Rest<'_>), Cause>
    ensures { Gives (λ x. (x.0, words_left x.1)) result (count (words_left words.entry)) }
{
    let (place, rest) = number_at(u128::from(u64::MAX), words)?;
    Ok((BitsStart::Count(place as u64), rest))
}

/// The call of either bit set with this name, and the words that are left.
#[tactic(auto, unfolding(crate::specs::Bits::any_set_call))]
fn any_set_call<'a>(name: &[u8], words: Rest<'a>) -> Result<(BitsStart, Rest<'a>), Cause>
    ensures { Gives (λ x. (x.0, words_left x.1)) result
        (any_set_call name.now (words_left words.entry)) }
{
    if name == b"set".as_slice() {
        set(words)
    } else if name == b"reset_all".as_slice() {
        Ok((BitsStart::ResetAll, words))
    } else {
        Err(Cause::UnknownCall)
    }
}

/// The call of a bit set with this name, and the words that are left.
fn any_bit_set_call<'a>(name: &[u8], words: Rest<'a>) -> Result<(BitsStart, Rest<'a>), Cause>
    ensures { Gives (λ x. (x.0, words_left x.1)) result
        (any_bit_set_call name.now (words_left words.entry)) }
{
    if name == b"reset_next".as_slice() {
        Ok((BitsStart::ResetNext, words))
    } else if name == b"is_set".as_slice() {
        is_set(words)
    } else {
        any_set_call(name, words)
    }
}

/// The call of a counting bit set with this name, and the words that are left.
fn any_counting_call<'a>(name: &[u8], words: Rest<'a>) -> Result<(BitsStart, Rest<'a>), Cause>
    ensures { Gives (λ x. (x.0, words_left x.1)) result
        (any_counting_call name.now (words_left words.entry)) }
{
    if name == b"count".as_slice() {
        count(words)
    } else {
        any_set_call(name, words)
    }
}

/// A call of a bit set.
#[tactic(auto, unfolding(crate::specs::Bits::bit_set_call))]
pub fn bit_set_call<'a>(name: &[u8], words: Rest<'a>) -> Result<(Start<u128>, Rest<'a>), Cause>
    ensures { Gives (λ x. (x.0, words_left x.1)) result
        (bit_set_call name.now (words_left words.entry)) }
{
    let (start, rest) = any_bit_set_call(name, words)?;
    Ok((Start::Bits(start), rest))
}

/// A call of a counting bit set.
#[tactic(auto, unfolding(crate::specs::Bits::counting_bit_set_call))]
pub fn counting_bit_set_call<'a>(
    name: &[u8],
    words: Rest<'a>,
) -> Result<(Start<u128>, Rest<'a>), Cause>
    ensures { Gives (λ x. (x.0, words_left x.1)) result
        (counting_bit_set_call name.now (words_left words.entry)) }
{
    let (start, rest) = any_counting_call(name, words)?;
    Ok((Start::Bits(start), rest))
}

impl Line {
    /// Writes whose call has taken which count out of which place.
    pub fn push_taken_out(&mut self, party: u32, place: u64, count: u64)
        requires { length self.old + 130 ≤ 256 }
        ensures text { self.new ≡
            self.old ++ decimal party ++ codes " taken_out " ++ taken_text place count }
        ensures short { length self.new ≤ length self.old + 130 }
    {
        self.push_event(party, " taken_out ", place);
        self.push(" ");
        self.push_number(u128::from(count));
    }
}

/// Writes a call with its arguments.
pub fn print_call(line: &mut Line, start: BitsStart)
    requires { length line.old + 80 ≤ 256 }
    ensures text { line.new ≡ line.old ++ call_text start }
    ensures short { length line.new ≤ length line.old + 80 }
{
    match start {
        BitsStart::Set(place) => {
            line.push("set ");
            line.push_number(u128::from(place));
        }
        BitsStart::ResetNext => line.push("reset_next"),
        BitsStart::ResetAll => line.push("reset_all"),
        BitsStart::IsSet(place) => {
            line.push("is_set ");
            line.push_number(u128::from(place));
        }
        BitsStart::Count(place) => {
            line.push("count ");
            line.push_number(u128::from(place));
        }
    }
}
