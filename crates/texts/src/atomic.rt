//! The calls of the single value, as a schedule names them and as they print.
ghost use Rattle.std.specs.Prelude.{◌≡◌, ◌+◌, ◌≤◌, ◌++◌, length};
ghost use Rattle.texts.specs.Text.{words_left};
ghost use Rattle.texts.specs.Grammar.{Gives};
ghost use Rattle.texts.specs.Atomic.{store, any_value_call, value_call, call_text};

use crate::error::Cause;
use crate::grammar::number_at;
use crate::line::Line;
use crate::text::Rest;
use model::event::Start;
use model::families::atomic::AtomicStart;

/// A store, by the value that these words begin with.
#[tactic(auto, unfolding(crate::specs::Atomic::store))]
fn store(words: Rest<'_>) -> Result<(AtomicStart<u128>, Rest<'_>), Cause>
    ensures { Gives (λ x. (x.0, words_left x.1)) result (store (words_left words.entry)) }
{
    let (value, rest) = number_at(u128::MAX, words)?;
    Ok((AtomicStart::Store(value), rest))
}

/// The call of the single value with this name, and the words that are left.
#[tactic(auto, unfolding(crate::specs::Atomic::any_value_call))]
fn any_value_call<'a>(name: &[u8], words: Rest<'a>) -> Result<(AtomicStart<u128>, Rest<'a>), Cause>
    ensures { Gives (λ x. (x.0, words_left x.1)) result
        (any_value_call name.now (words_left words.entry)) }
{
    if name == b"acquire_producer".as_slice() {
        Ok((AtomicStart::AcquireProducer, words))
    } else if name == b"release_producer".as_slice() {
        Ok((AtomicStart::ReleaseProducer, words))
    } else if name == b"store".as_slice() {
        store(words)
    } else if name == b"load".as_slice() {
        Ok((AtomicStart::Load, words))
    } else if name == b"has_producer".as_slice() {
        Ok((AtomicStart::HasProducer, words))
    } else if name == b"version".as_slice() {
        Ok((AtomicStart::Version, words))
    } else {
        Err(Cause::UnknownCall)
    }
}

/// A call of the single value.
#[tactic(auto, unfolding(crate::specs::Atomic::value_call))]
pub fn value_call<'a>(name: &[u8], words: Rest<'a>) -> Result<(Start<u128>, Rest<'a>), Cause>
    ensures { Gives (λ x. (x.0, words_left x.1)) result
        (value_call name.now (words_left words.entry)) }
{
    let (start, rest) = any_value_call(name, words)?;
    Ok((Start::Atomic(start), rest))
}

/// Writes a call with its arguments.
pub fn print_call(line: &mut Line, start: AtomicStart<u128>)
    requires { length line.old + 80 ≤ 256 }
    ensures text { line.new ≡ line.old ++ call_text start }
    ensures short { length line.new ≤ length line.old + 80 }
{
    match start {
        AtomicStart::AcquireProducer => line.push("acquire_producer"),
        AtomicStart::ReleaseProducer => line.push("release_producer"),
        AtomicStart::Store(value) => {
            line.push("store ");
            line.push_number(value);
        }
        AtomicStart::Load => line.push("load"),
        AtomicStart::HasProducer => line.push("has_producer"),
        AtomicStart::Version => line.push("version"),
    }
}
