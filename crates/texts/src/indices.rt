//! The calls of the unique index set, as a schedule names them and as they print. The robust index set has files of
//! its own within.
ghost use Rattle.std.specs.Prelude.{◌≡◌, ◌+◌, ◌≤◌, ◌++◌, length};
ghost use Rattle.texts.specs.Text.{words_left};
ghost use Rattle.texts.specs.Grammar.{Gives};
ghost use Rattle.texts.specs.Indices.{mode_of, mode_at, release, any_index_call, index_call, mode_text, call_text, failure_text, state_text};

pub mod robust;

use crate::error::Cause;
use crate::grammar::{next_word, number_at};
use crate::line::Line;
use crate::text::Rest;
use model::event::Start;
use model::families::indices::IndexStart;
use steps::indices::enums::{ReleaseMode, ReleaseState, UniqueIndexSetAcquireFailure};

/// The mode that a word names.
fn mode_of(word: &[u8]) -> Result<ReleaseMode, Cause>
    ensures { Gives (λ mode. mode) result (mode_of word.now) }
{
    if word == b"default".as_slice() {
        Ok(ReleaseMode::Default)
    } else if word == b"lock".as_slice() {
        Ok(ReleaseMode::LockIfLastIndex)
    } else {
        Err(Cause::BadValue)
    }
}

/// A mode, and the words behind it.
#[tactic(auto, unfolding(crate::specs::Indices::mode_at))]
pub fn mode_at(words: Rest<'_>) -> Result<(ReleaseMode, Rest<'_>), Cause>
    ensures { Gives (λ x. (x.0, words_left x.1)) result (mode_at (words_left words.entry)) }
{
    let (word, rest) = next_word(words)?;
    let mode = mode_of(word)?;
    Ok((mode, rest))
}

/// A release, by an index and a mode.
#[tactic(auto, unfolding(crate::specs::Indices::release))]
fn release(words: Rest<'_>) -> Result<(IndexStart, Rest<'_>), Cause>
    ensures { Gives (λ x. (x.0, words_left x.1)) result (release (words_left words.entry)) }
{
    let (index, rest) = number_at(u128::from(u64::MAX), words)?;
    let (mode, rest) = mode_at(rest)?;
    Ok((IndexStart::Release(index as u64, mode), rest))
}

/// The call of the unique index set with this name, and the words that are left.
#[tactic(auto, unfolding(crate::specs::Indices::any_index_call))]
fn any_index_call<'a>(name: &[u8], words: Rest<'a>) -> Result<(IndexStart, Rest<'a>), Cause>
    ensures { Gives (λ x. (x.0, words_left x.1)) result
        (any_index_call name.now (words_left words.entry)) }
{
    if name == b"acquire".as_slice() {
        Ok((IndexStart::Acquire, words))
    } else if name == b"release".as_slice() {
        release(words)
    } else if name == b"borrowed_indices".as_slice() {
        Ok((IndexStart::BorrowedIndices, words))
    } else if name == b"is_locked".as_slice() {
        Ok((IndexStart::IsLocked, words))
    } else {
        Err(Cause::UnknownCall)
    }
}

/// A call of the unique index set.
#[tactic(auto, unfolding(crate::specs::Indices::index_call))]
pub fn index_call<'a>(name: &[u8], words: Rest<'a>) -> Result<(Start<u128>, Rest<'a>), Cause>
    ensures { Gives (λ x. (x.0, words_left x.1)) result
        (index_call name.now (words_left words.entry)) }
{
    let (start, rest) = any_index_call(name, words)?;
    Ok((Start::Indices(start), rest))
}

impl Line {
    /// Writes a mode.
    pub fn push_mode(&mut self, mode: ReleaseMode)
        requires { length self.old + 7 ≤ 256 }
        ensures text { self.new ≡ self.old ++ mode_text mode }
        ensures short { length self.new ≤ length self.old + 7 }
    {
        match mode {
            ReleaseMode::Default => self.push("default"),
            ReleaseMode::LockIfLastIndex => self.push("lock"),
        }
    }
}

/// Writes a call with its arguments.
pub fn print_call(line: &mut Line, start: IndexStart)
    requires { length line.old + 80 ≤ 256 }
    ensures text { line.new ≡ line.old ++ call_text start }
    ensures short { length line.new ≤ length line.old + 80 }
{
    match start {
        IndexStart::Acquire => line.push("acquire"),
        IndexStart::Release(index, mode) => {
            line.push("release ");
            line.push_number(u128::from(index));
            line.push(" ");
            line.push_mode(mode);
        }
        IndexStart::BorrowedIndices => line.push("borrowed_indices"),
        IndexStart::IsLocked => line.push("is_locked"),
    }
}

/// Writes why an acquire hands out no index.
pub fn print_failure(line: &mut Line, failure: UniqueIndexSetAcquireFailure)
    requires { length line.old + 12 ≤ 256 }
    ensures text { line.new ≡ line.old ++ failure_text failure }
    ensures short { length line.new ≤ length line.old + 12 }
{
    match failure {
        UniqueIndexSetAcquireFailure::OutOfIndices => line.push("OutOfIndices"),
        UniqueIndexSetAcquireFailure::IsLocked => line.push("IsLocked"),
    }
}

/// Writes whether a release has locked the set.
pub fn print_state(line: &mut Line, state: ReleaseState)
    requires { length line.old + 8 ≤ 256 }
    ensures text { line.new ≡ line.old ++ state_text state }
    ensures short { length line.new ≤ length line.old + 8 }
{
    match state {
        ReleaseState::Locked => line.push("Locked"),
        ReleaseState::Unlocked => line.push("Unlocked"),
    }
}
