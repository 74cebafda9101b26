//! The calls of the robust index set, as a schedule names them and as they print.
ghost use Rattle.std.specs.Prelude.{◌≡◌, ◌+◌, ◌≤◌, ◌++◌, length, decimal};
ghost use Rattle.texts.specs.Text.{words_left};
ghost use Rattle.texts.specs.Grammar.{Gives};
ghost use Rattle.texts.specs.Indices.Robust.{acquire, release, find, recover, any_robust_call, robust_call, owned_text, call_text, failure_text};

use super::mode_at;
use crate::error::Cause;
use crate::grammar::{number_at, owner_at};
use crate::line::Line;
use crate::text::Rest;
use model::event::Start;
use model::families::indices::robust::RobustStart;
use steps::enums::OwnerId;
use steps::indices::enums::RobustUniqueIndexSetReleaseError;

// What holds an owner is passed on by a match: the borrow checker has no rule for `?` on it.

/// An acquire, by an owner.
#[tactic(auto, unfolding(crate::specs::Indices::Robust::acquire))]
fn acquire(words: Rest<'_>) -> Result<(RobustStart, Rest<'_>), Cause>
    ensures { Gives (λ x. (x.0, words_left x.1)) result (acquire (words_left words.entry)) }
{
    let (owner, rest) = match owner_at(words) {
        Ok(found) => found,
        Err(cause) => return Err(cause),
    };
    Ok((RobustStart::Acquire(owner), rest))
}

/// A release, by an index, an owner and a mode.
#[tactic(auto, unfolding(crate::specs::Indices::Robust::release))]
fn release(words: Rest<'_>) -> Result<(RobustStart, Rest<'_>), Cause>
    ensures { Gives (λ x. (x.0, words_left x.1)) result (release (words_left words.entry)) }
{
    let (index, rest) = number_at(u128::from(u64::MAX), words)?;
    let (owner, rest) = match owner_at(rest) {
        Ok(found) => found,
        Err(cause) => return Err(cause),
    };
    let (mode, rest) = mode_at(rest)?;
    Ok((RobustStart::Release(index as u64, owner, mode), rest))
}

/// A find, by an owner.
#[tactic(auto, unfolding(crate::specs::Indices::Robust::find))]
fn find(words: Rest<'_>) -> Result<(RobustStart, Rest<'_>), Cause>
    ensures { Gives (λ x. (x.0, words_left x.1)) result (find (words_left words.entry)) }
{
    let (owner, rest) = match owner_at(words) {
        Ok(found) => found,
        Err(cause) => return Err(cause),
    };
    Ok((RobustStart::Find(owner), rest))
}

/// A recovery, by a mode.
#[tactic(auto, unfolding(crate::specs::Indices::Robust::recover))]
fn recover(words: Rest<'_>) -> Result<(RobustStart, Rest<'_>), Cause>
    ensures { Gives (λ x. (x.0, words_left x.1)) result (recover (words_left words.entry)) }
{
    let (mode, rest) = mode_at(words)?;
    Ok((RobustStart::Recover(mode), rest))
}

/// The call of the robust set with this name, and the words that are left.
#[tactic(auto, unfolding(crate::specs::Indices::Robust::any_robust_call))]
fn any_robust_call<'a>(name: &[u8], words: Rest<'a>) -> Result<(RobustStart, Rest<'a>), Cause>
    ensures { Gives (λ x. (x.0, words_left x.1)) result
        (any_robust_call name.now (words_left words.entry)) }
{
    if name == b"acquire".as_slice() {
        acquire(words)
    } else if name == b"release".as_slice() {
        release(words)
    } else if name == b"find".as_slice() {
        find(words)
    } else if name == b"recover".as_slice() {
        recover(words)
    } else if name == b"borrowed_indices".as_slice() {
        Ok((RobustStart::BorrowedIndices, words))
    } else if name == b"is_locked".as_slice() {
        Ok((RobustStart::IsLocked, words))
    } else {
        Err(Cause::UnknownCall)
    }
}

/// A call of the robust index set.
#[tactic(auto, unfolding(crate::specs::Indices::Robust::robust_call))]
pub fn robust_call<'a>(name: &[u8], words: Rest<'a>) -> Result<(Start<u128>, Rest<'a>), Cause>
    ensures { Gives (λ x. (x.0, words_left x.1)) result
        (robust_call name.now (words_left words.entry)) }
{
    let (start, rest) = match any_robust_call(name, words) {
        Ok(found) => found,
        Err(cause) => return Err(cause),
    };
    Ok((Start::Robust(start), rest))
}

impl Line {
    /// Writes an owner.
    pub fn push_owner(&mut self, owner: OwnerId)
        requires { length self.old + 39 ≤ 256 }
        ensures text { self.new ≡ self.old ++ decimal owner }
        ensures short { length self.new ≤ length self.old + 39 }
    {
        self.push_number(u128::from(owner.value()));
    }

    /// Writes an index and its owner.
    pub fn push_owned(&mut self, index: u64, owner: OwnerId)
        requires { length self.old + 79 ≤ 256 }
        ensures text { self.new ≡ self.old ++ owned_text index owner }
        ensures short { length self.new ≤ length self.old + 79 }
    {
        self.push_number(u128::from(index));
        self.push(" ");
        self.push_owner(owner);
    }

    /// Writes an event of an index and its owner: whose it is, and what was done.
    pub fn push_owned_event(&mut self, party: u32, done: &str, index: u32, owner: OwnerId)
        requires { length self.old + length done.now + 118 ≤ 256 }
        ensures text { self.new ≡ self.old ++ decimal party ++ done.now ++ owned_text index owner }
        ensures short { length self.new ≤ length self.old + length done.now + 118 }
    {
        self.push_party(party, done);
        self.push_owned(u64::from(index), owner);
    }
}

/// Writes a call with its arguments.
pub fn print_call(line: &mut Line, start: RobustStart)
    requires { length line.old + 96 ≤ 256 }
    ensures text { line.new ≡ line.old ++ call_text start }
    ensures short { length line.new ≤ length line.old + 96 }
{
    match start {
        RobustStart::Acquire(owner) => {
            line.push("acquire ");
            line.push_owner(owner);
        }
        RobustStart::Release(index, owner, mode) => {
            line.push("release ");
            line.push_owned(index, owner);
            line.push(" ");
            line.push_mode(mode);
        }
        RobustStart::Find(owner) => {
            line.push("find ");
            line.push_owner(owner);
        }
        RobustStart::Recover(mode) => {
            line.push("recover ");
            line.push_mode(mode);
        }
        RobustStart::BorrowedIndices => line.push("borrowed_indices"),
        RobustStart::IsLocked => line.push("is_locked"),
    }
}

/// Writes why a release gives nothing back.
pub fn print_failure(line: &mut Line, failure: RobustUniqueIndexSetReleaseError)
    requires { length line.old + 30 ≤ 256 }
    ensures text { line.new ≡ line.old ++ failure_text failure }
    ensures short { length line.new ≤ length line.old + 30 }
{
    match failure {
        RobustUniqueIndexSetReleaseError::IndexIsNotOwnedByProvidedOwner => {
            line.push("IndexIsNotOwnedByProvidedOwner")
        }
    }
}
