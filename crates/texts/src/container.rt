//! The calls of the container, as a schedule names them and as they print.
ghost use Rattle.std.specs.Prelude.{◌≡◌, ◌+◌, ◌≤◌, ◌++◌, length, decimal};
ghost use Rattle.texts.specs.Text.{words_left};
ghost use Rattle.texts.specs.Grammar.{Gives};
ghost use Rattle.texts.specs.Container.{add, remove, replace, find, recover, look_call, any_container_call};
ghost use Rattle.texts.specs.Container.{container_call, placed_text, call_text, add_failure_text, remove_error_text};

use crate::error::Cause;
use crate::grammar::{number_at, owner_at};
use crate::indices::mode_at;
use crate::line::Line;
use crate::text::Rest;
use model::event::Start;
use model::families::container::ContainerStart;
use steps::container::enums::{ContainerAddFailure, ContainerRemoveError};

// What holds an owner is passed on by a match: the borrow checker has no rule for `?` on it.

/// An add, by a value and an owner.
#[tactic(auto, unfolding(crate::specs::Container::add))]
fn add(words: Rest<'_>) -> Result<(ContainerStart<u128>, Rest<'_>), Cause>
    ensures { Gives (λ x. (x.0, words_left x.1)) result (add (words_left words.entry)) }
{
    let (value, rest) = number_at(u128::MAX, words)?;
    let (owner, rest) = match owner_at(rest) {
        Ok(found) => found,
        Err(cause) => return Err(cause),
    };
    Ok((ContainerStart::Add(value, owner), rest))
}

/// A remove, by an index, an owner and a mode.
#[tactic(auto, unfolding(crate::specs::Container::remove))]
fn remove(words: Rest<'_>) -> Result<(ContainerStart<u128>, Rest<'_>), Cause>
    ensures { Gives (λ x. (x.0, words_left x.1)) result (remove (words_left words.entry)) }
{
    let (index, rest) = number_at(u128::from(u64::MAX), words)?;
    let (owner, rest) = match owner_at(rest) {
        Ok(found) => found,
        Err(cause) => return Err(cause),
    };
    let (mode, rest) = mode_at(rest)?;
    Ok((ContainerStart::Remove(index as u64, owner, mode), rest))
}

/// A replace, by an index, a value and an owner.
#[tactic(auto, unfolding(crate::specs::Container::replace))]
fn replace(words: Rest<'_>) -> Result<(ContainerStart<u128>, Rest<'_>), Cause>
    ensures { Gives (λ x. (x.0, words_left x.1)) result (replace (words_left words.entry)) }
{
    let (index, rest) = number_at(u128::from(u64::MAX), words)?;
    let (value, rest) = number_at(u128::MAX, rest)?;
    let (owner, rest) = match owner_at(rest) {
        Ok(found) => found,
        Err(cause) => return Err(cause),
    };
    Ok((ContainerStart::Replace(index as u64, value, owner), rest))
}

/// A find, by an owner.
#[tactic(auto, unfolding(crate::specs::Container::find))]
fn find(words: Rest<'_>) -> Result<(ContainerStart<u128>, Rest<'_>), Cause>
    ensures { Gives (λ x. (x.0, words_left x.1)) result (find (words_left words.entry)) }
{
    let (owner, rest) = match owner_at(words) {
        Ok(found) => found,
        Err(cause) => return Err(cause),
    };
    Ok((ContainerStart::Find(owner), rest))
}

/// A recovery, by an owner and a mode.
#[tactic(auto, unfolding(crate::specs::Container::recover))]
fn recover(words: Rest<'_>) -> Result<(ContainerStart<u128>, Rest<'_>), Cause>
    ensures { Gives (λ x. (x.0, words_left x.1)) result (recover (words_left words.entry)) }
{
    let (owner, rest) = match owner_at(words) {
        Ok(found) => found,
        Err(cause) => return Err(cause),
    };
    let (mode, rest) = mode_at(rest)?;
    Ok((ContainerStart::Recover(owner, mode), rest))
}

/// The call with this name that looks at the whole container and has no arguments, if there is one.
fn look_call(name: &[u8]) -> Option<ContainerStart<u128>>
    ensures { result ≡ look_call name.now }
{
    if name == b"get_state".as_slice() {
        Some(ContainerStart::GetState)
    } else if name == b"update_state".as_slice() {
        Some(ContainerStart::UpdateState)
    } else if name == b"len".as_slice() {
        Some(ContainerStart::Len)
    } else if name == b"is_empty".as_slice() {
        Some(ContainerStart::IsEmpty)
    } else if name == b"is_locked".as_slice() {
        Some(ContainerStart::IsLocked)
    } else {
        None
    }
}

/// The call of the container with this name, and the words that are left.
#[tactic(auto, unfolding(crate::specs::Container::any_container_call))]
fn any_container_call<'a>(
    name: &[u8],
    words: Rest<'a>,
) -> Result<(ContainerStart<u128>, Rest<'a>), Cause>
    ensures { Gives (λ x. (x.0, words_left x.1)) result
        (any_container_call name.now (words_left words.entry)) }
{
    if name == b"add".as_slice() {
        add(words)
    } else if name == b"remove".as_slice() {
        remove(words)
    } else if name == b"replace".as_slice() {
        replace(words)
    } else if name == b"find".as_slice() {
        find(words)
    } else if name == b"recover".as_slice() {
        recover(words)
    } else {
        match look_call(name) {
            Some(start) => Ok((start, words)),
            None => Err(Cause::UnknownCall),
        }
    }
}

/// A call of the container.
#[tactic(auto, unfolding(crate::specs::Container::container_call))]
pub fn container_call<'a>(name: &[u8], words: Rest<'a>) -> Result<(Start<u128>, Rest<'a>), Cause>
    ensures { Gives (λ x. (x.0, words_left x.1)) result
        (container_call name.now (words_left words.entry)) }
{
    let (start, rest) = match any_container_call(name, words) {
        Ok(found) => found,
        Err(cause) => return Err(cause),
    };
    Ok((Start::Container(start), rest))
}

impl Line {
    /// Adds an index and the value there.
    fn push_placed(&mut self, index: u64, value: u128)
        requires { length self.old + 79 ≤ 256 }
        ensures text { self.new ≡ self.old ++ placed_text index value }
        ensures short { length self.new ≤ length self.old + 79 }
    {
        self.push_number(u128::from(index));
        self.push(" ");
        self.push_number(value);
    }

    /// Writes an event of an index and the value there: whose it is, and what was done.
    pub fn push_placed_event(&mut self, party: u32, done: &str, index: u32, value: u128)
        requires { length self.old + length done.now + 118 ≤ 256 }
        ensures text { self.new ≡ self.old ++ decimal party ++ done.now ++ placed_text index value }
        ensures short { length self.new ≤ length self.old + length done.now + 118 }
    {
        self.push_party(party, done);
        self.push_placed(u64::from(index), value);
    }
}

/// Writes a call with its arguments.
pub fn print_call(line: &mut Line, start: ContainerStart<u128>)
    requires { length line.old + 128 ≤ 256 }
    ensures text { line.new ≡ line.old ++ call_text start }
    ensures short { length line.new ≤ length line.old + 128 }
{
    match start {
        ContainerStart::Add(value, owner) => {
            line.push("add ");
            line.push_number(value);
            line.push(" ");
            line.push_owner(owner);
        }
        ContainerStart::Remove(index, owner, mode) => {
            line.push("remove ");
            line.push_owned(index, owner);
            line.push(" ");
            line.push_mode(mode);
        }
        ContainerStart::Replace(index, value, owner) => {
            line.push("replace ");
            line.push_placed(index, value);
            line.push(" ");
            line.push_owner(owner);
        }
        ContainerStart::Find(owner) => {
            line.push("find ");
            line.push_owner(owner);
        }
        ContainerStart::Recover(owner, mode) => {
            line.push("recover ");
            line.push_owner(owner);
            line.push(" ");
            line.push_mode(mode);
        }
        ContainerStart::GetState => line.push("get_state"),
        ContainerStart::UpdateState => line.push("update_state"),
        ContainerStart::Len => line.push("len"),
        ContainerStart::IsEmpty => line.push("is_empty"),
        ContainerStart::IsLocked => line.push("is_locked"),
    }
}

/// Writes why no value was added.
pub fn print_add_failure(line: &mut Line, failure: ContainerAddFailure)
    requires { length line.old + 10 ≤ 256 }
    ensures text { line.new ≡ line.old ++ add_failure_text failure }
    ensures short { length line.new ≤ length line.old + 10 }
{
    match failure {
        ContainerAddFailure::OutOfSpace => line.push("OutOfSpace"),
        ContainerAddFailure::IsLocked => line.push("IsLocked"),
    }
}

/// Writes why no value was removed or replaced.
pub fn print_remove_error(line: &mut Line, failure: ContainerRemoveError)
    requires { length line.old + 34 ≤ 256 }
    ensures text { line.new ≡ line.old ++ remove_error_text failure }
    ensures short { length line.new ≤ length line.old + 34 }
{
    match failure {
        ContainerRemoveError::ContainerHandleNotOwnedByContainer => {
            line.push("ContainerHandleNotOwnedByContainer")
        }
    }
}
