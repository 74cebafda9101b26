//! The calls of the queues, as a schedule names them and as they print.
ghost use Rattle.std.specs.Prelude.{◌≡◌, ◌+◌, ◌≤◌, ◌++◌, length, decimal};
ghost use Rattle.texts.specs.Text.{words_left};
ghost use Rattle.texts.specs.Grammar.{Gives};
ghost use Rattle.texts.specs.Queues.{call_without_value, push_index, push_value, any_queue_call, any_bounded_call};
ghost use Rattle.texts.specs.Queues.{index_queue_call, overflow_call, value_queue_call, call_text, item_text};

use crate::error::Cause;
use crate::grammar::number_at;
use crate::line::Line;
use crate::text::Rest;
use model::event::{Item, Start};
use model::families::queues::QueueStart;

/// The call with this name after which no value follows, if there is one.
fn call_without_value(name: &[u8]) -> Option<QueueStart<u128>>
    ensures { result ≡ call_without_value name.now }
{
    if name == b"acquire_producer".as_slice() {
        Some(QueueStart::AcquireProducer)
    } else if name == b"release_producer".as_slice() {
        Some(QueueStart::ReleaseProducer)
    } else if name == b"acquire_consumer".as_slice() {
        Some(QueueStart::AcquireConsumer)
    } else if name == b"release_consumer".as_slice() {
        Some(QueueStart::ReleaseConsumer)
    } else if name == b"pop".as_slice() {
        Some(QueueStart::Pop)
    } else if name == b"len".as_slice() {
        Some(QueueStart::Len)
    } else if name == b"is_empty".as_slice() {
        Some(QueueStart::IsEmpty)
    } else if name == b"is_full".as_slice() {
        Some(QueueStart::IsFull)
    } else if name == b"has_producer".as_slice() {
        Some(QueueStart::HasProducer)
    } else if name == b"has_consumer".as_slice() {
        Some(QueueStart::HasConsumer)
    } else {
        None
    }
}

/// A push of the index that these words begin with.
#[tactic(auto, unfolding(crate::specs::Queues::push_index))]
fn push_index(words: Rest<'_>) -> Result<(Start<u128>, Rest<'_>), Cause>
    ensures { Gives (λ x. (x.0, words_left x.1)) result (push_index (words_left words.entry)) }
{
    let (index, rest) = number_at(u128::from(u64::MAX), words)?;
    Ok((Start::Queues(QueueStart::PushIndex(index as u64)), rest))
}

/// A push of the value that these words begin with.
#[tactic(auto, unfolding(crate::specs::Queues::push_value))]
fn push_value(words: Rest<'_>) -> Result<(Start<u128>, Rest<'_>), Cause>
    ensures { Gives (λ x. (x.0, words_left x.1)) result (push_value (words_left words.entry)) }
{
    let (value, rest) = number_at(u128::MAX, words)?;
    Ok((Start::Queues(QueueStart::Push(value)), rest))
}

/// The call with this name, of those that every queue has, and the words that are left.
#[tactic(auto, unfolding(crate::specs::Queues::any_queue_call))]
fn any_queue_call<'a>(name: &[u8], words: Rest<'a>) -> Result<(Start<u128>, Rest<'a>), Cause>
    ensures { Gives (λ x. (x.0, words_left x.1)) result
        (any_queue_call name.now (words_left words.entry)) }
{
    match call_without_value(name) {
        Some(start) => Ok((Start::Queues(start), words)),
        None => Err(Cause::UnknownCall),
    }
}

/// The call with this name, of those that both bounded queues have, and the words that are left.
fn any_bounded_call<'a>(name: &[u8], words: Rest<'a>) -> Result<(Start<u128>, Rest<'a>), Cause>
    ensures { Gives (λ x. (x.0, words_left x.1)) result
        (any_bounded_call name.now (words_left words.entry)) }
{
    if name == b"peek".as_slice() {
        Ok((Start::Queues(QueueStart::Peek), words))
    } else {
        any_queue_call(name, words)
    }
}

/// A call of a bounded queue of indices.
#[tactic(auto, unfolding(crate::specs::Queues::index_queue_call))]
pub fn index_queue_call<'a>(name: &[u8], words: Rest<'a>) -> Result<(Start<u128>, Rest<'a>), Cause>
    ensures { Gives (λ x. (x.0, words_left x.1)) result
        (index_queue_call name.now (words_left words.entry)) }
{
    if name == b"push".as_slice() {
        push_index(words)
    } else {
        any_bounded_call(name, words)
    }
}

/// A call of an overflowing queue.
#[tactic(auto, unfolding(crate::specs::Queues::overflow_call))]
pub fn overflow_call<'a>(name: &[u8], words: Rest<'a>) -> Result<(Start<u128>, Rest<'a>), Cause>
    ensures { Gives (λ x. (x.0, words_left x.1)) result
        (overflow_call name.now (words_left words.entry)) }
{
    if name == b"push".as_slice() {
        push_index(words)
    } else {
        any_queue_call(name, words)
    }
}

/// A call of a queue of values.
#[tactic(auto, unfolding(crate::specs::Queues::value_queue_call))]
pub fn value_queue_call<'a>(name: &[u8], words: Rest<'a>) -> Result<(Start<u128>, Rest<'a>), Cause>
    ensures { Gives (λ x. (x.0, words_left x.1)) result
        (value_queue_call name.now (words_left words.entry)) }
{
    if name == b"push".as_slice() {
        push_value(words)
    } else {
        any_bounded_call(name, words)
    }
}

impl Line {
    /// Adds an index or a value.
    fn push_item(&mut self, item: Item<u128>)
        requires { length self.old + 39 ≤ 256 }
        ensures text { self.new ≡ self.old ++ item_text item }
        ensures short { length self.new ≤ length self.old + 39 }
    {
        match item {
            Item::Index(number) => self.push_number(u128::from(number)),
            Item::Value(number) => self.push_number(number),
        }
    }

    /// Writes an event of a queue: whose it is, what was done, and to which of its values.
    pub fn push_item_event(&mut self, party: u32, done: &str, item: Item<u128>)
        requires { length self.old + length done.now + 78 ≤ 256 }
        ensures text { self.new ≡ self.old ++ decimal party ++ done.now ++ item_text item }
        ensures short { length self.new ≤ length self.old + length done.now + 78 }
    {
        self.push_party(party, done);
        self.push_item(item);
    }
}

/// Writes a call with its arguments.
pub fn print_call(line: &mut Line, start: QueueStart<u128>)
    requires { length line.old + 80 ≤ 256 }
    ensures text { line.new ≡ line.old ++ call_text start }
    ensures short { length line.new ≤ length line.old + 80 }
{
    match start {
        QueueStart::AcquireProducer => line.push("acquire_producer"),
        QueueStart::ReleaseProducer => line.push("release_producer"),
        QueueStart::AcquireConsumer => line.push("acquire_consumer"),
        QueueStart::ReleaseConsumer => line.push("release_consumer"),
        QueueStart::PushIndex(index) => {
            line.push("push ");
            line.push_number(u128::from(index));
        }
        QueueStart::Push(value) => {
            line.push("push ");
            line.push_number(value);
        }
        QueueStart::Pop => line.push("pop"),
        QueueStart::Peek => line.push("peek"),
        QueueStart::HasProducer => line.push("has_producer"),
        QueueStart::HasConsumer => line.push("has_consumer"),
        QueueStart::Len => line.push("len"),
        QueueStart::IsEmpty => line.push("is_empty"),
        QueueStart::IsFull => line.push("is_full"),
    }
}
