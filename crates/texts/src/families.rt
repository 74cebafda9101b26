//! The families of calls: the name of each kind, and a line for each call, answer and event, which passes on to the
//! family's file. An answer or an event that several families can have, of words and numbers alone, prints here.
ghost use Rattle.std.specs.Prelude.{◌≡◌, ◌+◌, ◌≤◌, ◌++◌, length};
ghost use Rattle.texts.specs.Families.{kind_named, call_named, some_text, text_of_call, text_of_answer, answered_text, text_of_event};
ghost use Rattle.texts.specs.Grammar.{Gives};
ghost use Rattle.texts.specs.Text.{words_left};

use crate::error::Cause;
use crate::indices::robust;
use crate::line::Line;
use crate::text::Rest;
use crate::{atomic, bits, container, indices, loan, queues};
use model::event::{Answer, Event, Start};
use model::turn::Kind;

/// The kind of this name.
pub fn kind_of(name: &[u8]) -> Option<Kind>
    ensures { result ≡ kind_named name.now }
{
    if name == b"index_queue".as_slice() {
        Some(Kind::IndexQueue)
    } else if name == b"overflow".as_slice() {
        Some(Kind::Overflow)
    } else if name == b"queue".as_slice() {
        Some(Kind::Queue)
    } else if name == b"atomic".as_slice() {
        Some(Kind::Atomic)
    } else if name == b"bits".as_slice() {
        Some(Kind::Bits)
    } else if name == b"counts".as_slice() {
        Some(Kind::Counts)
    } else if name == b"indices".as_slice() {
        Some(Kind::Indices)
    } else if name == b"robust".as_slice() {
        Some(Kind::Robust)
    } else if name == b"container".as_slice() {
        Some(Kind::Container)
    } else if name == b"loan".as_slice() {
        Some(Kind::Loan)
    } else {
        None
    }
}

/// The call of this name on a structure of this kind, with its arguments, and the words behind them.
pub fn call<'a>(kind: Kind, name: &[u8], words: Rest<'a>) -> Result<(Start<u128>, Rest<'a>), Cause>
    ensures { Gives (λ x. (x.0, words_left x.1)) result
        (call_named kind name.now (words_left words.entry)) }
{
    match kind {
        Kind::IndexQueue => queues::index_queue_call(name, words),
        Kind::Overflow => queues::overflow_call(name, words),
        Kind::Queue => queues::value_queue_call(name, words),
        Kind::Atomic => atomic::value_call(name, words),
        Kind::Bits => bits::bit_set_call(name, words),
        Kind::Counts => bits::counting_bit_set_call(name, words),
        Kind::Indices => indices::index_call(name, words),
        Kind::Robust => robust::robust_call(name, words),
        Kind::Container => container::container_call(name, words),
        Kind::Loan => loan::loan_call(name, words),
    }
}

/// Writes a call with its arguments.
pub fn print_call(line: &mut Line, start: &Start<u128>)
    requires { length line.old + 128 ≤ 256 }
    ensures text { line.new ≡ line.old ++ text_of_call start.now }
    ensures short { length line.new ≤ length line.old + 128 }
{
    match *start {
        Start::Queues(start) => queues::print_call(line, start),
        Start::Atomic(start) => atomic::print_call(line, start),
        Start::Bits(start) => bits::print_call(line, start),
        Start::Indices(start) => indices::print_call(line, start),
        Start::Robust(start) => robust::print_call(line, start),
        Start::Container(start) => container::print_call(line, start),
        Start::Loan(start) => loan::print_call(line, start),
    }
}

// Writes the number that there was.
fn print_some(line: &mut Line, number: u128)
    requires { length line.old + 60 ≤ 256 }
    ensures text { line.new ≡ line.old ++ some_text number }
    ensures short { length line.new ≤ length line.old + 60 }
{
    line.push("some ");
    line.push_number(number);
}

/// Writes an answer.
pub fn print_answer(line: &mut Line, answer: &Answer<u128>)
    requires { length line.old + 60 ≤ 256 }
    ensures text { line.new ≡ line.old ++ text_of_answer answer.now }
    ensures short { length line.new ≤ length line.old + 60 }
{
    match *answer {
        Answer::Done => line.push("done"),
        Answer::Truth(true) => line.push("true"),
        Answer::Truth(false) => line.push("false"),
        Answer::Number(number) => line.push_number(u128::from(number)),
        Answer::PoppedNone => line.push("none"),
        Answer::PoppedIndex(index) => print_some(line, u128::from(index)),
        Answer::Popped(value) => print_some(line, value),
        Answer::Loaded(value) => line.push_number(value),
        Answer::ResetNone => line.push("none"),
        Answer::Reset(bit) => print_some(line, u128::from(bit)),
        Answer::Index(index) => line.push_number(u128::from(index)),
        Answer::NoIndex(failure) => indices::print_failure(line, failure),
        Answer::State(state) => indices::print_state(line, state),
        Answer::NotOwned(failure) => robust::print_failure(line, failure),
        Answer::NoPlace(failure) => container::print_add_failure(line, failure),
        Answer::NotRemoved(error) => container::print_remove_error(line, error),
    }
}

// Writes a call and its answer.
fn print_answered(line: &mut Line, start: &Start<u128>, answer: &Answer<u128>)
    requires { length line.old + 192 ≤ 256 }
    ensures text { line.new ≡ line.old ++ answered_text start.now answer.now }
    ensures short { length line.new ≤ length line.old + 192 }
{
    print_call(line, start);
    line.push(" -> ");
    print_answer(line, answer);
}

/// Writes whose event it is, and what was done. A death is no party's.
pub fn print_event(line: &mut Line, event: &Event<u128>)
    requires { length line.old + 250 ≤ 256 }
    ensures text { line.new ≡ line.old ++ text_of_event event.now }
    ensures short { length line.new ≤ length line.old + 250 }
{
    match *event {
        Event::Begun(party, start) => {
            line.push_party(party, " begun ");
            print_call(line, &start);
        }
        Event::Published(party, item) => line.push_item_event(party, " published ", item),
        Event::HandedOut(party, item) => line.push_item_event(party, " handed_out ", item),
        Event::Set(party, bit) => line.push_event(party, " set ", bit),
        Event::Cleared(party, bit) => line.push_event(party, " cleared ", bit),
        Event::Counted(party, place) => line.push_event(party, " counted ", place),
        Event::TakenOut(party, place, count) => line.push_taken_out(party, place, count),
        Event::Claimed(party, index) => line.push_event(party, " claimed ", u64::from(index)),
        Event::Freed(party, index) => line.push_event(party, " freed ", u64::from(index)),
        Event::Locked(party) => line.push_party(party, " locked"),
        Event::Filled(party, at, owner) => line.push_owned_event(party, " filled ", at, owner),
        Event::Granted(party, at, owner) => line.push_owned_event(party, " granted ", at, owner),
        Event::FreedOf(party, at, owner) => line.push_owned_event(party, " freed ", at, owner),
        Event::Asked(party, at, owner) => line.push_owned_event(party, " asked ", at, owner),
        Event::Told(party, at, owner) => line.push_owned_event(party, " told ", at, owner),
        Event::Placed(party, at, value) => line.push_placed_event(party, " placed ", at, value),
        Event::Hidden(party, index) => line.push_event(party, " hidden ", u64::from(index)),
        Event::Copied(party, at, value) => line.push_placed_event(party, " copied ", at, value),
        Event::Shown(party, index) => line.push_event(party, " shown ", u64::from(index)),
        Event::Returned(party, index) => line.push_event(party, " returned ", index),
        Event::TakenBack(party, index) => line.push_event(party, " taken_back ", index),
        Event::Died(owner) => {
            line.push("died ");
            line.push_owner(owner);
        }
        Event::Acted(party, start, answer) => {
            line.push_party(party, " acted ");
            print_answered(line, &start, &answer);
        }
        Event::Finished(party, start, answer) => {
            line.push_party(party, " finished ");
            print_answered(line, &start, &answer);
        }
    }
}
