//! What a call that is stopped would do next, as the questions of bare lines ask (`tell`).
use model::families::Flight;
use model::families::bits::calls::BitsFlight;
use model::families::indices::calls::IndexFlight;
use model::families::indices::robust::calls::RobustFlight;
use model::families::queues::calls::{OverflowCall, QueueFlight};
use schedule::pen::Pen;
use steps::ask::{Ask, Op, Question, Want};
use steps::indices::unique::AcquireStage;
use turns::families::{atomic, bits, container, going, indices, loan, queues};

/// Whether the call would begin a turn of its loop again if the next step answered `answer`.
fn goes_back(call: &Flight<u128>, answer: u64) -> bool {
    match call {
        Flight::Queues(call) => queues::calls::goes_back(call, answer),
        Flight::Atomic(call) => atomic::calls::goes_back(call, answer),
        Flight::Bits(call) => bits::calls::goes_back(call, answer),
        Flight::Indices(call) => indices::calls::goes_back(call, answer),
        Flight::Robust(call) => indices::robust::calls::goes_back(call, answer),
        Flight::Container(call) => container::calls::goes_back(call, answer),
        Flight::Loan(call) => loan::calls::goes_back(call, answer),
    }
}

/// The index at which an acquire of a unique index set scans the claim flags. None for another call or stage.
fn scanned(call: &Flight<u128>) -> Option<u32> {
    let Flight::Indices(IndexFlight::Acquire(run)) = call else {
        return None;
    };
    match run.call.stage {
        AcquireStage::Scans { index } => Some(index),
        _ => None,
    }
}

/// The owner and the index that a recovery of a robust set would free if the next step answered `answer`.
/// None for another call, or where it would free none.
fn freed(call: &Flight<u128>, answer: u64) -> Option<(u64, u32)> {
    let Flight::Robust(RobustFlight::Recover(run)) = call else {
        return None;
    };
    let (owner, index) = run.call.frees(answer)?;
    Some((owner.value(), index))
}

/// The word in the room of a call that keeps one: a pop of an overflowing queue or a `TakeAll` of a bit set.
fn room(call: &Flight<u128>) -> Option<u64> {
    match call {
        Flight::Queues(QueueFlight::Overflow(OverflowCall::Pop(run))) => Some(run.room.0),
        Flight::Bits(BitsFlight::TakeAll(run)) => Some(run.room.0),
        _ => None,
    }
}

/// Prints the owner and the index that would be freed, or `none`.
fn tell_freed(freed: Option<(u64, u32)>, pen: &mut Pen) {
    match freed {
        Some((owner, index)) => {
            pen.large("", u128::from(owner));
            pen.large(" ", u128::from(index));
        }
        None => pen.put("none"),
    }
}

/// Prints the question that a call asks: about which index, and of which owner, if it says so.
fn tell_question(question: Question<()>, pen: &mut Pen) {
    match question {
        Question::Index(at) => pen.number("asks ", at),
        Question::Value(at, ()) => pen.number("asks ", at),
        Question::Owned(owner, at) => {
            pen.number("asks ", at);
            pen.large(" of ", u128::from(owner.value()));
        }
    }
}

/// Prints the operation and the number of its word. An exchange also has the number that it expects and the
/// one that it stores. None for an operation that no test asks about.
fn tell_operation(ask: Ask, pen: &mut Pen) -> Option<()> {
    match ask.op {
        Op::Load => pen.number("load ", ask.word),
        Op::Exchange(old, new) => {
            pen.number("exchange ", ask.word);
            pen.large(" ", u128::from(old));
            pen.large(" ", u128::from(new));
        }
        _ => return None,
    }
    Some(())
}

/// Prints what the call wants next: an operation, a decision, or nothing.
fn tell_wanted(want: Want<()>, pen: &mut Pen) -> Option<()> {
    match want {
        Want::Ask(ask) => tell_operation(ask, pen),
        Want::Nothing => {
            pen.put("nothing");
            Some(())
        }
        Want::Question(question) => {
            tell_question(question, pen);
            Some(())
        }
    }
}

/// Answers a question about the call. `back 7` asks whether it begins a turn of its loop again if it is
/// handed 7, `scans` where it scans, `frees 7` what it frees, `room` what it keeps, and `wants` what it wants
/// next. None for another question, or where the call has no such thing.
pub fn tell(call: &Flight<u128>, word: &str, rest: &str, pen: &mut Pen) -> Option<()> {
    pen.put("said ");
    match word {
        "back" => pen.put(if goes_back(call, rest.parse().ok()?) {
            "yes"
        } else {
            "no"
        }),
        "scans" => pen.large("", u128::from(scanned(call)?)),
        "frees" => tell_freed(freed(call, rest.parse().ok()?), pen),
        "room" => pen.large("", u128::from(room(call)?)),
        "wants" => tell_wanted(going(call).0, pen)?,
        _ => return None,
    }
    pen.put("\n");
    Some(())
}
