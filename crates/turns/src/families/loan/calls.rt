//! The calls of a loan channel under way: what each wants, and how it goes on.
ghost use Rattle.std.specs.Prelude.{◌≡◌, false};
ghost use Rattle.steps.specs.Ask.{CameTo};
ghost use Rattle.model.specs.Families.Loan.Calls.{first, want, goes_back, after, reclaim_flight, reclaim_goes, party_of};
ghost use Rattle.model.specs.Families.Loan.Opening.{asks_for, is_past};
ghost use Rattle.model.specs.Families.Queues.Calls.{popped};

use crate::families::indices::calls::acquire_answer;
use model::event::Answer;
use model::families::loan::calls::LoanFlight;
use model::families::loan::{Book, LoanStart};
use steps::ask::{After, Want};
use steps::copied::OneWord;
use steps::indices::unique::{Acquire, DefaultMode, Release};
use steps::loan::layout::{completion_word, submission_word};
use steps::loan::parts::Part;
use steps::loan::places::Places;
use steps::loan::reclaim::Reclaim;
use steps::loan::send::Send;
use steps::loan::take_back::TakeBack;
use steps::queues::{overflow, ring};
use steps::routine::{Routine, Running};

/// The call that begins, on a channel with this number of slots. An index that it names is below that number.
pub fn first(slots: u32, book: &Book, start: LoanStart) -> LoanFlight
    requires { is_past slots (asks_for start) ≡ false }
    ensures { result ≡ first slots book.now start }
{
    match start {
        LoanStart::Loan => LoanFlight::Loan(Running {
            call: Acquire::new(slots),
            given: (),
            room: (),
        }),
        LoanStart::Send(index) => LoanFlight::Send(Running {
            call: Send::new(slots, book.queue),
            given: index as u32,
            room: (),
        }),
        LoanStart::GiveUp(index) => LoanFlight::GiveUp(Running {
            call: Release::new(slots),
            given: index as u32,
            room: (),
        }),
        LoanStart::TakeBack => LoanFlight::TakeBack(Running {
            call: TakeBack::new(slots, book.queue),
            given: (),
            room: (),
        }),
        LoanStart::Receive => LoanFlight::Receive(
            book.receiver,
            Running {
                call: Part {
                    base: submission_word(slots),
                    call: overflow::Pop::new(book.queue),
                },
                given: (),
                room: OneWord(0),
            },
        ),
        LoanStart::GiveBack(index) => LoanFlight::GiveBack(
            book.receiver,
            Running {
                call: Part {
                    base: completion_word(slots, book.queue),
                    call: ring::Push::new(slots),
                },
                given: index,
                room: (),
            },
        ),
        LoanStart::Reclaim => LoanFlight::Reclaim(Reclaim::new(slots, book.queue)),
    }
}

/// What a pop of an index answers in a machine: the index, or `PoppedNone`.
fn popped<T>(index: Option<u64>) -> Answer<T>
    ensures { result ≡ popped index }
{
    match index {
        None => Answer::PoppedNone,
        Some(index) => Answer::PoppedIndex(index),
    }
}

/// What a call that answers an index of 32 bits, or none, answers in a machine.
fn came_back<T>(index: Option<u32>) -> Answer<T>
    ensures { result ≡ popped index }
{
    match index {
        None => Answer::PoppedNone,
        Some(index) => Answer::PoppedIndex(index as u64),
    }
}

/// Hands a reclaim an answer and the sender's table, changes it in place, and returns its
/// answer once it is done.
fn reclaim_on<T>(call: &mut Reclaim, places: &Places, answer: u64) -> Option<Answer<T>>
    ensures { CameTo result (reclaim_flight call.new) (reclaim_goes places.now call.old answer) }
{
    match call.take(places, &mut (), answer) {
        After::GoOn(next) => {
            *call = next;
            None
        }
        After::Done(number) => Some(Answer::Number(number)),
    }
}

/// What the call wants next.
pub fn want(flight: &LoanFlight) -> Want<()>
    ensures { result ≡ want flight.now }
{
    match flight {
        LoanFlight::Loan(run) => run.want(),
        LoanFlight::Send(run) => run.want(),
        LoanFlight::GiveUp(run) => run.want(),
        LoanFlight::TakeBack(run) => run.want(),
        LoanFlight::Receive(_, run) => run.want(),
        LoanFlight::GiveBack(_, run) => run.want(),
        LoanFlight::Reclaim(call) => call.wants(),
    }
}

/// The party whose call it is, as a number of 64 bits.
pub fn party_of(flight: &LoanFlight) -> u64
    ensures { result ≡ party_of flight.now }
{
    match flight {
        LoanFlight::Receive(number, _) => *number,
        LoanFlight::GiveBack(number, _) => *number,
        _ => 0,
    }
}

/// Whether the call begins a turn of its loop again once it is handed this answer.
pub fn goes_back(flight: &LoanFlight, answer: u64) -> bool
    ensures { result ≡ goes_back flight.now answer }
{
    match flight {
        LoanFlight::Loan(run) => run.call.goes_back(answer),
        LoanFlight::Send(_) => false,
        LoanFlight::GiveUp(_) => false,
        LoanFlight::TakeBack(_) => false,
        LoanFlight::Receive(_, run) => run.call.call.goes_back(answer),
        LoanFlight::GiveBack(_, _) => false,
        LoanFlight::Reclaim(call) => call.stage.goes_back(call.queue, answer),
    }
}

/// Hands the call an answer, and a reclaim also the sender's table, changes it in place, and returns the
/// call's own answer once it is done.
pub fn feed<T>(flight: &mut LoanFlight, places: &Places, answer: u64) -> Option<Answer<T>>
    ensures { CameTo result flight.new (after places.now flight.old answer) }
{
    match flight {
        LoanFlight::Loan(run) => {
            let acquired = run.go_on(answer)?;
            Some(acquire_answer(acquired))
        }
        LoanFlight::Send(run) => {
            let back = run.go_on(answer)?;
            Some(came_back(back))
        }
        LoanFlight::GiveUp(run) => {
            let _state = run.go_on(answer)?;
            Some(Answer::Done)
        }
        LoanFlight::TakeBack(run) => {
            let back = run.go_on(answer)?;
            Some(came_back(back))
        }
        LoanFlight::Receive(_, run) => {
            let index = run.go_on(answer)?;
            Some(popped(index))
        }
        LoanFlight::GiveBack(_, run) => {
            let given = run.go_on(answer)?;
            Some(Answer::Truth(given))
        }
        LoanFlight::Reclaim(call) => reclaim_on(call, places, answer),
    }
}
