//! The events that a step of a call of a loan channel writes, and what the channel's book keeps after it.
ghost use Rattle.std.specs.Prelude.{◌≡◌, ◌+◌, ◌≤◌, ◌++◌, fold, vec_len, vec_capacity, option_copied};
ghost use Rattle.steps.specs.Ask.{CameTo};
ghost use Rattle.model.specs.Families.Loan.Steps.{sent_at, given_back_at, pending, beside, push_effect, release_effect};
ghost use Rattle.model.specs.Families.Loan.Steps.{send_effect, receive_effect, take_back_effect, give_back_effect};
ghost use Rattle.model.specs.Families.Loan.Steps.{drains_effect, empties_effect, reclaim_effect, effect_of, claimed};
ghost use Rattle.model.specs.Families.Loan.Steps.{room_made, effects_of, book_after, ended_book, step};

use super::calls::{feed, goes_back};
use crate::party::flight_of;
use crate::words::word_at;
use model::event::{Answer, Event, Item, Start};
use model::families::loan::calls::LoanFlight;
use model::families::loan::effects::Effect;
use model::families::loan::{Book, LoanStart};
use model::families::{Flight, Went};
use model::party::Latest;
use steps::indices::unique::ReleaseStage;
use steps::loan::back::index_in;
use steps::loan::layout::{completion_word, submission_word};
use steps::loan::places::Place;
use steps::loan::reclaim::{Reclaim, ReclaimStage};
use steps::loan::send::SendStage;
use steps::loan::take_back::TakeBackStage;
use steps::queues::ring::READ;
use steps::queues::{overflow, ring};

/// The most events that a step writes, apart from the end of its call.
pub const MOST_EFFECTS: usize = 3;

/// The index of a send that has published it over a full submission queue and has not acted: it acts as soon
/// as the read position, which it knows, moves on. None where the call is no such send.
fn pending<T>(words: &Vec<u64>, flight: Option<&Flight<T>>) -> Option<u32>
    ensures { result ≡ pending words.now.items (option_copied flight.entry) }
{
    match flight {
        Some(Flight::Loan(LoanFlight::Send(run))) => match run.call.stage {
            SendStage::Pushes {
                stage: overflow::PushStage::MovesRead { read },
            } => {
                let position = word_at(words, submission_word(run.call.slots).wrapping_add(READ));
                if read == position {
                    Some(run.given)
                } else {
                    None
                }
            }
            _ => None,
        },
        _ => None,
    }
}

/// The send that acts if this party's step moves the read position of the submission queue. While a send
/// waits, only the receiver can move it.
pub fn look_beside<T>(
    book: &Book,
    words: &Vec<u64>,
    latest: &Latest<T>,
    number: u32,
) -> Option<(u32, u64)>
    ensures { result ≡ beside book.now words.now.items latest.now.entries number }
{
    if number as u64 != book.receiver {
        return None;
    }
    match pending(words, flight_of(latest, 0)) {
        Some(index) => Some((0, index as u64)),
        None => None,
    }
}

/// What stands in the cell of this position of the submission queue, which begins at the word `base`.
fn sent_at(base: usize, queue: u32, words: &Vec<u64>, position: u64) -> u64
    ensures { result ≡ sent_at base queue words.now.items position }
{
    let word = overflow::cell_word(queue, position);
    word_at(words, base.wrapping_add(word))
}

/// What stands in the cell of this position of the completion queue, which begins at the word `base` and has
/// a cell for each slot.
fn given_back_at(base: usize, slots: u32, words: &Vec<u64>, position: u64) -> u64
    ensures { result ≡ given_back_at base slots words.now.items position }
{
    let word = ring::cell_word(slots, 1, position);
    word_at(words, base.wrapping_add(word))
}

/// The effect of the next step of a send's push, which is handed this answer. Over a full queue the send
/// publishes first, and acts only when the read position moves on.
fn push_effect(
    base: usize,
    queue: u32,
    words: &Vec<u64>,
    index: u32,
    stage: overflow::PushStage,
    answer: u64,
) -> Effect
    ensures { result ≡ push_effect base queue words.now.items index stage answer }
{
    match stage {
        overflow::PushStage::StoresWrite { write, read } => {
            let waits = write.wrapping_sub(read) == queue as u64;
            if waits && word_at(words, base.wrapping_add(READ)) == read {
                Effect::Publishes(index)
            } else {
                Effect::PublishesAndActs(index)
            }
        }
        overflow::PushStage::MovesRead { read } if answer == read => {
            Effect::TakesOut(index, sent_at(base, queue, words, read))
        }
        _ => Effect::Quiet,
    }
}

/// The effect of the next step of a release: its first step frees the index, and its other
/// steps have no effect.
fn release_effect(index: u32, stage: ReleaseStage) -> Effect
    ensures { result ≡ release_effect index stage }
{
    match stage {
        ReleaseStage::ClearsFlag => Effect::Frees(index),
        _ => Effect::Quiet,
    }
}

/// The effect of the next step of a receive. `push` is the send that waits for the read position, if one
/// does; it acts when the receive moves that.
fn receive_effect(
    base: usize,
    queue: u32,
    words: &Vec<u64>,
    push: Option<(u32, u64)>,
    stage: overflow::PopStage,
    answer: u64,
) -> Effect
    ensures { result ≡ receive_effect base queue words.now.items push stage answer }
{
    match stage {
        overflow::PopStage::LoadsWrite { read } if answer == read => Effect::FindsNone,
        overflow::PopStage::MovesRead { read } if answer == read => {
            Effect::Receives(sent_at(base, queue, words, read), push)
        }
        _ => Effect::Quiet,
    }
}

/// The effect of the next step of a take-back, which first takes an index out of the completion queue and
/// then frees it.
fn take_back_effect(stage: TakeBackStage) -> Effect
    ensures { result ≡ take_back_effect stage }
{
    match stage {
        TakeBackStage::Pops {
            stage: ring::PopStage::StoresRead { .. },
            found,
        } => Effect::TakesBack(found.0),
        TakeBackStage::Pops { .. } => Effect::Quiet,
        TakeBackStage::Releases { index, stage } => release_effect(index, stage),
    }
}

/// The effect of the next step of a give-back: the index is returned when the write position moves.
fn give_back_effect(index: u64, stage: ring::PushStage) -> Effect
    ensures { result ≡ give_back_effect index stage }
{
    match stage {
        ring::PushStage::StoresWrite { .. } => Effect::Returns(index),
        _ => Effect::Quiet,
    }
}

/// The effect of the next step of a reclaim, while it empties the submission queue.
fn drains_effect(
    base: usize,
    queue: u32,
    words: &Vec<u64>,
    stage: overflow::PopStage,
    answer: u64,
) -> Effect
    ensures { result ≡ drains_effect base queue words.now.items stage answer }
{
    match stage {
        overflow::PopStage::MovesRead { read } if answer == read => {
            Effect::HandsOut(sent_at(base, queue, words, read))
        }
        _ => Effect::Quiet,
    }
}

/// The effect of the next step of a reclaim, while it empties the completion queue.
fn empties_effect(base: usize, slots: u32, words: &Vec<u64>, stage: ring::PopStage) -> Effect
    ensures { result ≡ empties_effect base slots words.now.items stage }
{
    match stage {
        ring::PopStage::StoresRead { read } => {
            Effect::TakesBack(given_back_at(base, slots, words, read))
        }
        _ => Effect::Quiet,
    }
}

/// The effect of the next step of a reclaim: it takes an index out of one of the queues, or frees one.
fn reclaim_effect(call: Reclaim, words: &Vec<u64>, answer: u64) -> Effect
    ensures { result ≡ reclaim_effect call.slots call.queue words.now.items call.stage answer }
{
    match call.stage {
        ReclaimStage::Drains { stage } => {
            drains_effect(
                submission_word(call.slots),
                call.queue,
                words,
                stage,
                answer,
            )
        }
        ReclaimStage::Empties { stage } => {
            let base = completion_word(call.slots, call.queue);
            empties_effect(base, call.slots, words, stage)
        }
        ReclaimStage::Releases { index, stage, .. } => release_effect(index, stage),
    }
}

/// The effect of the next step of the call over these words. `push` is the send that waits for the read
/// position, if one does.
fn effect_of(words: &Vec<u64>, push: Option<(u32, u64)>, flight: &LoanFlight, answer: u64) -> Effect
    ensures { result ≡ effect_of words.now.items push flight.now answer }
{
    match flight {
        LoanFlight::Loan(_) => Effect::Claims,
        LoanFlight::Send(run) => match run.call.stage {
            SendStage::Pushes { stage } => {
                let base = submission_word(run.call.slots);
                push_effect(base, run.call.queue, words, run.given, stage, answer)
            }
            SendStage::Releases { index, stage } => release_effect(index, stage),
        },
        LoanFlight::GiveUp(run) => release_effect(run.given, run.call.stage),
        LoanFlight::TakeBack(run) => take_back_effect(run.call.stage),
        LoanFlight::Receive(_, run) => {
            let pop = run.call.call;
            receive_effect(run.call.base, pop.capacity, words, push, pop.stage, answer)
        }
        LoanFlight::GiveBack(_, run) => give_back_effect(run.given, run.call.call.stage),
        LoanFlight::Reclaim(call) => reclaim_effect(*call, words, answer),
    }
}

/// Writes the events of this effect. `done` is the call's answer, if the step ends it.
fn tell<T: Copy>(events: &mut Vec<Event<T>>, number: u32, effect: Effect, done: Option<Answer<T>>)
    requires { vec_len events.old + MOST_EFFECTS ≤ vec_capacity events.old }
    ensures items { events.new.items ≡ events.old.items ++ effects_of number effect done }
    ensures few { vec_len events.new ≤ vec_len events.old + MOST_EFFECTS }
    ensures room { vec_capacity events.new ≡ vec_capacity events.old }
{
    match effect {
        Effect::Quiet => {}
        Effect::Claims => match done {
            Some(Answer::Index(index)) => events.push_reserved(Event::Claimed(number, index)),
            _ => {}
        },
        Effect::Publishes(index) => {
            events.push_reserved(Event::Published(number, Item::Index(index as u64)));
        }
        Effect::PublishesAndActs(index) => {
            events.push_reserved(Event::Published(number, Item::Index(index as u64)));
            let send = Start::Loan(LoanStart::Send(index as u64));
            events.push_reserved(Event::Acted(number, send, Answer::PoppedNone));
        }
        Effect::TakesOut(index, oldest) => {
            events.push_reserved(Event::HandedOut(number, Item::Index(oldest)));
            let send = Start::Loan(LoanStart::Send(index as u64));
            events.push_reserved(Event::Acted(number, send, Answer::PoppedIndex(oldest)));
        }
        Effect::FindsNone => {
            let receive = Start::Loan(LoanStart::Receive);
            events.push_reserved(Event::Acted(number, receive, Answer::PoppedNone));
        }
        Effect::Receives(oldest, push) => {
            events.push_reserved(Event::HandedOut(number, Item::Index(oldest)));
            let receive = Start::Loan(LoanStart::Receive);
            events.push_reserved(Event::Acted(number, receive, Answer::PoppedIndex(oldest)));
            match push {
                None => {}
                Some((other, index)) => {
                    let send = Start::Loan(LoanStart::Send(index));
                    events.push_reserved(Event::Acted(other, send, Answer::PoppedNone));
                }
            }
        }
        Effect::HandsOut(oldest) => {
            events.push_reserved(Event::HandedOut(number, Item::Index(oldest)));
        }
        Effect::Returns(index) => events.push_reserved(Event::Returned(number, index)),
        Effect::TakesBack(index) => events.push_reserved(Event::TakenBack(number, index)),
        Effect::Frees(index) => events.push_reserved(Event::Freed(number, index)),
    }
}

/// Notes in the sender's table what this effect does to the place of an index: free, loaned or sent.
fn note<T>(book: &mut Book, number: u32, effect: Effect, done: &Option<Answer<T>>)
    ensures { book.new ≡ fold book_after book.old (effects_of number effect done.now) }
{
    match effect {
        Effect::Claims => {
            if let Some(Answer::Index(index)) = done {
                book.places.put(*index, Place::Loaned);
            }
        }
        Effect::Publishes(index) => book.places.put(index, Place::Sent),
        Effect::PublishesAndActs(index) => book.places.put(index, Place::Sent),
        Effect::Frees(index) => {
            book.places.put(index, Place::Free);
            book.holders.put(index, None);
        }
        _ => {}
    }
}

/// Notes what the end of a call changes: who holds the index of a loan or a receive, and after a reclaim that
/// the next party is the receiver.
fn settle<T>(book: &mut Book, number: u32, start: LoanStart, done: &Option<Answer<T>>)
    ensures { book.new ≡ ended_book number start done.now book.old }
{
    match (start, done) {
        (LoanStart::Loan, Some(Answer::Index(index))) => {
            book.holders.put(*index, Some(number));
        }
        (LoanStart::Receive, Some(Answer::PoppedIndex(index))) => {
            book.holders.put(index_in(*index), Some(number));
        }
        (LoanStart::Reclaim, Some(Answer::Number(_))) => {
            book.receiver = book.receiver.wrapping_add(1);
        }
        _ => {}
    }
}

/// Hands the call an answer, changes it in place, notes in the book what the step does, and appends the
/// step's events to `events`.
pub fn perform<T: Copy>(
    flight: &mut LoanFlight,
    number: u32,
    start: LoanStart,
    words: &Vec<u64>,
    push: Option<(u32, u64)>,
    answer: u64,
    book: &mut Book,
    events: &mut Vec<Event<T>>,
) -> Went<T>
    requires { vec_len events.old + MOST_EFFECTS ≤ vec_capacity events.old }
    ensures after { CameTo result.done flight.new
        (step words.now.items push number start flight.old answer book.old).after }
    ensures back { result.back
        ≡ (step {T = T} words.now.items push number start flight.old answer book.old).back }
    ensures kept { book.new
        ≡ (step {T = T} words.now.items push number start flight.old answer book.old).kept }
    ensures wrote { events.new.items ≡ events.old.items
        ++ (step words.now.items push number start flight.old answer book.old).wrote }
    ensures few { vec_len events.new ≤ vec_len events.old + MOST_EFFECTS }
    ensures room { vec_capacity events.new ≡ vec_capacity events.old }
{
    let effect = effect_of(words, push, flight, answer);
    let back = goes_back(flight, answer);
    let done = feed(flight, &book.places, answer);
    note(book, number, effect, &done);
    settle(book, number, start, &done);
    tell(events, number, effect, done);
    Went { back, done }
}
