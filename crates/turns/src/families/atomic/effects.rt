//! What a step of a call of the single value writes down.
ghost use Rattle.std.specs.Prelude.{◌≡◌, ◌+◌, ◌≤◌, ◌++◌, vec_len, vec_capacity};
ghost use Rattle.steps.specs.Ask.{CameTo};
ghost use Rattle.model.specs.Families.Atomic.Steps.{acted, producer_after, step};
ghost use Rattle.model.specs.Coding.{coding_by};

use super::calls::{feed, goes_back};
use model::event::{Answer, Event, Start};
use model::families::Went;
use model::families::atomic::AtomicStart;
use model::families::atomic::calls::AtomicFlight;
use steps::words::Words;

/// The most events that a step writes: an act.
pub const MOST_EFFECTS: usize = 1;

/// Writes the event `Acted` where the step ends a load, or a store that answers true.
fn tell<T: Copy>(
    events: &mut Vec<Event<T>>,
    number: u32,
    start: &AtomicStart<T>,
    done: Option<Answer<T>>,
)
    requires { vec_len events.old + 1 ≤ vec_capacity events.old }
    ensures items { events.new.items ≡ events.old.items ++ acted number start.now done }
    ensures few { vec_len events.new ≤ vec_len events.old + 1 }
    ensures room { vec_capacity events.new ≡ vec_capacity events.old }
{
    match (start, done) {
        (AtomicStart::Store(_), Some(Answer::Truth(true))) => {
            events.push_reserved(Event::Acted(number, Start::Atomic(*start), Answer::Truth(true)));
        }
        (AtomicStart::Load, Some(answer)) => {
            events.push_reserved(Event::Acted(number, Start::Atomic(*start), answer));
        }
        _ => {}
    }
}

/// Notes who holds the producer's role after the party's step: an acquire that answers true takes it, and a
/// release that ends frees it.
fn settle<T: Copy>(
    producer: &mut Option<u32>,
    number: u32,
    start: &AtomicStart<T>,
    done: Option<Answer<T>>,
)
    ensures { producer.new ≡ producer_after number start.now done producer.old }
{
    match (start, done) {
        (AtomicStart::AcquireProducer, Some(Answer::Truth(true))) => *producer = Some(number),
        (AtomicStart::ReleaseProducer, Some(_)) => *producer = None,
        _ => {}
    }
}

/// Hands the call an answer, changes it in place, notes who holds the producer's role after the step, and
/// appends the step's events to `events`.
pub fn perform<T: Words>(
    flight: &mut AtomicFlight<T>,
    number: u32,
    start: &AtomicStart<T>,
    answer: u64,
    producer: &mut Option<u32>,
    events: &mut Vec<Event<T>>,
) -> Went<T>
    requires { vec_len events.old + MOST_EFFECTS ≤ vec_capacity events.old }
    ensures after { CameTo result.done flight.new
        (step (coding_by T.Words) number start.now flight.old answer producer.old).after }
    ensures back { result.back
        ≡ (step (coding_by T.Words) number start.now flight.old answer producer.old).back }
    ensures kept { producer.new
        ≡ (step (coding_by T.Words) number start.now flight.old answer producer.old).kept }
    ensures wrote { events.new.items ≡ events.old.items
        ++ (step (coding_by T.Words) number start.now flight.old answer producer.old).wrote }
    ensures few { vec_len events.new ≤ vec_len events.old + MOST_EFFECTS }
    ensures room { vec_capacity events.new ≡ vec_capacity events.old }
{
    let back = goes_back(flight, answer);
    let done = feed(flight, answer);
    tell(events, number, start, done);
    settle(producer, number, start, done);
    Went { back, done }
}
