//! What a step of a call of the bit sets writes down.
ghost use Rattle.std.specs.Prelude.{◌≡◌, ◌+◌, ◌≤◌, ◌++◌, map, vec_len, vec_capacity};
ghost use Rattle.steps.specs.Ask.{CameTo};
ghost use Rattle.steps.specs.Bits.Places.{first_place};
ghost use Rattle.model.specs.Families.Bits.Calls.{after, goes_back, most_effects};
ghost use Rattle.model.specs.Families.Bits.Steps.{clear_events, effects_of};

use super::calls::{feed, goes_back};
use model::event::Event;
use model::families::Went;
use model::families::bits::calls::BitsFlight;
use steps::bits::bit_set::{ResetNextStage, SetStage, place_after};
use steps::bits::flags::has_flag;

/// The most events of a step that empties an element: one for each of its 64 places.
pub const MOST_CLEARED: usize = 64;

/// The first place of the element in this word.
fn first_place(word: u32) -> u64
    ensures { result ≡ first_place word }
{
    word.saturating_sub(1) as u64 * 64
}

/// Writes an event `Cleared` for each place whose flag stood in `found`, the old value of the element in this
/// word, ascending.
fn tell_cleared<T>(events: &mut Vec<Event<T>>, number: u32, word: u32, found: u64)
    requires { vec_len events.old + MOST_CLEARED ≤ vec_capacity events.old }
    ensures items { events.new.items ≡ events.old.items ++ clear_events number word found }
    ensures few { vec_len events.new ≤ vec_len events.old + MOST_CLEARED }
    ensures room { vec_capacity events.new ≡ vec_capacity events.old }
{
    let first = first_place(word);
    'bits: for bit in 0..64u64 {
        let place = first + bit;
        if has_flag(found, place) {
            events.push_reserved(Event::Cleared(number, place));
        }
    }
}

/// The most events that a step of the call writes, apart from the end of the call.
pub fn most_effects(flight: &BitsFlight) -> usize
    ensures most { result ≡ most_effects flight.now }
    ensures few { result ≤ 64 }
{
    match flight {
        BitsFlight::ResetAll(_) => MOST_CLEARED,
        _ => 1,
    }
}

/// Writes the event of the call's next step, if it has one, where `answer` is the old value of its word.
fn tell<T>(flight: &BitsFlight, number: u32, answer: u64, events: &mut Vec<Event<T>>)
    requires { vec_len events.old + most_effects flight.now ≤ vec_capacity events.old }
    ensures items { events.new.items ≡ events.old.items ++ effects_of number flight.now answer }
    ensures few { vec_len events.new ≤ vec_len events.old + most_effects flight.now }
    ensures room { vec_capacity events.new ≡ vec_capacity events.old }
{
    match flight {
        BitsFlight::Set(run) => match run.call.stage {
            SetStage::ExchangesElement { found } if answer == found => {
                events.push_reserved(Event::Set(number, run.given));
            }
            _ => {}
        },
        BitsFlight::ResetNext(run) => match run.call.stage {
            ResetNextStage::ExchangesElement {
                start,
                passed,
                found,
            } if answer == found => {
                let bit = place_after(run.call.capacity, start, passed);
                events.push_reserved(Event::Cleared(number, bit));
            }
            _ => {}
        },
        BitsFlight::ResetAll(run) => tell_cleared(events, number, run.call.word, answer),
        BitsFlight::Count(run) => events.push_reserved(Event::Counted(number, run.given)),
        BitsFlight::TakeAll(run) => {
            if answer > 0 {
                events.push_reserved(Event::TakenOut(number, run.call.word as u64, answer));
            }
        }
        BitsFlight::IsSet(_) => {}
        BitsFlight::CountOf(_) => {}
    }
}

/// Hands the call an answer, changes it in place, and appends the events of this step to `events`.
pub fn perform<T>(
    flight: &mut BitsFlight,
    number: u32,
    answer: u64,
    events: &mut Vec<Event<T>>,
) -> Went<T>
    requires { vec_len events.old + most_effects flight.old ≤ vec_capacity events.old }
    ensures after { CameTo result.done flight.new (after flight.old answer) }
    ensures back { result.back ≡ goes_back flight.old answer }
    ensures wrote { events.new.items ≡ events.old.items ++ effects_of number flight.old answer }
    ensures few { vec_len events.new ≤ vec_len events.old + most_effects flight.old }
    ensures room { vec_capacity events.new ≡ vec_capacity events.old }
{
    tell(flight, number, answer, events);
    let back = goes_back(flight, answer);
    let done = feed(flight, answer);
    Went { back, done }
}
