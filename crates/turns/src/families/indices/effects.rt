//! What a step of a call of the unique index set writes down.
ghost use Rattle.std.specs.Prelude.{◌≡◌, ◌+◌, ◌≤◌, ◌++◌, fold, vec_len, vec_capacity};
ghost use Rattle.steps.specs.Ask.{CameTo};
ghost use Rattle.model.specs.Families.Indices.Steps.{clears, frees, effects, holders_after, step};

use super::calls::{feed, goes_back};
use model::event::{Answer, Event};
use model::families::Went;
use model::families::indices::calls::IndexFlight;
use model::families::indices::holders::Holders;
use steps::indices::enums::ReleaseState;
use steps::indices::unique::ReleaseStage;

/// The most events that a step of a call writes, apart from the end of its call.
pub const MOST_EFFECTS: usize = 1;

/// Whether a release clears its flag next.
fn clears(stage: ReleaseStage) -> bool
    ensures { result ≡ clears stage }
{
    match stage {
        ReleaseStage::ClearsFlag => true,
        _ => false,
    }
}

/// Writes the event of a step that frees the index `freed`, or with which an acquire claims an index or a
/// release locks the set, and notes who holds the index then.
fn tell<T: Copy>(
    events: &mut Vec<Event<T>>,
    holders: &mut Holders,
    number: u32,
    freed: Option<u32>,
    done: Option<Answer<T>>,
)
    requires { vec_len events.old + MOST_EFFECTS ≤ vec_capacity events.old }
    ensures items { events.new.items ≡ events.old.items ++ effects number freed done }
    ensures holders { holders.new ≡ fold holders_after holders.old (effects number freed done) }
    ensures few { vec_len events.new ≤ vec_len events.old + MOST_EFFECTS }
    ensures room { vec_capacity events.new ≡ vec_capacity events.old }
{
    match (freed, done) {
        (Some(index), _) => {
            holders.put(index, None);
            events.push_reserved(Event::Freed(number, index));
        }
        (None, Some(Answer::Index(index))) => {
            holders.put(index, Some(number));
            events.push_reserved(Event::Claimed(number, index));
        }
        (None, Some(Answer::State(ReleaseState::Locked))) => {
            events.push_reserved(Event::Locked(number));
        }
        _ => {}
    }
}

/// The index that the next step of the call frees, if any.
fn frees(flight: &IndexFlight) -> Option<u32>
    ensures { result ≡ frees flight.now }
{
    match flight {
        IndexFlight::ReleaseDefault(run) => {
            if clears(run.call.stage) {
                Some(run.given)
            } else {
                None
            }
        }
        IndexFlight::ReleaseLock(run) => {
            if clears(run.call.stage) {
                Some(run.given)
            } else {
                None
            }
        }
        _ => None,
    }
}

/// Hands the call an answer, changes it in place, notes who holds an index after the step, and appends the
/// step's event to `events`.
pub fn perform<T: Copy>(
    flight: &mut IndexFlight,
    number: u32,
    answer: u64,
    holders: &mut Holders,
    events: &mut Vec<Event<T>>,
) -> Went<T>
    requires { vec_len events.old + MOST_EFFECTS ≤ vec_capacity events.old }
    ensures after { CameTo result.done flight.new (step number flight.old answer holders.old).after }
    ensures back { result.back ≡ (step {T = T} number flight.old answer holders.old).back }
    ensures kept { holders.new ≡ (step {T = T} number flight.old answer holders.old).kept }
    ensures wrote { events.new.items ≡ events.old.items
        ++ (step number flight.old answer holders.old).wrote }
    ensures few { vec_len events.new ≤ vec_len events.old + MOST_EFFECTS }
    ensures room { vec_capacity events.new ≡ vec_capacity events.old }
{
    let back = goes_back(flight, answer);
    let freed = frees(flight);
    let done = feed(flight, answer);
    tell(events, holders, number, freed, done);
    Went { back, done }
}
