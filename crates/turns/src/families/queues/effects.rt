//! The events that a step of a call of a queue writes, and who holds the roles after it.
ghost use Rattle.std.specs.Prelude.{◌≡◌, ◌+◌, ◌≤◌, ◌<◌, ◌++◌, vec_len, vec_capacity, option_copied};
ghost use Rattle.steps.specs.Ask.{CameTo};
ghost use Rattle.model.specs.Families.Queues.Steps.{pending_at, pending, beside, push_effect, pop_effect};
ghost use Rattle.model.specs.Families.Queues.Steps.{overflow_push_effect, overflow_pop_effect, effect_of, acts_if_done};
ghost use Rattle.model.specs.Families.Queues.Steps.{effects_of, roles_after, step};
ghost use Rattle.model.specs.Coding.{coding_by};

use super::calls::{feed, goes_back};
use super::opening::holds;
use crate::party::flight_of;
use crate::words::word_at;
use model::event::{Answer, Event, Item, Start};
use model::families::queues::calls::{OverflowCall, QueueFlight, RingCall};
use model::families::queues::effects::Effect;
use model::families::queues::{QueueStart, Roles};
use model::families::{Flight, Went};
use model::party::Latest;
use steps::copied::Room;
use steps::queues::overflow::cell_word;
use steps::queues::ring::READ;
use steps::queues::{overflow, ring};
use steps::words::Words;

/// The most events that a step writes, apart from the end of its call.
pub const MOST_EFFECTS: usize = 3;

/// The value of a push that has published it over a full overflowing queue and has not acted: it acts as soon
/// as the read position moves on from `position`. None where the call is no such push.
fn pending_at<T>(position: u64, flight: Option<&Flight<T>>) -> Option<u64>
    ensures { result ≡ pending_at position (option_copied flight.entry) }
{
    match flight {
        Some(Flight::Queues(QueueFlight::Overflow(OverflowCall::Push(run)))) => match run
            .call
            .stage
        {
            overflow::PushStage::MovesRead { read } => {
                if read == position {
                    Some(run.given)
                } else {
                    None
                }
            }
            _ => None,
        },
        _ => None,
    }
}

/// The push that has published over a full overflowing queue and acts as soon as the read position moves on:
/// its party, and its value. Only the holder of the producer's role can have such a push.
fn pending<T>(position: u64, producer: Option<u32>, latest: &Latest<T>) -> Option<(u32, u64)>
    ensures { result ≡ pending position producer latest.now.entries }
{
    match producer {
        None => None,
        Some(number) => match pending_at(position, flight_of(latest, number)) {
            None => None,
            Some(value) => Some((number, value)),
        },
    }
}

/// The push that acts if this party's step moves the read position. While a push waits, only a pop of the
/// consumer can move it.
pub fn look_beside<T>(
    roles: &Roles,
    words: &Vec<u64>,
    latest: &Latest<T>,
    number: u32,
) -> Option<(u32, u64)>
    ensures { result ≡ beside roles.now words.now.items latest.now.entries number }
{
    if holds(roles.consumer, number) {
        pending(word_at(words, READ), roles.producer, latest)
    } else {
        None
    }
}

/// The effect of the next step of a push of the bounded queue on its value.
fn push_effect<T: Copy>(item: Item<T>, stage: &ring::PushStage) -> Effect<T>
    ensures { result ≡ push_effect item stage.now }
{
    match stage {
        ring::PushStage::LoadsWrite => Effect::Quiet,
        ring::PushStage::LoadsRead { .. } => Effect::Acts,
        ring::PushStage::StoresCell { .. } => Effect::Quiet,
        ring::PushStage::StoresWrite { .. } => Effect::Publishes(item),
    }
}

/// The effect of the next step of a pop of the bounded queue. `item` is the value that its room has.
fn pop_effect<T: Copy>(item: Item<T>, stage: &ring::PopStage) -> Effect<T>
    ensures { result ≡ pop_effect item stage.now }
{
    match stage {
        ring::PopStage::LoadsRead => Effect::Quiet,
        ring::PopStage::LoadsWrite { .. } => Effect::Acts,
        ring::PopStage::LoadsCell { .. } => Effect::Quiet,
        ring::PopStage::StoresRead { .. } => Effect::HandsOut(item),
    }
}

/// The effect of the next step of a push of an overflowing queue, which is handed this answer.
fn overflow_push_effect<T: Copy>(
    words: &Vec<u64>,
    capacity: u32,
    item: Item<T>,
    stage: &overflow::PushStage,
    answer: u64,
) -> Effect<T>
    ensures { result ≡ overflow_push_effect words.now.items capacity item stage.now answer }
{
    match *stage {
        overflow::PushStage::HandsBack => Effect::Acts,
        overflow::PushStage::LoadsWrite => Effect::Quiet,
        overflow::PushStage::LoadsRead { .. } => Effect::Quiet,
        overflow::PushStage::StoresCell { .. } => Effect::Quiet,
        overflow::PushStage::StoresWrite { write, read } => {
            if write.wrapping_sub(read) == capacity as u64 && word_at(words, READ) != read {
                Effect::PublishesAndActs(item)
            } else {
                Effect::Publishes(item)
            }
        }
        overflow::PushStage::MovesRead { read } => {
            if answer == read {
                Effect::TakesOut(word_at(words, cell_word(capacity, read)))
            } else {
                Effect::Quiet
            }
        }
        overflow::PushStage::LoadsCell { .. } => Effect::Quiet,
    }
}

/// The effect of the next step of a pop of an overflowing queue, which is handed this answer. `pending` is
/// the push that waits for the read position, if one does.
fn overflow_pop_effect<T: Copy>(
    words: &Vec<u64>,
    pending: Option<(u32, u64)>,
    capacity: u32,
    stage: &overflow::PopStage,
    answer: u64,
) -> Effect<T>
    ensures { result ≡ overflow_pop_effect words.now.items pending capacity stage.now answer }
{
    match *stage {
        overflow::PopStage::FindsNone => Effect::Acts,
        overflow::PopStage::LoadsRead => Effect::Quiet,
        overflow::PopStage::LoadsWrite { .. } => Effect::Acts,
        overflow::PopStage::LoadsCell { .. } => Effect::Quiet,
        overflow::PopStage::MovesRead { read } => {
            if answer != read {
                return Effect::Quiet;
            }
            let oldest = Item::Index(word_at(words, cell_word(capacity, read)));
            match pending {
                Some((number, value)) => Effect::MakesRoom(oldest, number, value),
                None => Effect::HandsOut(oldest),
            }
        }
    }
}

/// The effect of the next step of the call over these words. `waits` is the push of another party that has
/// published and not acted, if there is one.
fn effect_of<T: Words>(
    words: &Vec<u64>,
    waits: Option<(u32, u64)>,
    flight: &QueueFlight<T>,
    answer: u64,
) -> Effect<T>
    ensures { result ≡ effect_of (coding_by T.Words) words.now.items waits flight.now answer }
{
    match flight {
        QueueFlight::Role(_) => Effect::Quiet,
        QueueFlight::Length(_, _) => Effect::Quiet,
        QueueFlight::Indices(RingCall::Push(run)) => {
            push_effect(Item::Index(run.given), &run.call.stage)
        }
        QueueFlight::Indices(RingCall::Pop(run)) => {
            pop_effect(Item::Index(run.room.0), &run.call.stage)
        }
        QueueFlight::Indices(RingCall::Peek(_)) => Effect::Quiet,
        QueueFlight::Values(RingCall::Push(run)) => {
            push_effect(Item::Value(run.given), &run.call.stage)
        }
        QueueFlight::Values(RingCall::Pop(run)) => {
            pop_effect(Item::Value(run.room.value()), &run.call.stage)
        }
        QueueFlight::Values(RingCall::Peek(_)) => Effect::Quiet,
        QueueFlight::Overflow(OverflowCall::Push(run)) => {
            let item = Item::Index(run.given);
            overflow_push_effect(words, run.call.capacity, item, &run.call.stage, answer)
        }
        QueueFlight::Overflow(OverflowCall::Pop(run)) => {
            overflow_pop_effect(words, waits, run.call.capacity, &run.call.stage, answer)
        }
    }
}

/// Writes the event `Acted` of a call that is done, with its answer.
fn tell_act<T: Copy>(
    events: &mut Vec<Event<T>>,
    number: u32,
    start: &QueueStart<T>,
    done: Option<Answer<T>>,
)
    requires { vec_len events.old + 1 ≤ vec_capacity events.old }
    ensures items { events.new.items ≡ events.old.items ++ acts_if_done number start.now done }
    ensures few { vec_len events.new ≤ vec_len events.old + 1 }
    ensures room { vec_capacity events.new ≡ vec_capacity events.old }
{
    match done {
        None => {}
        Some(answer) => {
            events.push_reserved(Event::Acted(number, Start::Queues(*start), answer));
        }
    }
}

/// Writes the events of this effect. `done` is the call's answer, if the step ends it.
fn tell<T: Copy>(
    events: &mut Vec<Event<T>>,
    number: u32,
    start: &QueueStart<T>,
    effect: Effect<T>,
    done: Option<Answer<T>>,
)
    requires { vec_len events.old + MOST_EFFECTS ≤ vec_capacity events.old }
    ensures items { events.new.items ≡ events.old.items ++ effects_of number start.now effect done }
    ensures few { vec_len events.new ≤ vec_len events.old + MOST_EFFECTS }
    ensures room { vec_capacity events.new ≡ vec_capacity events.old }
{
    match effect {
        Effect::Quiet => {}
        Effect::Acts => tell_act(events, number, start, done),
        Effect::Publishes(item) => {
            events.push_reserved(Event::Published(number, item));
            tell_act(events, number, start, done);
        }
        Effect::PublishesAndActs(item) => {
            events.push_reserved(Event::Published(number, item));
            let start = Start::Queues(*start);
            events.push_reserved(Event::Acted(number, start, Answer::PoppedNone));
        }
        Effect::HandsOut(item) => {
            events.push_reserved(Event::HandedOut(number, item));
            tell_act(events, number, start, done);
        }
        Effect::TakesOut(index) => {
            events.push_reserved(Event::HandedOut(number, Item::Index(index)));
            let start = Start::Queues(*start);
            events.push_reserved(Event::Acted(number, start, Answer::PoppedIndex(index)));
        }
        Effect::MakesRoom(item, other, pushed) => {
            events.push_reserved(Event::HandedOut(number, item));
            tell_act(events, number, start, done);
            let push = Start::Queues(QueueStart::PushIndex(pushed));
            events.push_reserved(Event::Acted(other, push, Answer::PoppedNone));
        }
    }
}

/// Notes who holds the roles after the party's step: an acquire that answers true takes its role, and a
/// release that ends frees it.
fn settle<T: Copy>(roles: &mut Roles, number: u32, start: &QueueStart<T>, done: Option<Answer<T>>)
    ensures { roles.new ≡ roles_after number start.now done roles.old }
{
    match (start, done) {
        (QueueStart::AcquireProducer, Some(Answer::Truth(true))) => {
            roles.producer = Some(number);
        }
        (QueueStart::ReleaseProducer, Some(_)) => roles.producer = None,
        (QueueStart::AcquireConsumer, Some(Answer::Truth(true))) => {
            roles.consumer = Some(number);
        }
        (QueueStart::ReleaseConsumer, Some(_)) => roles.consumer = None,
        _ => {}
    }
}

/// Hands the call an answer, changes it in place, notes who holds the roles after the step, and appends the
/// step's events to `events`.
pub fn perform<T: Words>(
    flight: &mut QueueFlight<T>,
    number: u32,
    start: &QueueStart<T>,
    words: &Vec<u64>,
    waits: Option<(u32, u64)>,
    answer: u64,
    roles: &mut Roles,
    events: &mut Vec<Event<T>>,
) -> Went<T>
    requires { vec_len events.old + MOST_EFFECTS ≤ vec_capacity events.old }
    ensures after { CameTo result.done flight.new
        (step (coding_by T.Words) words.now.items waits number start.now flight.old answer roles.old).after }
    ensures back { result.back
        ≡ (step (coding_by T.Words) words.now.items waits number start.now flight.old answer roles.old).back }
    ensures kept { roles.new
        ≡ (step (coding_by T.Words) words.now.items waits number start.now flight.old answer roles.old).kept }
    ensures wrote { events.new.items ≡ events.old.items ++ (step (coding_by T.Words) words.now.items
        waits number start.now flight.old answer roles.old).wrote }
    ensures few { vec_len events.new ≤ vec_len events.old + MOST_EFFECTS }
    ensures room { vec_capacity events.new ≡ vec_capacity events.old }
{
    let effect = effect_of(words, waits, flight, answer);
    let back = goes_back(flight, answer);
    let done = feed(flight, answer);
    tell(events, number, start, effect, done);
    settle(roles, number, start, done);
    Went { back, done }
}
