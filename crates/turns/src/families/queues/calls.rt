//! The calls of the queues under way: what each wants, and how it goes on.
ghost use Rattle.std.specs.Prelude.{◌≡◌, ◌≢◌, false, Some, is_none, IfOk};
ghost use Rattle.steps.specs.Ask.{CameTo};
ghost use Rattle.model.specs.declared.families.queues.QueueKind.TheVariants.{Overflow, Queue};
ghost use Rattle.model.specs.Families.Queues.Calls.{acquire_of, release_of, look_of, push_index_of, push_value_of, pop_of, peek_of};
ghost use Rattle.model.specs.Families.Queues.Calls.{length_of, first, want, after, goes_back, popped, popped_value};
ghost use Rattle.model.specs.Families.Queues.Calls.{length_answer};
ghost use Rattle.model.specs.Coding.{coding_by};

use model::event::Answer;
use model::families::queues::calls::{LengthOf, OverflowCall, QueueFlight, RingCall, RoleCall};
use model::families::queues::{QueueKind, QueueStart};
use model::room::Apart;
use std::alloc::{AllocError, Global};
use steps::ask::Want;
use steps::copied::OneWord;
use steps::queues::lengths::Len;
use steps::queues::overflow;
use steps::queues::peek::Peek;
use steps::queues::ring::{CONSUMER, PRODUCER, Pop, Push};
use steps::queues::roles::{AcquireRole, LookRole, ReleaseRole};
use steps::routine::Running;
use steps::words::Words;

/// An acquire of the role with this word, before its step.
fn acquire_of<T>(word: usize) -> QueueFlight<T>
    ensures { result ≡ acquire_of word }
{
    QueueFlight::Role(RoleCall::Acquire(Running {
        call: AcquireRole { word },
        given: (),
        room: (),
    }))
}

/// A release of the role with this word, before its step.
fn release_of<T>(word: usize) -> QueueFlight<T>
    ensures { result ≡ release_of word }
{
    QueueFlight::Role(RoleCall::Release(Running {
        call: ReleaseRole { word },
        given: (),
        room: (),
    }))
}

/// A look at the role with this word, before its step.
fn look_of<T>(word: usize) -> QueueFlight<T>
    ensures { result ≡ look_of word }
{
    QueueFlight::Role(RoleCall::Look(Running {
        call: LookRole { word },
        given: (),
        room: (),
    }))
}

/// A push of this index, which a queue of values does not have.
fn push_index_of<T: Words>(kind: QueueKind, capacity: u32, index: u64) -> QueueFlight<T>
    requires { kind ≢ Queue }
    ensures { push_index_of kind capacity index ≡ Some result }
{
    match kind {
        QueueKind::IndexQueue => QueueFlight::Indices(RingCall::Push(Running {
            call: Push::new(capacity),
            given: index,
            room: (),
        })),
        QueueKind::Overflow => QueueFlight::Overflow(OverflowCall::Push(Running {
            call: overflow::Push::new(capacity),
            given: index,
            room: OneWord(0),
        })),
        QueueKind::Queue => unreachable!(),
    }
}

/// A push of this value, which the queue of values alone has.
fn push_value_of<T: Words>(capacity: u32, value: T) -> QueueFlight<T>
    ensures { push_value_of Queue capacity value ≡ Some result }
{
    QueueFlight::Values(RingCall::Push(Running {
        call: Push::new(capacity),
        given: value,
        room: (),
    }))
}

/// The pop as it begins, in a queue of this kind and capacity.
fn pop_of<T: Words>(
    alloc: Global,
    kind: QueueKind,
    capacity: u32,
) -> Result<QueueFlight<T>, AllocError>
    ensures { IfOk result (λ flight. flight ≡ pop_of kind capacity) }
{
    let flight = match kind {
        QueueKind::IndexQueue => QueueFlight::Indices(RingCall::Pop(Running {
            call: Pop::new(capacity),
            given: (),
            room: OneWord(0),
        })),
        QueueKind::Overflow => QueueFlight::Overflow(OverflowCall::Pop(Running {
            call: overflow::Pop::new(capacity),
            given: (),
            room: OneWord(0),
        })),
        QueueKind::Queue => QueueFlight::Values(RingCall::Pop(Running {
            call: Pop::new(capacity),
            given: (),
            room: Apart::new(alloc)?,
        })),
    };
    Ok(flight)
}

/// A look at the oldest value, which the overflowing queue does not have.
fn peek_of<T: Words>(
    alloc: Global,
    kind: QueueKind,
    capacity: u32,
) -> Result<QueueFlight<T>, AllocError>
    requires { kind ≢ Overflow }
    ensures { IfOk result (λ flight. peek_of kind capacity ≡ Some flight) }
{
    let flight = match kind {
        QueueKind::IndexQueue => QueueFlight::Indices(RingCall::Peek(Running {
            call: Peek::new(capacity),
            given: (),
            room: OneWord(0),
        })),
        QueueKind::Overflow => unreachable!(),
        QueueKind::Queue => QueueFlight::Values(RingCall::Peek(Running {
            call: Peek::new(capacity),
            given: (),
            room: Apart::new(alloc)?,
        })),
    };
    Ok(flight)
}

/// A call on the length (`len`, `is_empty` or `is_full`), before its first step.
fn length_of<T>(which: LengthOf, capacity: u32) -> QueueFlight<T>
    ensures { result ≡ length_of which capacity }
{
    QueueFlight::Length(
        which,
        Running {
            call: Len::new(capacity),
            given: (),
            room: (),
        },
    )
}

/// The call that begins, which the queue has, unless memory for its room is refused.
pub fn first<T: Words>(
    alloc: Global,
    kind: QueueKind,
    capacity: u32,
    start: &QueueStart<T>,
) -> Result<QueueFlight<T>, AllocError>
    requires { is_none (first kind capacity start.now) ≡ false }
    ensures { IfOk result (λ flight. first kind capacity start.now ≡ Some flight) }
{
    let flight = match *start {
        QueueStart::AcquireProducer => acquire_of(PRODUCER),
        QueueStart::ReleaseProducer => release_of(PRODUCER),
        QueueStart::AcquireConsumer => acquire_of(CONSUMER),
        QueueStart::ReleaseConsumer => release_of(CONSUMER),
        QueueStart::PushIndex(index) => push_index_of(kind, capacity, index),
        QueueStart::Push(value) => push_value_of(capacity, value),
        QueueStart::Pop => pop_of(alloc, kind, capacity)?,
        QueueStart::Peek => peek_of(alloc, kind, capacity)?,
        QueueStart::HasProducer => look_of(PRODUCER),
        QueueStart::HasConsumer => look_of(CONSUMER),
        QueueStart::Len => length_of(LengthOf::Len, capacity),
        QueueStart::IsEmpty => length_of(LengthOf::IsEmpty, capacity),
        QueueStart::IsFull => length_of(LengthOf::IsFull, capacity),
    };
    Ok(flight)
}

/// What a pop of an index answers.
fn popped<T: Copy>(answer: Option<u64>) -> Answer<T>
    ensures { result ≡ popped answer }
{
    match answer {
        Some(index) => Answer::PoppedIndex(index),
        None => Answer::PoppedNone,
    }
}

/// What a pop of a value answers.
fn popped_value<T: Copy>(answer: Option<T>) -> Answer<T>
    ensures { result ≡ popped_value answer }
{
    match answer {
        Some(value) => Answer::Popped(value),
        None => Answer::PoppedNone,
    }
}

/// What a call on the length answers where `number` values wait in a queue of this capacity.
fn length_answer<T: Copy>(which: LengthOf, capacity: u32, number: u64) -> Answer<T>
    ensures { result ≡ length_answer which capacity number }
{
    match which {
        LengthOf::Len => Answer::Number(number),
        LengthOf::IsEmpty => Answer::Truth(number == 0),
        LengthOf::IsFull => Answer::Truth(number == u64::from(capacity)),
    }
}

/// What the call wants next.
pub fn want<T: Words>(flight: &QueueFlight<T>) -> Want<()>
    ensures { result ≡ want (coding_by T.Words) flight.now }
{
    match flight {
        QueueFlight::Role(RoleCall::Acquire(run)) => run.want(),
        QueueFlight::Role(RoleCall::Release(run)) => run.want(),
        QueueFlight::Role(RoleCall::Look(run)) => run.want(),
        QueueFlight::Indices(RingCall::Push(run)) => run.want(),
        QueueFlight::Indices(RingCall::Pop(run)) => run.want(),
        QueueFlight::Indices(RingCall::Peek(run)) => run.want(),
        QueueFlight::Values(RingCall::Push(run)) => run.want(),
        QueueFlight::Values(RingCall::Pop(run)) => run.want(),
        QueueFlight::Values(RingCall::Peek(run)) => run.want(),
        QueueFlight::Overflow(OverflowCall::Push(run)) => run.want(),
        QueueFlight::Overflow(OverflowCall::Pop(run)) => run.want(),
        QueueFlight::Length(_, run) => run.want(),
    }
}

/// Whether the call begins a turn of its loop again once it is handed this answer.
pub fn goes_back<T: Words>(flight: &QueueFlight<T>, answer: u64) -> bool
    ensures { result ≡ goes_back flight.now answer }
{
    match flight {
        QueueFlight::Role(_) => false,
        QueueFlight::Indices(_) => false,
        QueueFlight::Values(_) => false,
        QueueFlight::Overflow(OverflowCall::Push(_)) => false,
        QueueFlight::Overflow(OverflowCall::Pop(run)) => run.call.goes_back(answer),
        QueueFlight::Length(_, run) => run.call.turns_back(answer),
    }
}

/// Hands the call an answer, changes it in place, and returns the call's own answer once it is done.
pub fn feed<T: Words>(flight: &mut QueueFlight<T>, answer: u64) -> Option<Answer<T>>
    ensures { CameTo result flight.new (after (coding_by T.Words) flight.old answer) }
{
    match flight {
        QueueFlight::Role(call) => match call {
            RoleCall::Acquire(run) => match run.go_on(answer) {
                Some(taken) => Some(Answer::Truth(taken)),
                None => None,
            },
            RoleCall::Release(run) => match run.go_on(answer) {
                Some(()) => Some(Answer::Done),
                None => None,
            },
            RoleCall::Look(run) => match run.go_on(answer) {
                Some(taken) => Some(Answer::Truth(taken)),
                None => None,
            },
        },
        QueueFlight::Indices(call) => match call {
            RingCall::Push(run) => match run.go_on(answer) {
                Some(pushed) => Some(Answer::Truth(pushed)),
                None => None,
            },
            RingCall::Pop(run) => match run.go_on(answer) {
                Some(value) => Some(popped(value)),
                None => None,
            },
            RingCall::Peek(run) => match run.go_on(answer) {
                Some(value) => Some(popped(value)),
                None => None,
            },
        },
        QueueFlight::Values(call) => match call {
            RingCall::Push(run) => match run.go_on(answer) {
                Some(pushed) => Some(Answer::Truth(pushed)),
                None => None,
            },
            RingCall::Pop(run) => match run.go_on(answer) {
                Some(value) => Some(popped_value(value)),
                None => None,
            },
            RingCall::Peek(run) => match run.go_on(answer) {
                Some(value) => Some(popped_value(value)),
                None => None,
            },
        },
        QueueFlight::Overflow(call) => match call {
            OverflowCall::Push(run) => match run.go_on(answer) {
                Some(oldest) => Some(popped(oldest)),
                None => None,
            },
            OverflowCall::Pop(run) => match run.go_on(answer) {
                Some(value) => Some(popped(value)),
                None => None,
            },
        },
        QueueFlight::Length(which, run) => {
            let capacity = run.call.capacity;
            match run.go_on(answer) {
                Some(number) => Some(length_answer(*which, capacity, number)),
                None => None,
            }
        }
    }
}
