//! The calls of the single value under way: what each wants, and how it goes on.
ghost use Rattle.std.specs.Prelude.{◌≡◌, IfOk};
ghost use Rattle.steps.specs.Ask.{CameTo};
ghost use Rattle.model.specs.Families.Atomic.Calls.{first, want, after, goes_back};
ghost use Rattle.model.specs.Coding.{coding_by};

use model::event::Answer;
use model::families::atomic::AtomicStart;
use model::families::atomic::calls::AtomicFlight;
use model::room::Apart;
use std::alloc::{AllocError, Global};
use steps::ask::Want;
use steps::atomic::version::Version;
use steps::atomic::{Load, PRODUCER, Store};
use steps::queues::roles::{AcquireRole, LookRole, ReleaseRole};
use steps::routine::Running;
use steps::words::Words;

/// The call that begins, unless memory for its room is refused.
pub fn first<T: Words>(alloc: Global, start: &AtomicStart<T>) -> Result<AtomicFlight<T>, AllocError>
    ensures { IfOk result (λ flight. flight ≡ first start.now) }
{
    let flight = match *start {
        AtomicStart::AcquireProducer => AtomicFlight::Acquire(Running {
            call: AcquireRole { word: PRODUCER },
            given: (),
            room: (),
        }),
        AtomicStart::ReleaseProducer => AtomicFlight::Release(Running {
            call: ReleaseRole { word: PRODUCER },
            given: (),
            room: (),
        }),
        AtomicStart::Store(value) => AtomicFlight::Store(Running {
            call: Store::new(),
            given: value,
            room: (),
        }),
        AtomicStart::Load => AtomicFlight::Load(Running {
            call: Load::new(),
            given: (),
            room: Apart::new(alloc)?,
        }),
        AtomicStart::HasProducer => AtomicFlight::Look(Running {
            call: LookRole { word: PRODUCER },
            given: (),
            room: (),
        }),
        AtomicStart::Version => AtomicFlight::Version(Running {
            call: Version,
            given: (),
            room: (),
        }),
    };
    Ok(flight)
}

/// What the call wants next.
pub fn want<T: Words>(flight: &AtomicFlight<T>) -> Want<()>
    ensures { result ≡ want (coding_by T.Words) flight.now }
{
    match flight {
        AtomicFlight::Acquire(run) => run.want(),
        AtomicFlight::Release(run) => run.want(),
        AtomicFlight::Store(run) => run.want(),
        AtomicFlight::Load(run) => run.want(),
        AtomicFlight::Look(run) => run.want(),
        AtomicFlight::Version(run) => run.want(),
    }
}

/// Whether the call begins a turn of its loop again once it is handed this answer.
pub fn goes_back<T: Words>(flight: &AtomicFlight<T>, answer: u64) -> bool
    ensures { result ≡ goes_back flight.now answer }
{
    match flight {
        AtomicFlight::Load(run) => run.call.goes_back(answer),
        _ => false,
    }
}

/// Hands the call an answer, changes it in place, and returns the call's own answer once it is done.
pub fn feed<T: Words>(flight: &mut AtomicFlight<T>, answer: u64) -> Option<Answer<T>>
    ensures { CameTo result flight.new (after (coding_by T.Words) flight.old answer) }
{
    match flight {
        AtomicFlight::Acquire(run) => {
            match run.go_on(answer) {
                Some(taken) => Some(Answer::Truth(taken)),
                None => None
            }
        }
        AtomicFlight::Release(run) => {
            match run.go_on(answer) {
                Some(()) => Some(Answer::Done),
                None => None
            }
        }
        AtomicFlight::Store(run) => {
            match run.go_on(answer) {
                Some(stored) => Some(Answer::Truth(stored)),
                None => None
            }
        }
        AtomicFlight::Load(run) => {
            match run.go_on(answer) {
                Some(value) => Some(Answer::Loaded(value)),
                None => None
            }
        }
        AtomicFlight::Look(run) => {
            match run.go_on(answer) {
                Some(taken) => Some(Answer::Truth(taken)),
                None => None
            }
        }
        AtomicFlight::Version(run) => {
            match run.go_on(answer) {
                Some(version) => Some(Answer::Number(version)),
                None => None
            }
        }
    }
}
