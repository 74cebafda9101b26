//! The calls of the unique index set under way: what each wants, and how it goes on.
ghost use Rattle.std.specs.Prelude.{◌≡◌};
ghost use Rattle.steps.specs.Ask.{CameTo};
ghost use Rattle.model.specs.Families.Indices.Calls.{acquire_answer, acquire_of, release_of, borrowed_of, locked_of, want, after, goes_back};

use model::event::Answer;
use model::families::indices::calls::IndexFlight;
use steps::ask::Want;
use steps::indices::enums::{ReleaseMode, UniqueIndexSetAcquireFailure};
use steps::indices::looks::{BorrowedIndices, IsLocked};
use steps::indices::unique::{Acquire, DefaultMode, LockMode, Release};
use steps::routine::Running;

/// What an acquire answers in a machine.
pub(crate) fn acquire_answer<T>(acquired: Result<u32, UniqueIndexSetAcquireFailure>) -> Answer<T>
    ensures { result ≡ acquire_answer acquired }
{
    match acquired {
        Ok(index) => Answer::Index(index),
        Err(failure) => Answer::NoIndex(failure),
    }
}

/// An acquire that begins on a set of this capacity.
pub fn acquire(capacity: u32) -> IndexFlight
    ensures { result ≡ acquire_of capacity }
{
    IndexFlight::Acquire(Running {
        call: Acquire::new(capacity),
        given: (),
        room: (),
    })
}

/// A release of this index that begins on a set of this capacity.
pub fn release(capacity: u32, index: u32, mode: ReleaseMode) -> IndexFlight
    ensures { result ≡ release_of capacity index mode }
{
    match mode {
        ReleaseMode::Default => IndexFlight::ReleaseDefault(Running {
            call: Release::new(capacity),
            given: index,
            room: (),
        }),
        ReleaseMode::LockIfLastIndex => IndexFlight::ReleaseLock(Running {
            call: Release::new(capacity),
            given: index,
            room: (),
        }),
    }
}

/// A look at the number of borrowed indices.
pub fn borrowed_indices() -> IndexFlight
    ensures { result ≡ borrowed_of }
{
    IndexFlight::BorrowedIndices(Running {
        call: BorrowedIndices,
        given: (),
        room: (),
    })
}

/// A look at the lock.
pub fn is_locked() -> IndexFlight
    ensures { result ≡ locked_of }
{
    IndexFlight::IsLocked(Running {
        call: IsLocked,
        given: (),
        room: (),
    })
}

/// What the call wants next.
pub fn want(flight: &IndexFlight) -> Want<()>
    ensures { result ≡ want flight.now }
{
    match flight {
        IndexFlight::Acquire(run) => run.want(),
        IndexFlight::ReleaseDefault(run) => run.want(),
        IndexFlight::ReleaseLock(run) => run.want(),
        IndexFlight::BorrowedIndices(run) => run.want(),
        IndexFlight::IsLocked(run) => run.want(),
    }
}

/// Whether the call begins a turn of its loop again once it is handed this answer.
pub fn goes_back(flight: &IndexFlight, answer: u64) -> bool
    ensures { result ≡ goes_back flight.now answer }
{
    match flight {
        IndexFlight::Acquire(run) => run.call.goes_back(answer),
        IndexFlight::ReleaseDefault(run) => run.call.goes_back(answer),
        IndexFlight::ReleaseLock(run) => run.call.goes_back(answer),
        IndexFlight::BorrowedIndices(_) => false,
        IndexFlight::IsLocked(_) => false,
    }
}

/// Hands the call an answer, changes it in place, and returns the call's own answer once it is done.
pub fn feed<T>(flight: &mut IndexFlight, answer: u64) -> Option<Answer<T>>
    ensures { CameTo result flight.new (after flight.old answer) }
{
    match flight {
        IndexFlight::Acquire(run) => {
            let acquired = run.go_on(answer)?;
            Some(acquire_answer(acquired))
        }
        IndexFlight::ReleaseDefault(run) => {
            let state = run.go_on(answer)?;
            Some(Answer::State(state))
        }
        IndexFlight::ReleaseLock(run) => {
            let state = run.go_on(answer)?;
            Some(Answer::State(state))
        }
        IndexFlight::BorrowedIndices(run) => {
            let number = run.go_on(answer)?;
            Some(Answer::Number(number as u64))
        }
        IndexFlight::IsLocked(run) => {
            let locked = run.go_on(answer)?;
            Some(Answer::Truth(locked))
        }
    }
}
