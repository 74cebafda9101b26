//! The acquire of a robust set, at a seat. The steps that try one cell after another have a loop of
//! their own (`fill_cells`).
ghost use Rattle.std.specs.Prelude.{◌≡◌, ℕ};
ghost use Rattle.steps.specs.Indices.Robust.Acquire.{first_acquire, acquire_after};
ghost use Rattle.steps.specs.declared.indices.robust.acquire.AcquireStage.TheVariants as stages;
ghost use Rattle.threaded.specs.Seats.{seen};
ghost use Rattle.lock_free_owners.specs.Robust.Turns.{IsBoard, StaysAtBoard, AcquireAt, AcquireEnds, AcquireStands, AcquireGoes};

use super::OwnerId;
use super::drives::Takes;
use super::rule::Seat;
use std::sync::Wait;
use steps::ask::After;
use steps::indices::enums::UniqueIndexSetAcquireFailure;
use steps::indices::robust::acquire::{Acquire, AcquireStage};
use steps::routine::Routine;

type Acquired = Result<u32, UniqueIndexSetAcquireFailure>;

/// Takes one step of the acquire.
#[inline(always)]
fn step_acquire(seat: &mut Seat, call: Acquire, owner: OwnerId) -> After<Acquire, Acquired>
    requires board { IsBoard seat.old }
    requires at { AcquireStands owner (seen seat.old) call }
    ensures stays { StaysAtBoard seat.old seat.new }
    ensures after { (k : ℕ) × (result ≡ acquire_after call k) }
    ensures goes { AcquireGoes owner (seen seat.old) call result (seen seat.new) }
{
    seat.step::<Acquire, Takes>(call, &owner, &mut ())
}

/// Takes the steps of the acquire that try cells, from the cell `first` on, past those that have an owner. It
/// returns where the call has ended or has come to another stage. The loop carries only the index.
#[inline(always)]
fn fill_cells(
    seat: &mut Seat,
    capacity: u32,
    counter: u64,
    first: u32,
    owner: OwnerId,
) -> After<Acquire, Acquired>
    requires board { IsBoard seat.old }
    requires at { AcquireStands owner (seen seat.old)
        (record { capacity = capacity; stage = stages.FillsCell counter first }) }
    ensures stays { StaysAtBoard seat.old seat.new }
    ensures goes { AcquireGoes owner (seen seat.old)
        (record { capacity = capacity; stage = stages.FillsCell counter first }) result (seen seat.new) }
{
    let mut cell = first;
    'cells: loop {
        let here = Acquire {
            capacity,
            stage: AcquireStage::FillsCell {
                counter,
                index: cell,
            },
        };
        match step_acquire(seat, here, owner) {
            After::GoOn(next) => {
                let stage = next.stage;
                match stage {
                    AcquireStage::FillsCell { index, .. } => cell = index,
                    _ => return After::GoOn(next),
                }
            }
            After::Done(end) => return After::Done(end),
        }
    }
}

/// Takes all further steps over cells if the acquire stands at a cell, else one step.
#[inline(always)]
fn acquire_next(seat: &mut Seat, call: Acquire, owner: OwnerId) -> After<Acquire, Acquired>
    requires board { IsBoard seat.old }
    requires at { AcquireStands owner (seen seat.old) call }
    ensures stays { StaysAtBoard seat.old seat.new }
    ensures goes { AcquireGoes owner (seen seat.old) call result (seen seat.new) }
{
    let stage = call.stage;
    match stage {
        AcquireStage::FillsCell { counter, index } => {
            fill_cells(seat, call.capacity, counter, index, owner)
        }
        _ => step_acquire(seat, call, owner),
    }
}

/// Takes all steps of the acquire, from its first one on.
#[inline(always)]
pub(crate) fn acquire_all(
    seat: &mut Seat,
    rt: &impl Wait,
    capacity: u32,
    owner: OwnerId,
) -> Acquired
    requires board { IsBoard seat.old }
    requires at { AcquireAt owner (seen seat.old) (seen seat.old) (first_acquire capacity) tt }
    ensures stays { StaysAtBoard seat.old seat.new }
    ensures ends { AcquireEnds owner (seen seat.old) result tt (seen seat.new) }
{
    // The first step and the first cells stand before the loop, so that a compiler sees the
    // call's stage there.
    let first = step_acquire(seat, Acquire::new(capacity), owner);
    let call = match first {
        After::GoOn(next) => next,
        After::Done(end) => return end,
    };
    let cells = acquire_next(seat, call, owner);
    let mut call = match cells {
        After::GoOn(next) => next,
        After::Done(end) => return end,
    };
    for _ in rt.forever() {
        let after = acquire_next(seat, call, owner);
        match after {
            After::GoOn(next) => call = next,
            After::Done(end) => return end,
        }
    }
    unreachable!()
}
