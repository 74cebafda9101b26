//! The calls `len` and `is_empty` of a container, at a seat: both count the indices that have owners. The
//! steps that load cells have a loop of their own (`count_cells`).
ghost use Rattle.std.specs.Prelude.{◌≡◌, ℕ};
ghost use Rattle.steps.specs.Indices.Robust.Looks.{first_borrowed, borrowed_after};
ghost use Rattle.steps.specs.declared.indices.robust.parts.Count.TheVariants as stages;
ghost use Rattle.model.specs.Coding.{coding_by};
ghost use Rattle.threaded.specs.Seats.{seen};
ghost use Rattle.lock_free_owners.specs.Container.Turns.{IsBoard, StaysAtBoard, CountAt, CountEnds, CountStands, CountGoes};

use super::drives::{Counting, Counts};
use super::rule::Seat;
use std::sync::Wait;
use steps::ask::After;
use steps::indices::robust::looks::BorrowedIndices;
use steps::indices::robust::parts::Count;
use steps::routine::Routine;
use steps::words::Words;

/// Takes one step of the count.
#[inline(always)]
fn step_count<T: Words, W: Counting>(
    seat: &mut Seat<T>,
    call: BorrowedIndices,
) -> After<BorrowedIndices, usize>
    requires board { IsBoard T.WORDS seat.old }
    requires at { CountStands (coding_by T.Words) W.which (seen seat.old) call }
    ensures stays { StaysAtBoard T.WORDS seat.old seat.new }
    ensures after { (k : ℕ) × (result ≡ borrowed_after call k) }
    ensures goes { CountGoes (coding_by T.Words) W.which (seen seat.old) call result (seen seat.new) }
{
    seat.step::<BorrowedIndices, Counts<W>>(call, &(), &mut ())
}

/// Takes the steps of the count that load cells, from the cell `first` on. It returns where the call has
/// ended or has come to another stage. The loop carries the index and the number of cells with an owner.
#[inline(always)]
fn count_cells<T: Words, W: Counting>(
    seat: &mut Seat<T>,
    capacity: u32,
    counter: u64,
    first: u32,
    filled: usize,
) -> After<BorrowedIndices, usize>
    requires board { IsBoard T.WORDS seat.old }
    requires at { CountStands (coding_by T.Words) W.which (seen seat.old)
        (record { capacity = capacity; count = stages.LoadsCell counter first filled }) }
    ensures stays { StaysAtBoard T.WORDS seat.old seat.new }
    ensures goes { CountGoes (coding_by T.Words) W.which (seen seat.old)
        (record { capacity = capacity; count = stages.LoadsCell counter first filled }) result (seen seat.new) }
{
    let mut cell = first;
    let mut found = filled;
    'cells: loop {
        let here = BorrowedIndices {
            capacity,
            count: Count::LoadsCell {
                counter,
                index: cell,
                filled: found,
            },
        };
        match step_count::<T, W>(seat, here) {
            After::GoOn(next) => {
                let count = next.count;
                match count {
                    Count::LoadsCell { index, filled, .. } => {
                        cell = index;
                        found = filled;
                    }
                    _ => return After::GoOn(next),
                }
            }
            After::Done(end) => return After::Done(end),
        }
    }
}

/// Takes all further steps over cells if the count stands at a cell, else one step.
#[inline(always)]
fn count_next<T: Words, W: Counting>(
    seat: &mut Seat<T>,
    call: BorrowedIndices,
) -> After<BorrowedIndices, usize>
    requires board { IsBoard T.WORDS seat.old }
    requires at { CountStands (coding_by T.Words) W.which (seen seat.old) call }
    ensures stays { StaysAtBoard T.WORDS seat.old seat.new }
    ensures goes { CountGoes (coding_by T.Words) W.which (seen seat.old) call result (seen seat.new) }
{
    let count = call.count;
    match count {
        Count::LoadsCell {
            counter,
            index,
            filled,
        } => count_cells::<T, W>(seat, call.capacity, counter, index, filled),
        _ => step_count::<T, W>(seat, call),
    }
}

/// Takes all steps of the count, from its first one on.
#[inline(always)]
pub(crate) fn count_all<T: Words, W: Counting>(
    seat: &mut Seat<T>,
    rt: &impl Wait,
    capacity: u32,
) -> usize
    requires board { IsBoard T.WORDS seat.old }
    requires at { CountAt (coding_by T.Words) W.which (seen seat.old) (seen seat.old) (first_borrowed capacity) tt }
    ensures stays { StaysAtBoard T.WORDS seat.old seat.new }
    ensures ends { CountEnds (coding_by T.Words) W.which (seen seat.old) result tt (seen seat.new) }
{
    // The first step and the first cells stand before the loop, so that a compiler sees the
    // call's stage there.
    let first = step_count::<T, W>(seat, BorrowedIndices::new(capacity));
    let call = match first {
        After::GoOn(next) => next,
        After::Done(filled) => return filled,
    };
    let cells = count_next::<T, W>(seat, call);
    let mut call = match cells {
        After::GoOn(next) => next,
        After::Done(filled) => return filled,
    };
    for _ in rt.forever() {
        let after = count_next::<T, W>(seat, call);
        match after {
            After::GoOn(next) => call = next,
            After::Done(filled) => return filled,
        }
    }
    unreachable!()
}
