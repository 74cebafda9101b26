//! The call `reset_next` at a seat. Its steps that look for a flag that is set have a loop of
//! their own (`pass_clear`).
ghost use Rattle.std.specs.Prelude.{◌≡◌, ℕ};
ghost use Rattle.steps.specs.Bits.BitSet.{reset_after};
ghost use Rattle.steps.specs.declared.bits.bit_set.ResetNextStage.TheVariants as stages;
ghost use Rattle.threaded.specs.Seats.{seen, IsSame};
ghost use Rattle.history.specs.declared.view.View.{View as Views};
ghost use Rattle.lock_free_sets.specs.Bits.Resetting.{IsBoard, ResetAt, ResetEnds, ResetMay, ResetGoes};

use super::drives::ResetsNext;
use crate::mpmc::sets::rule::{Flags, SetRule};
use history::view::View;
use std::sync::Wait;
use steps::ask::After;
use steps::bits::bit_set::{ResetNext, ResetNextStage};
use threaded::driver::seated::Seated;

type Seat = Seated<View<u64>, u32, SetRule<Flags>>;

/// Takes one step of the call.
#[inline(always)]
fn step_reset(seat: &mut Seat, call: ResetNext) -> After<ResetNext, Option<u64>>
    requires board { IsBoard seat.old }
    requires at { ResetMay (seen seat.old) call }
    ensures same { IsSame seat.old seat.new }
    ensures board { IsBoard seat.new }
    ensures after { (k : ℕ) × (result ≡ reset_after call k) }
    ensures goes { ResetGoes (seen seat.old) call result (seen seat.new) }
{
    seat.step::<ResetNext, ResetsNext>(call, &(), &mut ())
}

/// Takes the steps of the call that look at flags, once `first` places are passed. It returns where a flag is
/// set, or the call has ended. The loop carries only the number of places passed.
#[inline(always)]
fn pass_clear(
    seat: &mut Seat,
    capacity: u32,
    start: u32,
    first: u32,
) -> After<ResetNext, Option<u64>>
    requires board { IsBoard seat.old }
    requires at { ResetMay (seen seat.old) (record { capacity = capacity; stage = stages.LoadsElement start first }) }
    ensures same { IsSame seat.old seat.new }
    ensures board { IsBoard seat.new }
    ensures goes { ResetGoes (seen seat.old) (record { capacity = capacity; stage = stages.LoadsElement start first })
        result (seen seat.new) }
{
    let mut so_many = first;
    'places: loop {
        let here = ResetNext {
            capacity,
            stage: ResetNextStage::LoadsElement {
                start,
                passed: so_many,
            },
        };
        match step_reset(seat, here) {
            After::GoOn(next) => {
                let stage = next.stage;
                match stage {
                    ResetNextStage::LoadsElement { passed, .. } => so_many = passed,
                    _ => return After::GoOn(next),
                }
            }
            After::Done(end) => return After::Done(end),
        }
    }
}

/// Takes all further steps past clear flags if the call stands at one of them, else one step.
#[inline(always)]
fn reset_turn(seat: &mut Seat, call: ResetNext) -> After<ResetNext, Option<u64>>
    requires board { IsBoard seat.old }
    requires at { ResetMay (seen seat.old) call }
    ensures same { IsSame seat.old seat.new }
    ensures board { IsBoard seat.new }
    ensures goes { ResetGoes (seen seat.old) call result (seen seat.new) }
{
    let stage = call.stage;
    match stage {
        ResetNextStage::LoadsElement { start, passed } => {
            pass_clear(seat, call.capacity, start, passed)
        }
        _ => step_reset(seat, call),
    }
}

/// Takes the steps of the call up to its end if nobody else changes a flag meanwhile. Its only loop passes
/// clear flags, each place once.
#[inline(always)]
fn reset_once(seat: &mut Seat, first: ResetNext) -> After<ResetNext, Option<u64>>
    requires board { IsBoard seat.old }
    requires at { ResetMay (seen seat.old) first }
    ensures same { IsSame seat.old seat.new }
    ensures board { IsBoard seat.new }
    ensures goes { ResetGoes (seen seat.old) first result (seen seat.new) }
{
    let loaded = step_reset(seat, first);
    let from = match loaded {
        After::GoOn(next) => next,
        After::Done(end) => return After::Done(end),
    };
    let came = reset_turn(seat, from);
    let there = match came {
        After::GoOn(next) => next,
        After::Done(end) => return After::Done(end),
    };
    let taken = step_reset(seat, there);
    let behind = match taken {
        After::GoOn(next) => next,
        After::Done(end) => return After::Done(end),
    };
    step_reset(seat, behind)
}

/// Takes the further steps of a call that did not end in `reset_once`, since another thread changed a flag.
fn reset_on(seat: &mut Seat, rt: &impl Wait, first: ResetNext) -> Option<u64>
    requires board { IsBoard seat.old }
    requires at { ResetMay (seen seat.old) first }
    ensures same { IsSame seat.old seat.new }
    ensures board { IsBoard seat.new }
    ensures ends { (base : Views ℕ) → ResetAt base (seen seat.old) first tt → ResetEnds base result tt (seen seat.new) }
{
    let mut call = first;
    for _ in rt.forever() {
        let after = reset_turn(seat, call);
        match after {
            After::GoOn(next) => call = next,
            After::Done(end) => return end,
        }
    }
    unreachable!()
}

/// Takes all steps of the call, from its first one on.
#[inline(always)]
pub(super) fn reset_all(seat: &mut Seat, rt: &impl Wait, first: ResetNext) -> Option<u64>
    requires board { IsBoard seat.old }
    requires at { ResetAt (seen seat.old) (seen seat.old) first tt }
    ensures same { IsSame seat.old seat.new }
    ensures board { IsBoard seat.new }
    ensures ends { ResetEnds (seen seat.old) result tt (seen seat.new) }
{
    let once = reset_once(seat, first);
    match once {
        After::GoOn(next) => reset_on(seat, rt, next),
        After::Done(end) => end,
    }
}
