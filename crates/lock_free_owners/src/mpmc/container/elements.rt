//! The loops of a look (`get_state`, `update_state`) that has found a change. One goes over the elements, one
//! over elements that it does not copy, and one over the words of an element that it copies.
ghost use Rattle.std.specs.Prelude.{◌≡◌, ℕ};
ghost use Rattle.steps.specs.Container.Look.{look_after};
ghost use Rattle.model.specs.Coding.{coding_by};
ghost use Rattle.threaded.specs.Seats.{seen};
ghost use Rattle.lock_free_owners.specs.Container.LookTurns.{LookOnMay, LookOnOver, LookOnGoes, at_count, at_word};
ghost use Rattle.lock_free_owners.specs.Container.Turns.{IsBoard, StaysAtBoard};

use super::drives::{Beginning, LooksOn};
use super::rule::Seat;
use std::marker::PhantomData;
use std::sync::Wait;
use steps::ask::After;
use steps::container::look::{Look, LookStage};
use steps::container::state::{Seen, Shown};
use steps::words::Words;

/// Takes one step of the look on the words of the table.
#[inline(always)]
fn step_on<T: Words, B: Beginning<T>>(
    seat: &mut Seat<T>,
    call: Look<T>,
    given: &Seen,
    room: &mut Shown<T>,
) -> After<Look<T>, bool>
    requires board { IsBoard T.WORDS seat.old }
    requires may_step { LookOnMay (coding_by T.Words) B.which B.from B.shown given.now (seen seat.old)
        call room.old }
    ensures stays { StaysAtBoard T.WORDS seat.old seat.new }
    ensures taken { (n : ℕ) × (result ≡ look_after T.WORDS call given.now n) }
    ensures goes { LookOnGoes (coding_by T.Words) B.which B.from B.shown given.now result room.new
        (seen seat.new) }
{
    seat.step::<Look<T>, LooksOn<B>>(call, given, room)
}

/// Takes the steps over elements that the look does not copy, from the element `first` on. It returns at an
/// element to copy, or at the end. The loop carries only the index.
#[inline(always)]
fn pass_over<T: Words, B: Beginning<T>>(
    seat: &mut Seat<T>,
    capacity: u32,
    first: u32,
    given: &Seen,
    room: &mut Shown<T>,
) -> After<Look<T>, bool>
    requires board { IsBoard T.WORDS seat.old }
    requires may_step { LookOnMay (coding_by T.Words) B.which B.from B.shown given.now (seen seat.old)
        (at_count capacity first) room.old }
    ensures stays { StaysAtBoard T.WORDS seat.old seat.new }
    ensures goes { LookOnGoes (coding_by T.Words) B.which B.from B.shown given.now result room.new
        (seen seat.new) }
{
    let mut index = first;
    'elements: loop {
        let here = at_stage(capacity, LookStage::LoadsCount { index });
        let after = step_on::<T, B>(seat, here, given, room);
        match after {
            After::GoOn(next) => match next.stage {
                LookStage::LoadsCount { index: further } => index = further,
                _ => return After::GoOn(next),
            },
            After::Done(changed) => return After::Done(changed),
        }
    }
}

/// Takes the steps that copy the words of one element, from the word `first` on. It returns where the look
/// has come to another stage, or has ended. The loop carries only the place of the word.
#[inline(always)]
fn copy_words<T: Words, B: Beginning<T>>(
    seat: &mut Seat<T>,
    capacity: u32,
    index: u32,
    count: u64,
    first: u8,
    given: &Seen,
    room: &mut Shown<T>,
) -> After<Look<T>, bool>
    requires board { IsBoard T.WORDS seat.old }
    requires may_step { LookOnMay (coding_by T.Words) B.which B.from B.shown given.now (seen seat.old)
        (at_word capacity index count first) room.old }
    ensures stays { StaysAtBoard T.WORDS seat.old seat.new }
    ensures goes { LookOnGoes (coding_by T.Words) B.which B.from B.shown given.now result room.new
        (seen seat.new) }
{
    let mut at = first;
    'words: loop {
        let here = at_stage(capacity, LookStage::LoadsWord { index, count, at });
        let after = step_on::<T, B>(seat, here, given, room);
        match after {
            After::GoOn(next) => match next.stage {
                LookStage::LoadsWord { at: further, .. } => at = further,
                _ => return After::GoOn(next),
            },
            After::Done(changed) => return After::Done(changed),
        }
    }
}

/// Takes the steps of the look over all elements from `first` on. It returns at the end of the look, or where
/// an element has to be copied again. The index rises in each iteration, so the loop ends without `rt`.
fn copy_over<T: Words, B: Beginning<T>>(
    seat: &mut Seat<T>,
    capacity: u32,
    first: u32,
    given: &Seen,
    room: &mut Shown<T>,
) -> After<Look<T>, bool>
    requires board { IsBoard T.WORDS seat.old }
    requires may_step { LookOnMay (coding_by T.Words) B.which B.from B.shown given.now (seen seat.old)
        (at_count capacity first) room.old }
    ensures stays { StaysAtBoard T.WORDS seat.old seat.new }
    ensures goes { LookOnGoes (coding_by T.Words) B.which B.from B.shown given.now result room.new
        (seen seat.new) }
{
    let mut limit = capacity;
    let mut index = first;
    'elements: loop {
        let passed = pass_over::<T, B>(seat, limit, index, given, room);
        let copies = match passed {
            After::GoOn(next) => next,
            After::Done(changed) => return After::Done(changed),
        };
        let copied = copy_first::<T, B>(seat, copies, given, room);
        let checks = match copied {
            After::GoOn(next) => next,
            After::Done(changed) => return After::Done(changed),
        };
        let after = step_on::<T, B>(seat, checks, given, room);
        let call = match after {
            After::GoOn(next) => next,
            After::Done(changed) => return After::Done(changed),
        };
        match call.stage {
            LookStage::LoadsCount { index: further } => {
                // The index has always grown here; the test is what proves that the loop ends.
                if further <= index {
                    return After::GoOn(call);
                }
                limit = call.capacity;
                index = further;
            }
            _ => return After::GoOn(call),
        }
    }
}

/// Takes the steps over elements if the look stands at the number of an element. At any other stage it
/// returns the look unchanged.
#[inline(always)]
fn pass_first<T: Words, B: Beginning<T>>(
    seat: &mut Seat<T>,
    call: Look<T>,
    given: &Seen,
    room: &mut Shown<T>,
) -> After<Look<T>, bool>
    requires board { IsBoard T.WORDS seat.old }
    requires may_step { LookOnMay (coding_by T.Words) B.which B.from B.shown given.now (seen seat.old)
        call room.old }
    ensures stays { StaysAtBoard T.WORDS seat.old seat.new }
    ensures goes { LookOnGoes (coding_by T.Words) B.which B.from B.shown given.now result room.new
        (seen seat.new) }
{
    match call.stage {
        LookStage::LoadsCount { index } => copy_over::<T, B>(
            seat,
            call.capacity,
            index,
            given,
            room,
        ),
        _ => After::GoOn(call),
    }
}

/// Takes the steps that copy words if the look stands at a word. At any other stage it
/// returns the look unchanged.
#[inline(always)]
fn copy_first<T: Words, B: Beginning<T>>(
    seat: &mut Seat<T>,
    call: Look<T>,
    given: &Seen,
    room: &mut Shown<T>,
) -> After<Look<T>, bool>
    requires board { IsBoard T.WORDS seat.old }
    requires may_step { LookOnMay (coding_by T.Words) B.which B.from B.shown given.now (seen seat.old)
        call room.old }
    ensures stays { StaysAtBoard T.WORDS seat.old seat.new }
    ensures goes { LookOnGoes (coding_by T.Words) B.which B.from B.shown given.now result room.new
        (seen seat.new) }
{
    match call.stage {
        LookStage::LoadsWord { index, count, at } => {
            copy_words::<T, B>(seat, call.capacity, index, count, at, given, room)
        }
        _ => After::GoOn(call),
    }
}

/// Takes all further steps of a look once it has found a change.
pub(crate) fn look_on<T: Words, B: Beginning<T>>(
    seat: &mut Seat<T>,
    rt: &impl Wait,
    first: Look<T>,
    given: &Seen,
    room: &mut Shown<T>,
) -> bool
    requires board { IsBoard T.WORDS seat.old }
    requires may_step { LookOnMay (coding_by T.Words) B.which B.from B.shown given.now (seen seat.old)
        first room.old }
    ensures stays { StaysAtBoard T.WORDS seat.old seat.new }
    ensures end { LookOnOver (coding_by T.Words) B.which B.from B.shown given.now result room.new
        (seen seat.new) }
{
    let mut call = first;
    for _ in rt.forever() {
        let passed = pass_first::<T, B>(seat, call, given, room);
        let copies = match passed {
            After::GoOn(next) => next,
            After::Done(changed) => return changed,
        };
        let copied = copy_first::<T, B>(seat, copies, given, room);
        let checks = match copied {
            After::GoOn(next) => next,
            After::Done(changed) => return changed,
        };
        let after = step_on::<T, B>(seat, checks, given, room);
        match after {
            After::GoOn(next) => call = next,
            After::Done(changed) => return changed,
        }
    }
    unreachable!()
}

/// Returns a look that stands at this stage.
#[inline(always)]
fn at_stage<T: Words>(capacity: u32, stage: LookStage) -> Look<T>
    ensures { result ≡ record { capacity = capacity; stage = stage; of = record {} } }
{
    Look {
        capacity,
        stage,
        of: PhantomData,
    }
}
