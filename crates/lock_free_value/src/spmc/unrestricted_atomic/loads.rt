//! The load of a value at a seat. Its words are read into a room, a buffer of the call, and the steps that
//! read them have a loop of their own (`copy_words`).
ghost use Rattle.std.specs.Prelude.{◌≡◌, ◌≤◌, ◌+◌, ℕ, replicate};
ghost use Rattle.history.specs.Steps.{TakesAlone};
ghost use Rattle.steps.specs.Atomic.{at_load, first_load, load_after};
ghost use Rattle.steps.specs.declared.atomic.LoadStage.TheVariants as stages;
ghost use Rattle.model.specs.Coding.{coding_by};
ghost use Rattle.threaded.specs.Seats as seats;
ghost use Rattle.lock_free_value.specs.Calls.{seen, IsSame};
ghost use Rattle.lock_free_value.specs.Loads.{IsBoard, LoadAt, LoadEnds, LoadNext};
ghost use Rattle.lock_free_value.specs.Roles.{Moved};
ghost use Rattle.lock_free_value.specs.ValueContracts.{HasLoaded};

use super::Held;
use super::drives::Loads;
use super::rule::{Origin, ValueRule};
use history::view::View;
use std::marker::PhantomData;
use std::sync::Wait;
use steps::ask::After;
use steps::atomic::{Load, LoadStage};
use steps::copied::{Buffer, Room};
use steps::routine::Routine;
use steps::words::Words;
use threaded::driver::seated::Seated;

type Seat<T> = Seated<View<T>, Origin<T>, ValueRule<T>>;

/// Takes one step of the load.
#[inline(always)]
fn step_load<T: Words, R: Room<T> + Drop>(
    seat: &mut Seat<T>,
    call: Load<T, R>,
    room: &mut R,
) -> After<Load<T, R>, ()>
    requires board { IsBoard T.WORDS seat.old }
    requires at { (base : View T) × LoadAt (coding_by T.Words) R.words_in base (seats.seen seat.old) call room.old }
    ensures same { seats.IsSame seat.old seat.new }
    ensures board { IsBoard T.WORDS seat.new }
    ensures after { (k : ℕ) × (result ≡ load_after T.WORDS call k) }
    ensures goes { (base : View T)
        → LoadAt (coding_by T.Words) R.words_in base (seats.seen seat.old) call room.old
        → LoadNext (coding_by T.Words) R.words_in base result room.new (seats.seen seat.new) }
{
    seat.step::<Load<T, R>, Loads<T, R>>(call, &(), room)
}

/// Takes the steps that load words of a cell, from the place `first` on. It returns where the load has
/// ended or has come to another stage. The loop carries what the stage `LoadsCell` has: the version,
/// the cell and the place.
#[inline(always)]
fn copy_words<T: Words, R: Room<T> + Drop>(
    seat: &mut Seat<T>,
    version: u64,
    cell: usize,
    first: u8,
    room: &mut R,
) -> After<Load<T, R>, ()>
    requires board { IsBoard T.WORDS seat.old }
    requires at { (base : View T) × LoadAt (coding_by T.Words) R.words_in base (seats.seen seat.old)
        (at_load first_load (stages.LoadsCell version cell first)) room.old }
    ensures same { seats.IsSame seat.old seat.new }
    ensures board { IsBoard T.WORDS seat.new }
    ensures goes { (base : View T)
        → LoadAt (coding_by T.Words) R.words_in base (seats.seen seat.old)
        (at_load first_load (stages.LoadsCell version cell first)) room.old
        → LoadNext (coding_by T.Words) R.words_in base result room.new (seats.seen seat.new) }
{
    let mut of = version;
    let mut start = cell;
    let mut place = first;
    'words: loop {
        let here = Load {
            stage: LoadStage::LoadsCell {
                version: of,
                cell: start,
                at: place,
            },
            of: PhantomData,
        };
        match step_load(seat, here, room) {
            After::GoOn(next) => {
                let stage = next.stage;
                match stage {
                    LoadStage::LoadsCell { version, cell, at } => {
                        of = version;
                        start = cell;
                        place = at;
                    }
                    _ => return After::GoOn(next),
                }
            }
            After::Done(end) => return After::Done(end),
        }
    }
}

/// Takes all further steps of this cell if the load stands at a word of a cell, else one step.
#[inline(always)]
fn load_next<T: Words, R: Room<T> + Drop>(
    seat: &mut Seat<T>,
    call: Load<T, R>,
    room: &mut R,
) -> After<Load<T, R>, ()>
    requires board { IsBoard T.WORDS seat.old }
    requires at { (base : View T) × LoadAt (coding_by T.Words) R.words_in base (seats.seen seat.old) call room.old }
    ensures same { seats.IsSame seat.old seat.new }
    ensures board { IsBoard T.WORDS seat.new }
    ensures goes { (base : View T)
        → LoadAt (coding_by T.Words) R.words_in base (seats.seen seat.old) call room.old
        → LoadNext (coding_by T.Words) R.words_in base result room.new (seats.seen seat.new) }
{
    let stage = call.stage;
    match stage {
        LoadStage::LoadsCell { version, cell, at } => copy_words(seat, version, cell, at, room),
        _ => step_load(seat, call, room),
    }
}

/// Takes all steps of the load. It may load a cell again for as long as others store.
#[inline(always)]
fn load_all<T: Words, R: Room<T> + Drop>(seat: &mut Seat<T>, rt: &impl Wait, room: &mut R) -> ()
    requires board { IsBoard T.WORDS seat.old }
    requires at { LoadAt (coding_by T.Words) R.words_in (seats.seen seat.old) (seats.seen seat.old)
        first_load room.old }
    ensures same { seats.IsSame seat.old seat.new }
    ensures board { IsBoard T.WORDS seat.new }
    ensures ends { LoadEnds (coding_by T.Words) R.words_in (seats.seen seat.old) result room.new (seats.seen seat.new) }
{
    let mut call = Load::new();
    for _ in rt.forever() {
        match load_next(seat, call, room) {
            After::GoOn(next) => call = next,
            After::Done(end) => return end,
        }
    }
    unreachable!()
}

impl<T: Words> Held<T, ValueRule<T>> {
    /// Returns the value at one moment of the call.
    pub fn load(&mut self, rt: &impl Wait) -> T
        ensures same { IsSame self.old self.new }
        ensures loaded { HasLoaded result (seen self.old) (seen self.new) }
        ensures role { Moved 0 0 (seen self.old).made (seen self.new).made }
        ensures steps { TakesAlone (2 + T.WORDS) (1 + T.WORDS) (seen self.old) (seen self.new) }
    {
        // the room is the smallest of three buffers that the words fit in, filled with zeros
        if T::WORDS <= 2 {
            self.load_by(rt, Buffer::<2> { words: [0; 2] })
        } else if T::WORDS <= 16 {
            self.load_by(rt, Buffer::<16> { words: [0; 16] })
        } else {
            self.load_by(rt, Buffer::<128> { words: [0; 128] })
        }
    }

    /// Loads the value into this room, which is all zeros, and returns what its words stand for.
    #[inline(always)]
    pub fn load_by<R: Room<T> + Drop>(&mut self, rt: &impl Wait, room: R) -> T
        requires room { (n : ℕ) × (T.WORDS ≤ n) × (n ≤ 128) × (R.words_in room ≡ replicate n 0) }
        ensures same { IsSame self.old self.new }
        ensures loaded { HasLoaded result (seen self.old) (seen self.new) }
        ensures role { Moved 0 0 (seen self.old).made (seen self.new).made }
        ensures steps { TakesAlone (2 + T.WORDS) (1 + T.WORDS) (seen self.old) (seen self.new) }
    {
        let mut room = room;
        let end = load_all(&mut self.seated, rt, &mut room);
        Load::<T, R>::answer(end, &(), &room)
    }
}
