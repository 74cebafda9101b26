//! Every step in one thread: two subscribers of four slots, of whom one dies. Each record has a number and its square, which
//! whoever reads it knows by a clause.
ghost use Rattle.std.specs.Prelude.{◌≡◌, ◌*◌, IfSome};

use super::error::RunError;
use lock_free::mpmc::container::OwnerId;
use std::alloc::{AllocError, Global};
use std::io;
use std::sync::Wait;
use zero_copy_bus::bus::{Bus, Sizes};
use zero_copy_bus::publisher::Publisher;
use zero_copy_bus::subscriber::{Sample, Subscriber};
use zero_copy_slots::Keeps;

/// The bus of the walk: 4 slots, at most 2 subscribers, and a queue of 2 for each.
const SIZES: Sizes = Sizes {
    slots: 4,
    subscribers: 2,
    queue: 2,
};

/// A record: a number, and what is its square once it is published.
#[derive(Drop)]
pub struct Square {
    root: u64,
    square: u64,
}

/// The rule that it is the square.
pub struct IsSquare;

impl Keeps<Square> for IsSquare {
    ghost holds = { λ _ s. s.square ≡ s.root * s.root };
}

/// Records to write, one more than there are slots.
fn spares(alloc: Global) -> Result<Vec<Square>, AllocError> {
    let mut spares = Vec::new(alloc);
    for _ in 0..SIZES.slots + 1 {
        spares.push(Square { root: 0, square: 0 })?;
    }
    Ok(spares)
}

/// Says how many slots are out.
fn tell(
    rt: &impl Print,
    publisher: &mut Publisher<'_, Square, IsSquare>,
    what: &str,
) -> Result<(), RunError> {
    let out = publisher.borrowed();
    println!(rt; "{what}; slots out: {out}")?;
    Ok(())
}

/// One more takes part, as the owner of this number.
fn subscribe<'a, R: Wait + Print>(
    rt: &R,
    publisher: &mut Publisher<'a, Square, IsSquare>,
    number: u64,
) -> Result<Subscriber<'a, Square, IsSquare>, RunError> {
    let owner = OwnerId::new(number)?;
    let Some(seat) = publisher.seat() else {
        return Err(RunError::NoPlace);
    };
    let Ok(subscriber) = seat.join(rt, owner) else {
        return Err(RunError::NotLetIn);
    };
    publisher.update(rt);
    println!(rt; "{number} takes part")?;
    Ok(subscriber)
}

/// Writes a record in a free slot, and publishes it.
fn publish<R: Wait + Print>(
    rt: &R,
    publisher: &mut Publisher<'_, Square, IsSquare>,
    number: u64,
) -> Result<(), RunError> {
    let Some(square) = number.checked_mul(number) else {
        return Err(RunError::TooLarge);
    };
    let mut loan = publisher.loan(rt)?;
    loan.value.root = number;
    loan.value.square = square;
    let slot = loan.slot();
    let reached = publisher.publish(loan);
    println!(rt; "record {number} in slot {slot}, sent to {reached}")?;
    tell(rt, publisher, "  published")
}

/// The number of a record and its square, read where it lies.
fn square_of(subscriber: &Subscriber<'_, Square, IsSquare>, sample: &Sample) -> Option<(u64, u64)>
    ensures { IfSome result (λ r. r.1 ≡ r.0 * r.0) }
{
    let reading = subscriber.read(sample).ok()?;
    let found = reading.get();
    Some((found.root, found.square))
}

/// Reads a record that was received.
fn read<R: Wait + Print>(
    rt: &R,
    subscriber: &Subscriber<'_, Square, IsSquare>,
    sample: &Sample,
    who: u64,
) -> Result<(), RunError> {
    let Some((number, square)) = square_of(subscriber, sample) else {
        return Err(RunError::Torn);
    };
    println!(rt;
        "{who} reads record {number} in slot {}: its square is {square}",
        sample.slot()
    )?;
    Ok(())
}

/// Receives a record, reads it and gives it back.
fn read_next<R: Wait + Print>(
    rt: &R,
    subscriber: &mut Subscriber<'_, Square, IsSquare>,
    who: u64,
) -> Result<(), RunError> {
    let Some(sample) = subscriber.receive(rt) else {
        return Err(RunError::NothingWaits);
    };
    let is_read = read(rt, subscriber, &sample, who);
    subscriber.give_back(sample);
    is_read
}

/// One record goes to both, of whom the first reads it.
fn send_to_both<R: Wait + Print>(
    rt: &R,
    publisher: &mut Publisher<'_, Square, IsSquare>,
    one: &mut Subscriber<'_, Square, IsSquare>,
) -> Result<(), RunError> {
    publish(rt, publisher, 10)?;
    read_next(rt, one, 1)?;
    publisher.collect();
    tell(rt, publisher, "  1 has given it back, 2 has not")
}

/// Two more records push the first out of the second's queue, who dies with one of them in hand.
fn lose_one<R: Wait + Print>(
    rt: &R,
    publisher: &mut Publisher<'_, Square, IsSquare>,
    mut other: Subscriber<'_, Square, IsSquare>,
) -> Result<(), RunError> {
    publish(rt, publisher, 11)?;
    publish(rt, publisher, 12)?;
    let Some(kept) = other.receive(rt) else {
        return Err(RunError::NothingWaits);
    };
    let slot = kept.slot();
    let is_read = read(rt, &other, &kept, 2);
    kept.keep();
    is_read?;
    println!(rt; "2 has lost record 10, and dies with slot {slot} in hand")?;
    Ok(())
}

/// The first reads what waits, and what the second had comes back.
fn take_out<R: Wait + Print>(
    rt: &R,
    publisher: &mut Publisher<'_, Square, IsSquare>,
    one: &mut Subscriber<'_, Square, IsSquare>,
) -> Result<(), RunError> {
    read_next(rt, one, 1)?;
    read_next(rt, one, 1)?;
    publisher.collect();
    tell(rt, publisher, "  1 has given all back")?;
    publisher.recover(rt, OwnerId::new(2)?);
    tell(rt, publisher, "2 is recovered")
}

/// A third joins in the place of the second, and all leave.
fn leave_all<'a, R: Wait + Print>(
    rt: &R,
    publisher: &mut Publisher<'a, Square, IsSquare>,
    one: Subscriber<'a, Square, IsSquare>,
) -> Result<(), RunError> {
    let late = subscribe(rt, publisher, 3)?;
    publish(rt, publisher, 13)?;
    if one.leave(rt).is_err() || late.leave(rt).is_err() {
        return Err(RunError::NotLetIn);
    }
    publisher.update(rt);
    tell(rt, publisher, "1 and 3 have left")
}

/// Goes through the steps of a run.
fn go_through<'a, R: Wait + Print>(
    rt: &R,
    publisher: &mut Publisher<'a, Square, IsSquare>,
) -> Result<(), RunError> {
    let mut one = subscribe(rt, publisher, 1)?;
    let other = subscribe(rt, publisher, 2)?;
    send_to_both(rt, publisher, &mut one)?;
    lose_one(rt, publisher, other)?;
    take_out(rt, publisher, &mut one)?;
    leave_all(rt, publisher, one)
}

/// Makes the bus, and goes through all steps with its publisher.
fn run<R: Wait + Print>(rt: &R, alloc: Global) -> Result<(), RunError> {
    let (mut bus, pass) = Bus::new(alloc, SIZES)?;
    let mut publisher = bus.publisher(rt, alloc, pass, spares(alloc)?)?;
    go_through(rt, &mut publisher)
}

/// Prints what comes of each step.
pub fn report<R: Wait + Print>(rt: &R, alloc: Global) -> io::Result<()> {
    println!(rt; "in one thread")?;
    match run(rt, alloc) {
        Ok(()) => Ok(()),
        Err(error) => println!(rt; "{error}"),
    }
}
