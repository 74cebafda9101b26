//! Slots, channels and pools with up to thousands of places: more than fit into one byte or word of bits, so
//! that places of all words are used.
ghost use Rattle.lock_free_loans.specs.Loan.Sender.{IsSame};
ghost use Rattle.zero_copy_loans.specs.Ends.{sender_of, IsSameReceiver};

use crate::rooms::finds_none;
use std::alloc::Global;
use std::sync::Wait;
use std::test::Fail;
use zero_copy_loans::channel::Channel;
use zero_copy_loans::error::PoolFailure;
use zero_copy_loans::pool::{Buffer, Lender, Pool};
use zero_copy_loans::receiver::{Reads, Receiver, Sample};
use zero_copy_loans::sender::{Sender, Writes};
use zero_copy_slots::error::{ReadFailure, TakeFailure};
use zero_copy_slots::{Anything, Slots};

// ---- slots

/// The value of this slot, which another slot does not have.
fn of_slot(slot: u32) -> u64 {
    slot as u64 * 3 + 1
}

/// Puts the value 70 with the number 7 into an empty slot, and then the slot's own value, by which the first
/// one comes out. False where the slot was not empty, could not be taken, or something else came out.
fn lay(slots: &Slots<u64>, slot: u32) -> bool {
    let mut right = matches!(&slots.read(slot), Err(ReadFailure::NotThere(_)));
    let Ok(writing) = slots.take(slot) else {
        return false;
    };
    let (_, before) = writing.put(7, 70);
    right &= before.is_none();
    let Ok(writing) = slots.take(slot) else {
        return false;
    };
    let (laid, before) = writing.put(slot as u64, of_slot(slot));
    right &= before == Some((7, 70));
    right && laid.slot() == slot && laid.number() == slot as u64
}

/// Whether the slot's own value lies in it, with its number.
fn has_own(slots: &Slots<u64>, slot: u32) -> bool {
    let Ok(reading) = slots.read(slot) else {
        return false;
    };
    reading.number() == slot as u64 && *reading.get() == of_slot(slot)
}

/// Takes the slot's own value out. True if that is what came out, and the slot is empty then.
fn take_own(slots: &Slots<u64>, slot: u32) -> bool {
    let Ok(writing) = slots.take(slot) else {
        return false;
    };
    writing.empty() == Some((slot as u64, of_slot(slot)))
        && matches!(&slots.read(slot), Err(ReadFailure::NotThere(_)))
}

/// Whether a slot past the last one is neither read nor taken.
fn is_past(slots: &Slots<u64>, slot: u32) -> bool {
    matches!(&slots.read(slot), Err(ReadFailure::NoSlot))
        && matches!(&slots.take(slot), Err(TakeFailure::NoSlot))
}

/// Fills `number` slots, each with its own value, reads all of them, and then empties them. True if each slot
/// kept its own value.
fn keep_all(slots: &Slots<u64>, number: u32) -> bool {
    let mut right = is_past(slots, number);
    for slot in 0..number {
        right &= lay(slots, slot);
    }
    for slot in 0..number {
        right &= has_own(slots, slot);
    }
    for slot in 0..number {
        right &= take_own(slots, slot);
    }
    right
}

/// Slots of five numbers keep their values apart. A slot that shares a word of state or a place with another
/// one would show that one's value.
#[test]
fn each_slot_keeps_its_value(rt: HostRuntime) -> Result<(), Fail> {
    for number in [2, 64, 65, 300, 5_000] {
        let slots: Slots<u64> = Slots::new(rt.alloc(), number)?;
        assert!(rt; keep_all(&slots, number));
    }
    Ok(())
}

// ---- channels

/// Sends three times the next number. False where there is no loan, or a place comes back.
fn send_next(rt: &impl Wait, sender: &mut Sender<'_, u64>) -> bool
    ensures { IsSame (sender_of sender.old) (sender_of sender.new) }
{
    let number = sender.next_number();
    let Ok(mut loan) = sender.loan(rt) else {
        return false;
    };
    loan.value = number.wrapping_mul(3);
    sender.send(loan).is_none()
}

/// The next sample. None where none waits, where its number is another one, or where its value is not three
/// times that number.
fn receive_next(rt: &impl Wait, receiver: &mut Receiver<'_, u64>, number: u64) -> Option<Sample>
    ensures { IsSameReceiver receiver.old receiver.new }
{
    let sample = receiver.receive(rt)?;
    let is_right = match receiver.read(&sample) {
        Ok(reading) => { reading.number() == number && *reading.get() == number.wrapping_mul(3) }
        Err(_) => false,
    };
    if is_right && sample.number() == number {
        Some(sample)
    } else {
        receiver.give_back(sample);
        None
    }
}

/// Receives the values of the next `left` numbers, all of them before it gives one back, and the last one back first. True if they
/// came in order, and none waits behind them.
fn hold(rt: &impl Wait, receiver: &mut Receiver<'_, u64>, left: u64, number: u64) -> bool {
    if left == 0 {
        return finds_none(rt, receiver);
    }
    let Some(sample) = receive_next(rt, receiver, number) else {
        return false;
    };
    let rest = hold(rt, receiver, left - 1, number.wrapping_add(1));
    receiver.give_back(sample) && rest
}

/// Sends a value by each place, with the numbers from `first` on, and receives all of them before it gives
/// one back. True if no further loan comes while all places are out, the values come in order, and each place
/// is taken back.
fn go_round(
    rt: &impl Wait,
    sender: &mut Sender<'_, u64>,
    receiver: &mut Receiver<'_, u64>,
    places: u64,
    first: u64,
) -> bool {
    let mut right = true;
    for _ in 0..places {
        right &= send_next(rt, sender);
    }
    right &= !send_next(rt, sender);
    right &= hold(rt, receiver, places, first);
    for _ in 0..places {
        right &= sender.take_back().is_some();
    }
    right & sender.take_back().is_none()
}

/// Writes three times the number with which the value is sent.
#[derive(Drop)]
struct Triples;

impl Writes<u64, Anything> for Triples {
    fn write(&mut self, number: u64, value: &mut u64) -> bool {
        *value = number.wrapping_mul(3);
        true
    }
}

/// Tells the value that it reads.
#[derive(Drop)]
struct Plain;

impl Reads<u64, Anything, u64> for Plain {
    ghost tells = { λ _ _. Unit {0} };

    fn read(&mut self, value: &u64) -> Option<u64> {
        Some(*value)
    }
}

/// Whether there are `many` numbers, from `first` on, each by `by` greater than the one before it.
fn rise(numbers: &[u64], many: usize, first: u64, by: u64) -> bool {
    let mut next = first;
    for number in numbers {
        if *number != next {
            return false;
        }
        next = next.wrapping_add(by);
    }
    numbers.len() == many
}

/// Sends one value in the place that is free, and two more in places that are taken back between the
/// tries, of the `back` places that wait to come back. True if the rest of these can be taken back
/// then, and no further one.
fn send_on(rt: &impl Wait, alloc: Global, sender: &mut Sender<'_, u64>, back: u32) -> bool {
    let mut right = sender.send_each(rt, alloc, 1, 1, &mut Triples).is_some();
    right &= sender.send_each(rt, alloc, 2, 2, &mut Triples).is_some();
    for _ in 2..back {
        right &= sender.take_back().is_some();
    }
    right & sender.take_back().is_none()
}

/// Sends `room` values and three more on a channel whose queue has room for all places but one. True if just
/// the three oldest come back, all others are read in order, and no further one, and places go on being used
/// (`send_on`). None where a value could not be sent or read.
fn receive_each(
    rt: &impl Wait,
    alloc: Global,
    sender: &mut Sender<'_, u64>,
    receiver: &mut Receiver<'_, u64>,
    room: u32,
) -> Option<bool> {
    let many = room as usize;
    let back = sender.send_each(rt, alloc, room, 1, &mut Triples)?;
    let more = sender.send_each(rt, alloc, 3, 1, &mut Triples)?;
    let mut right = back.is_empty() && rise(&more, 3, 0, 1);
    let told = receiver.read_each(rt, alloc, many, 1, &mut Plain)?;
    right &= rise(&told, many, 9, 3);
    right &= receiver.read_each(rt, alloc, 1, 1, &mut Plain).is_none();
    Some(right & send_on(rt, alloc, sender, room))
}

/// Makes a channel of this many places with a queue of `room`. With room for all it plays two rounds in which
/// each value is read (`go_round`). With less room than places the oldest values are pushed out
/// (`receive_each`). None where memory or an end is refused.
fn through(rt: &impl Wait, alloc: Global, places: u32, room: u32) -> Option<bool> {
    let mut channel: Channel<u64> = Channel::new(alloc, places as usize, room as usize).ok()?;
    let spares = vec![in alloc; 0u64; places as usize + 1].ok()?;
    let (mut sender, mut receiver) = channel.ends(alloc, spares)?;
    if room < places {
        return receive_each(rt, alloc, &mut sender, &mut receiver, room);
    }
    let many = places as u64;
    let one = go_round(rt, &mut sender, &mut receiver, many, 0);
    let other = go_round(rt, &mut sender, &mut receiver, many, many);
    Some(one & other)
}

/// Channels of eight sizes use all their places, twice. A place that is never used, or used while its value
/// is still read, would show in a refusal or a wrong value.
#[test]
fn all_places_are_used(rt: HostRuntime) -> Result<(), Fail> {
    for places in [1, 5, 9, 64, 65, 100, 300, 1_000] {
        assert!(rt; through(&rt, rt.alloc(), places, places) == Some(true));
    }
    Ok(())
}

/// Channels with one place more than the queue has room push the oldest values out and lose no other one. A
/// place that does not come back would be missing in `send_on`.
#[test]
fn each_is_sent_and_read(rt: HostRuntime) -> Result<(), Fail> {
    for room in [4u32, 8, 63, 64, 99, 299, 999] {
        let places = room.saturating_add(1);
        assert!(rt; through(&rt, rt.alloc(), places, room) == Some(true));
    }
    Ok(())
}

/// Receives the value of this number and gives it back. True if it could be given back; None where this value
/// did not come.
fn give_back_next(rt: &impl Wait, receiver: &mut Receiver<'_, u64>, number: u64) -> Option<bool>
    ensures { IsSameReceiver receiver.old receiver.new }
{
    let sample = receive_next(rt, receiver, number)?;
    Some(receiver.give_back(sample))
}

/// Receives and gives back the second value that the ends before these sent, whose number is `first` - 1.
/// Without earlier ends (`first` is 0) it does nothing.
fn give_back_earlier(rt: &impl Wait, receiver: &mut Receiver<'_, u64>, first: u64) -> Option<bool>
    ensures { IsSameReceiver receiver.old receiver.new }
{
    if first == 0 {
        return Some(true);
    }
    give_back_next(rt, receiver, first.wrapping_sub(1))
}

/// Makes new ends of the channel, sends two values by them, and hands the parts of both ends in. The value
/// that waited from the ends before is received, and then the first of the two. True if the numbers go on
/// from `first`, and all of that came. None where a part is refused or a value did not come.
fn in_turn(rt: &impl Wait, alloc: Global, channel: &mut Channel<u64>, first: u64) -> Option<bool> {
    let (sends_of, receives_of) = channel.open()?;
    let spares = vec![in alloc; 0u64; 10].ok()?;
    let (mut sender, mut receiver) = channel.ends_with(alloc, spares, sends_of, receives_of)?;
    let mut right = sender.next_number() == first;
    right &= send_next(rt, &mut sender);
    right &= send_next(rt, &mut sender);
    right &= give_back_earlier(rt, &mut receiver, first)?;
    right &= give_back_next(rt, &mut receiver, first)?;
    let (left, _) = sender.finish_all();
    let other = receiver.finish();
    channel.relayed(left, other);
    Some(right)
}

/// Four pairs of ends, one after another, send two values each, and each pair receives what the one before
/// left. At the end the last value comes with its number 7, and no other one. None where memory or a part is
/// refused, or a value did not come.
fn go_on(rt: &impl Wait, alloc: Global) -> Option<bool> {
    let mut channel: Channel<u64> = Channel::new(alloc, 9, 9).ok()?;
    let mut right = true;
    for at in 0..4u64 {
        right &= in_turn(rt, alloc, &mut channel, at.wrapping_mul(2))?;
    }
    let (sends_of, receives_of) = channel.open()?;
    let (_sender, mut receiver) = channel.ends_with(alloc, Vec::new(alloc), sends_of, receives_of)?;
    right &= give_back_next(rt, &mut receiver, 7)?;
    Some(right & finds_none(rt, &mut receiver))
}

/// Numbers go on with the next ends of a channel, and a value that waited comes with its own number. If they
/// began anew, two values would have one number.
#[test]
fn numbers_go_on(rt: HostRuntime) -> Result<(), Fail> {
    assert!(rt; go_on(&rt, rt.alloc()) == Some(true));
    Ok(())
}

// ---- pools

/// Whether an `acquire` is refused since no place is free.
fn has_none(rt: &impl Wait, lender: &mut Lender<'_, u64>) -> bool {
    matches!(&lender.acquire(rt), Err(PoolFailure::NoPlace(_)))
}

/// The buffers of all `places` places of the pool. None where one is refused.
fn take_all<'a>(
    rt: &impl Wait,
    alloc: Global,
    lender: &mut Lender<'a, u64>,
    places: u32,
) -> Option<Vec<Buffer<'a, u64>>> {
    let mut buffers = Vec::new(alloc);
    for _ in 0..places {
        buffers.push(lender.acquire(rt).ok()?).ok()?;
    }
    Some(buffers)
}

/// Puts the value of its place (`of_slot`) into a buffer, and gives it back. True if it was laid into the
/// slot of that place.
fn lay_own(mut buffer: Buffer<'_, u64>) -> bool {
    let place = buffer.place();
    buffer.number = place as u64;
    buffer.value = Some(of_slot(place));
    matches!(&buffer.give_back(), Ok(Some(laid)) if laid.slot() == place && laid.number() == place as u64)
}

/// Whether a buffer has the value of its place, or none if `is_empty`. One at an even place is given back;
/// one at an odd place is dropped.
fn is_own(buffer: Buffer<'_, u64>, is_empty: bool) -> bool {
    let place = buffer.place();
    let is_right = if is_empty {
        buffer.value.is_none()
    } else {
        buffer.number == place as u64 && buffer.value == Some(of_slot(place))
    };
    if place % 2 == 1 {
        return is_right;
    }
    is_right & buffer.give_back().is_ok()
}

/// Puts its own value into each buffer in the first round, and looks for it in the two later ones. The
/// buffers at odd places are dropped in the second round, and come without a value in the third.
fn use_all(buffers: Vec<Buffer<'_, u64>>, round: u32) -> bool {
    let mut right = true;
    for buffer in buffers {
        let is_odd = buffer.place() % 2 == 1;
        right &= if round == 0 {
            lay_own(buffer)
        } else {
            is_own(buffer, round == 2 && is_odd)
        };
    }
    right
}

/// Takes all buffers of a pool in three rounds. True if each place keeps its own value until its buffer is
/// dropped, and no further buffer comes while all are out. None where memory or a buffer is refused.
fn keep_own(rt: &impl Wait, alloc: Global, places: u32) -> Option<bool> {
    let mut pool: Pool<u64> = Pool::new(alloc, places as usize).ok()?;
    let mut lender = pool.lender()?;
    let mut right = true;
    for round in 0..3u32 {
        let buffers = take_all(rt, alloc, &mut lender, places)?;
        right &= has_none(rt, &mut lender);
        right &= use_all(buffers, round);
    }
    Some(right)
}

/// Each place of a pool is taken by one at a time, and what was given back lies there with its number.
/// After a drop the place is free, and nothing lies there. A failure says that two places share a
/// slot, or a place was lost.
#[test]
fn each_place_of_a_pool_keeps_its_value(rt: HostRuntime) -> Result<(), Fail> {
    for places in [2, 5, 9, 64, 65, 100, 300, 1_000] {
        assert!(rt; keep_own(&rt, rt.alloc(), places) == Some(true));
    }
    Ok(())
}
