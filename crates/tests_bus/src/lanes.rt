//! Buses with few and with many subscribers, and with more slots than a byte or a word has bits. Each
//! subscriber reads each record just as it was published, and all records and slots come back. Who joins in a
//! freed lane finds nothing of the one who had it before.
use crate::rooms::{finds_none, publish, read};
use crate::stage::{Failure, Plays, check, on_new_bus, some};
use crate::words::Words;
use lock_free::mpmc::container::OwnerId;
use std::alloc::Global;
use std::sync::Wait;
use std::test::Fail;
use std::thread::Threads;
use zero_copy_bus::bus::Sizes;
use zero_copy_bus::error::{LoanFailure, ReclaimFailure, SubscribeFailure};
use zero_copy_bus::publisher::Publisher;
use zero_copy_bus::subscriber::Subscriber;

/// How many words each record has.
const WORDS: usize = 3;

/// How many slots a bus of `few_and_many_lanes` has, and how many rounds are played on it.
const ROOM: usize = 40;

/// Lets `lanes` subscribers join, with the owners 1, 2 and so on. It is wrong if one is not let in, or gets
/// another lane than the next one.
fn join_all<'a>(
    rt: &impl Wait,
    alloc: Global,
    publisher: &mut Publisher<'a, Words>,
    lanes: usize,
) -> Result<Vec<Subscriber<'a, Words>>, Failure> {
    let mut all = Vec::new(alloc);
    for lane in 0..lanes {
        let owner = some(OwnerId::new((lane as u64).saturating_add(1)).ok())?;
        let subscriber = some(publisher.subscribe(rt, owner).ok())?;
        check(subscriber.place() == lane as u64)?;
        if all.push(subscriber).is_err() {
            return Err(Failure::NoMemory);
        }
    }
    Ok(all)
}

/// Publishes two records to all subscribers. Each of them reads both in order, gives them back, and
/// finds no third. It returns how many slots are out once the publisher has taken back what they
/// gave back: 0 is right.
fn go_round(
    rt: &impl Wait,
    publisher: &mut Publisher<'_, Words>,
    all: &mut Vec<Subscriber<'_, Words>>,
) -> Result<usize, Failure> {
    let first = publisher.next_number();
    let second = some(first.checked_add(1))?;
    check(publish(rt, publisher, first)? == all.len())?;
    check(publish(rt, publisher, second)? == all.len())?;
    for subscriber in all.iter_mut() {
        check(read(rt, subscriber, first, WORDS) == Some(first))?;
        check(read(rt, subscriber, second, WORDS) == Some(second))?;
        check(finds_none(rt, subscriber))?;
    }
    publisher.collect();
    Ok(publisher.borrowed())
}

/// Lets each subscriber leave while a record waits for it. All slots have to come back by the next look, and
/// subscribers who join in the freed lanes find no record that was published before.
fn leave_all(
    rt: &impl Wait,
    alloc: Global,
    publisher: &mut Publisher<'_, Words>,
    all: Vec<Subscriber<'_, Words>>,
) -> Result<(), Failure> {
    let lanes = all.len();
    check(publish(rt, publisher, 0)? == lanes)?;
    let mut right = true;
    for subscriber in all {
        right &= subscriber.leave(rt).is_ok();
    }
    publisher.update(rt);
    check(right && publisher.is_free() && publisher.borrowed() == 0)?;
    let mut others = join_all(rt, alloc, publisher, lanes)?;
    for subscriber in others.iter_mut() {
        right &= finds_none(rt, subscriber);
        right &= subscriber.expected() == publisher.next_number();
    }
    check(go_round(rt, publisher, &mut others)? == 0 && right)
}

/// Plays a bus with this many lanes. When each lane has a subscriber, no further one is let in. Then `ROOM`
/// rounds of two records publish more records than there are slots, and all subscribers leave.
#[derive(Drop)]
struct Lanes {
    lanes: usize,
}

impl Plays for Lanes {
    fn play(
        &self,
        rt: &(impl Threads + Wait + Sync),
        alloc: Global,
        publisher: &mut Publisher<'_, Words>,
    ) -> Result<Option<usize>, Failure> {
        let mut all = join_all(rt, alloc, publisher, self.lanes)?;
        match publisher.subscribe(rt, some(OwnerId::new(99).ok())?) {
            Err(SubscribeFailure::NoSeat) => {}
            _ => return Err(Failure::Wrong),
        }
        for _ in 0..ROOM {
            check(go_round(rt, publisher, &mut all)? == 0)?;
        }
        leave_all(rt, alloc, publisher, all)?;
        Ok(None)
    }
}

/// Plays loans alone, on a bus that has one record less than it has slots. All records are on loan at once,
/// each in a slot of its own. Then the next loan is refused, since no record is left to write. A slot on
/// loan, and one past the last, cannot be reclaimed. Once a loan is given up the next one succeeds.
#[derive(Drop)]
struct Loans {
    slots: u32,
}

impl Plays for Loans {
    fn play(
        &self,
        rt: &(impl Threads + Wait + Sync),
        alloc: Global,
        publisher: &mut Publisher<'_, Words>,
    ) -> Result<Option<usize>, Failure> {
        let mut loans = Vec::new(alloc);
        for _ in 1..self.slots {
            if loans.push(some(publisher.loan(rt).ok())?).is_err() {
                return Err(Failure::NoMemory);
            }
        }
        let mut right = matches!(&publisher.loan(rt), Err(LoanFailure::NoRecord));
        let last = some(loans.pop())?;
        right &= matches!(
            &publisher.reclaim(last.slot()),
            Err(ReclaimFailure::InUse(_))
        );
        right &= matches!(&publisher.reclaim(self.slots), Err(ReclaimFailure::NotHeld));
        publisher.give_up(last);
        check(right && publisher.loan(rt).is_ok())?;
        Ok(None)
    }
}

/// Plays `Lanes` with 1, 4, 9 and 63 subscribers, the most that a bus has. A lane that is mixed up with
/// another one would give a subscriber the wrong record, or leave a slot out.
#[test]
fn few_and_many_lanes(rt: HostRuntime) -> Result<(), Fail> {
    for lanes in [1, 4, 9, 63] {
        let sizes = Sizes {
            slots: ROOM,
            subscribers: lanes,
            queue: 2,
        };
        on_new_bus(&rt, rt.alloc(), sizes, ROOM + 1, WORDS, &Lanes { lanes })?;
    }
    Ok(())
}

/// Plays `Loans` with 2, 25, 65 and 300 slots. A slot that is lost or handed out twice would show in a loan
/// that comes or is refused wrongly.
#[test]
fn many_slots_on_loan(rt: HostRuntime) -> Result<(), Fail> {
    for slots in [2u32, 25, 65, 300] {
        let sizes = Sizes {
            slots: slots as usize,
            subscribers: 1,
            queue: 1,
        };
        let records = sizes.slots.saturating_sub(1);
        on_new_bus(&rt, rt.alloc(), sizes, records, WORDS, &Loans { slots })?;
    }
    Ok(())
}
