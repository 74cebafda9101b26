//! A publisher and three subscribers in four threads: one subscriber is slow, one dies with slots in hand,
//! and one joins late. They wait for slots and for records by calls with a limit of tries, so that all of
//! them give up at last, and the test fails, if the bus loses a slot or a record.
ghost use Rattle.std.specs.Prelude.{◌≡◌, IfSome};

use crate::limit::{TURNS, wait_for};
use crate::stage::Failure;
use crate::words::{OwnNumber, Words, is_whole, spares, write};
use lock_free::mpmc::container::OwnerId;
use std::alloc::Global;
use std::sync::Wait;
use std::sync::atomic::{AtomicU64, Ordering};
use std::test::Fail;
use std::thread;
use std::thread::Threads;
use zero_copy_bus::bus::{Bus, Sizes};
use zero_copy_bus::news::{News, Notifier};
use zero_copy_bus::numbers::Sequence;
use zero_copy_bus::publisher::Publisher;
use zero_copy_bus::subscriber::{Sample, Seat, Subscriber};

/// How many records are published before the late subscriber joins. The publisher goes on only once it has
/// joined, and another subscriber has died.
const MIDDLE: u64 = 1_000;

/// Up to the record of this number the publisher waits for a subscriber now and then (`EVERY`). From there on
/// it waits for nobody.
const LEAST: u64 = 2_000;

/// How many records are published in all.
const RECORDS: u64 = 4_000;

/// At each record whose number is a multiple of this, the publisher waits until a subscriber has got one more
/// record. It is the slow one before `MIDDLE`, and the late one from there to `LEAST`.
const EVERY: u64 = 16;

/// Records that are published one after another, from `first` to before `end`. At each number that is a
/// multiple of `every` the publisher waits for a subscriber.
#[derive(Clone, Copy)]
struct Part {
    first: u64,
    end: u64,
    every: u64,
}

/// The records up to the death of a subscriber. At each 16th the publisher waits for the slow subscriber.
const BEFORE_DEATH: Part = Part {
    first: 0,
    end: MIDDLE,
    every: EVERY,
};

/// The records from the death up to `LEAST`. At each 16th the publisher waits for the late subscriber.
const AFTER_DEATH: Part = Part {
    first: MIDDLE,
    end: LEAST,
    every: EVERY,
};

/// The last records. The publisher waits at none of them, since none of their numbers is a
/// multiple of `RECORDS`.
const REST: Part = Part {
    first: LEAST,
    end: RECORDS,
    every: RECORDS,
};

/// How many records the subscriber who dies has received and not given back.
const KEPT: u64 = 3;

/// How often the slow subscriber reads each record again.
const LOOKS: u64 = 20;

/// How many words each record has.
const WORDS: usize = 16;

/// The sizes of the bus: 24 slots, three subscribers, and four records that wait for each.
const SIZES: Sizes = Sizes {
    slots: 24,
    subscribers: 3,
    queue: 4,
};

/// What the threads tell each other. Each word is a count that only rises.
struct Shared {
    /// How many records were published.
    published: AtomicU64,
    /// How many subscribers have joined.
    joined: AtomicU64,
    /// How many subscribers have died.
    dead: AtomicU64,
    /// How many subscribers have left.
    left: AtomicU64,
    /// How many records came to the slow subscriber.
    slow: AtomicU64,
    /// How many records came to the late subscriber.
    late: AtomicU64,
}

impl Drop for Shared {
    fn drop(self) {
        let Self {
            published: _published,
            joined: _joined,
            dead: _dead,
            left: _left,
            slow: _slow,
            late: _late,
        } = self;
    }
}

/// Publishes a record of this number, and tells the listener that there is one. False where no slot came by
/// `TURNS` tries, where the next number of the bus is another one, or where there was no memory for the text.
fn publish(
    rt: &impl Wait,
    publisher: &mut Publisher<'_, Words, OwnNumber>,
    notifier: &mut Notifier<'_>,
    number: u64,
) -> bool {
    publisher.update(rt);
    let Some(mut loan) = publisher.loan_within(rt, TURNS) else {
        return false;
    };
    let is_written = write(&mut loan.value, number);
    let next = publisher.next_number();
    loan.value.number = next;
    publisher.publish(loan);
    notifier.notify(rt, 0);
    is_written && next == number
}

/// Publishes the records of this part in order. At some of them it waits until `came`, the count of a
/// subscriber's records, has risen. False where a record could not be published, or a wait reached its limit.
fn publish_part(
    rt: &impl Wait,
    publisher: &mut Publisher<'_, Words, OwnNumber>,
    notifier: &mut Notifier<'_>,
    part: Part,
    came: &AtomicU64,
    shared: &Shared,
) -> bool {
    for number in part.first..part.end {
        let before = came.load(Ordering::SeqCst);
        if !publish(rt, publisher, notifier, number) {
            return false;
        }
        shared
            .published
            .store(number.wrapping_add(1), Ordering::SeqCst);
        if number.checked_rem(part.every) == Some(0) && !wait_for(came, before.wrapping_add(1)) {
            return false;
        }
    }
    true
}

/// What the publisher found: how many slots were out once a subscriber had died and before it was recovered,
/// and how many in the end.
#[derive(Clone, Copy)]
struct Published {
    out_at_death: usize,
    out: usize,
}

/// Publishes all records, recovers the subscriber who has died, and waits until the other two have left. None
/// where a record could not be published, or a wait reached its limit.
fn publish_all(
    rt: &impl Wait,
    publisher: &mut Publisher<'_, Words, OwnNumber>,
    notifier: &mut Notifier<'_>,
    dead: OwnerId,
    shared: &Shared,
) -> Option<Published> {
    let has_died = wait_for(&shared.joined, 2)
        && publish_part(rt, publisher, notifier, BEFORE_DEATH, &shared.slow, shared)
        && wait_for(&shared.dead, 1)
        && wait_for(&shared.joined, 3);
    if !has_died {
        return None;
    }
    let out_at_death = publisher.borrowed();
    publisher.recover(rt, dead);
    let are_out = publish_part(rt, publisher, notifier, AFTER_DEATH, &shared.late, shared)
        && publish_part(rt, publisher, notifier, REST, &shared.late, shared);
    if !are_out || !wait_for(&shared.left, 2) {
        return None;
    }
    publisher.update(rt);
    Some(Published {
        out_at_death,
        out: publisher.borrowed(),
    })
}

/// The number that a record was published with, and the number that stands in it. They are equal by the rule
/// of the record type. None where the record has a word or a text of another number.
fn numbers_of(subscriber: &Subscriber<'_, Words, OwnNumber>, sample: &Sample) -> Option<(u64, u64)>
    ensures { IfSome result (λ r. r.0 ≡ r.1) }
{
    let reading = subscriber.read(sample).ok()?;
    let words = reading.get();
    if !is_whole(words, words.number, WORDS) {
        return None;
    }
    Some((reading.number(), words.number))
}

/// Reads the record `looks` times more, and returns its number. None where it was torn, or changed
/// between two readings.
fn number_still(
    subscriber: &Subscriber<'_, Words, OwnNumber>,
    sample: &Sample,
    looks: u64,
) -> Option<u64> {
    let (found, _) = numbers_of(subscriber, sample)?;
    for _ in 0..looks {
        let (again, _) = numbers_of(subscriber, sample)?;
        if again != found {
            return None;
        }
    }
    Some(found)
}

/// Receives records until the one of the last number, reads each `looks` times more, and gives it back. It
/// returns how many records came, and counts them in `came`. None where a record was torn, did not come by
/// `TURNS` tries, or was not newer than the one before. The last record always comes, since no later one
/// pushes it out.
fn receive_all(
    rt: &impl Wait,
    subscriber: &mut Subscriber<'_, Words, OwnNumber>,
    looks: u64,
    came: &AtomicU64,
) -> Option<u64> {
    let (mut number, mut numbers) = (0u64, Sequence::from(0));
    for _ in 0..RECORDS {
        let sample = subscriber.receive_within(rt, TURNS)?;
        let found = number_still(subscriber, &sample, looks);
        let is_back = subscriber.give_back(sample);
        let found = found?;
        numbers.follow(found)?;
        if !is_back {
            return None;
        }
        number = number.wrapping_add(1);
        came.store(number, Ordering::SeqCst);
        if found == RECORDS - 1 {
            return Some(number);
        }
    }
    None
}

/// Joins once `joins_at` records have been published, receives all that come, and leaves. It returns how many
/// records came, or None where it gave up.
fn subscribe(
    rt: &impl Wait,
    seat: Seat<'_, Words, OwnNumber>,
    owner: OwnerId,
    joins_at: u64,
    looks: u64,
    came: &AtomicU64,
    shared: &Shared,
) -> Option<u64> {
    if !wait_for(&shared.published, joins_at) {
        return None;
    }
    let mut subscriber = seat.join(rt, owner).ok()?;
    shared.joined.fetch_add(1, Ordering::SeqCst);
    let number = receive_all(rt, &mut subscriber, looks, came)?;
    subscriber.leave(rt).ok()?;
    shared.left.fetch_add(1, Ordering::SeqCst);
    Some(number)
}

/// Joins, receives `KEPT` records, and dies with them in hand. None where a record did not come.
fn die(
    rt: &impl Wait,
    seat: Seat<'_, Words, OwnNumber>,
    owner: OwnerId,
    shared: &Shared,
) -> Option<u64> {
    let mut subscriber = seat.join(rt, owner).ok()?;
    shared.joined.fetch_add(1, Ordering::SeqCst);
    for _ in 0..KEPT {
        subscriber.receive_within(rt, TURNS)?.keep();
    }
    drop(subscriber);
    shared.dead.fetch_add(1, Ordering::SeqCst);
    Some(KEPT)
}

/// What a run came to: what the publisher found, and how many records came to the slow and to
/// the late subscriber.
#[derive(Clone, Copy)]
struct Came {
    published: Published,
    slow: u64,
    late: u64,
}

/// Runs the publisher and the three subscribers in four threads. None where one of them gave up.
fn run<R: Threads + Wait + Sync>(
    rt: &R,
    publisher: &mut Publisher<'_, Words, OwnNumber>,
    notifier: &mut Notifier<'_>,
    seats: (
        Seat<'_, Words, OwnNumber>,
        Seat<'_, Words, OwnNumber>,
        Seat<'_, Words, OwnNumber>,
    ),
    owners: [OwnerId; 3],
    shared: &Shared,
) -> Option<Came> {
    let (slow, dead, late) = seats;
    let [first, second, third] = owners;
    let ((published, slow), (died, late)) = thread::join(
        rt,
        move || thread::join(
            rt,
            move || publish_all(rt, publisher, notifier, second, shared),
            move || subscribe(rt, slow, first, 0, LOOKS, &shared.slow, shared),
        ),
        move || thread::join(
            rt,
            move || die(rt, dead, second, shared),
            move || subscribe(rt, late, third, MIDDLE, 0, &shared.late, shared),
        ),
    );
    died?;
    Some(Came {
        published: published?,
        slow: slow?,
        late: late?,
    })
}

/// Makes three seats of this publisher and runs `run` with them. It also returns whether the listener hears
/// in the end that there was a record.
fn run_and_hear<R: Threads + Wait + Sync>(
    rt: &R,
    publisher: &mut Publisher<'_, Words, OwnNumber>,
    news: &mut News,
    owners: [OwnerId; 3],
) -> Option<(Came, bool)> {
    let shared = Shared {
        published: AtomicU64::new(0),
        joined: AtomicU64::new(0),
        dead: AtomicU64::new(0),
        left: AtomicU64::new(0),
        slow: AtomicU64::new(0),
        late: AtomicU64::new(0),
    };
    let (mut notifier, mut listener) = news.ends()?;
    let seats = (publisher.seat()?, publisher.seat()?, publisher.seat()?);
    let came = run(rt, publisher, &mut notifier, seats, owners, &shared)?;
    Some((came, listener.next(rt) == Some(0)))
}

/// Makes a bus and its publisher, and runs `run_and_hear` on it.
fn run_anew<R: Threads + Wait + Sync>(
    rt: &R,
    alloc: Global,
    owners: [OwnerId; 3],
) -> Result<Option<(Came, bool)>, Failure> {
    let (mut bus, pass) = Bus::new(alloc, SIZES)?;
    let spares = spares(alloc, SIZES.slots + 1, WORDS)?;
    let mut publisher = bus.publisher(rt, alloc, pass, spares)?;
    let Ok(mut news) = News::new(alloc, 1) else {
        return Err(Failure::NoMemory);
    };
    Ok(run_and_hear(rt, &mut publisher, &mut news, owners))
}

/// Runs the four threads once. In the end no slot is out, so none was lost with the dead subscriber or in a
/// queue. When that subscriber died at least the `KEPT` slots were out. The slow and the late subscriber got
/// at least the records that the publisher waited for.
#[test]
fn all_slots_are_free_in_the_end(rt: HostRuntime) -> Result<(), Fail> {
    let owners = [OwnerId::new(1)?, OwnerId::new(2)?, OwnerId::new(3)?];
    let (came, is_told) = run_anew(&rt, rt.alloc(), owners)?.ok_or("one gave up")?;
    assert_eq!(rt; came.published.out, 0);
    assert!(rt; came.published.out_at_death >= KEPT as usize);
    assert!(rt; came.slow >= MIDDLE / EVERY && came.slow <= RECORDS);
    assert!(rt; came.late >= (LEAST - MIDDLE) / EVERY && came.late <= RECORDS - MIDDLE);
    assert!(rt; is_told);
    Ok(())
}
