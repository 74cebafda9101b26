//! Rows of steps on a bus with eight slots and two subscribers, taken by one thread, and the sizes that a bus
//! refuses. A number in a row is that of a record, of an owner, of tries or of a slot (`rooms::Step`).
use crate::rooms::Step::{
    Collects, Dies, DropsLoan, Forgets, Gets, GivesUp, HasSeat, IsNext, IsStillRead, Joins, Leaves,
    Loans, LoansBy, Out, Publishes, Reads, ReadsOn, Reclaims, Recovers, Updates, WaitsForLoan,
};
use crate::rooms::Who::{One, Other};
use crate::rooms::{Row, SIZES, Step, WORDS};
use crate::stage::on_new_bus;
use crate::words::Words;
use std::sync::Wait;
use std::test::Fail;
use zero_copy_bus::bus::{Bus, Sizes};
use zero_copy_bus::error::BusError;
use zero_copy_bus::news::News;
use zero_copy_slots::Anything;

/// Both subscribers get each record, in order, and its slot comes back only after both have given it back.
const BOTH: [Step; 9] = [
    Publishes(7, 2),
    Out(1),
    Reads(One, 7),
    Collects,
    Out(1),
    Reads(Other, 7),
    Collects,
    Out(0),
    Gets(One, 1, false),
];

/// Two records wait for a subscriber that is slow, and the slots of the records that were
/// published before come back.
const SLOW: [Step; 11] = [
    Publishes(0, 1),
    Publishes(1, 1),
    Publishes(2, 1),
    Publishes(3, 1),
    Publishes(4, 1),
    Out(2),
    Reads(One, 3),
    Reads(One, 4),
    Gets(One, 1, false),
    Collects,
    Out(0),
];

/// Eight loans take all slots, and no ninth comes until one of them is given up.
const LOANS: [Step; 12] = [
    Loans(true),
    Loans(true),
    Loans(true),
    Loans(true),
    Loans(true),
    Loans(true),
    Loans(true),
    Loans(true),
    Loans(false),
    GivesUp,
    Out(7),
    Loans(true),
];

/// After both subscribers have left, all slots come back: the one in hand, the one that was given back, and
/// those of the records that waited.
const LEFT: [Step; 14] = [
    Publishes(0, 2),
    Publishes(1, 2),
    Publishes(2, 2),
    Gets(One, 1, true),
    Reads(One, 2),
    Leaves(One),
    Leaves(Other),
    Updates,
    Out(0),
    Publishes(3, 0),
    Out(0),
    Joins(One, 3),
    Publishes(4, 1),
    Reads(One, 4),
];

/// What a dead subscriber had comes back once its owner is recovered, and not before, and its
/// place is not free before.
const DEAD: [Step; 17] = [
    Publishes(0, 2),
    Gets(Other, 1, true),
    Publishes(1, 2),
    Dies(Other),
    Reads(One, 0),
    Reads(One, 1),
    Collects,
    Updates,
    Out(2),
    HasSeat(false),
    Recovers(2),
    Out(0),
    Joins(Other, 3),
    Publishes(2, 2),
    Reads(Other, 2),
    Gets(Other, 1, false),
    Reads(One, 2),
];

/// A dead subscriber had given a slot back which the publisher did not collect. The slot is used again after
/// the recovery, by record 3, and is out until both subscribers have given that record back: what the dead
/// one gave back does not free it.
const GIVEN: [Step; 17] = [
    Publishes(0, 2),
    Reads(Other, 0),
    Dies(Other),
    Recovers(2),
    Joins(Other, 3),
    Publishes(1, 2),
    Publishes(2, 2),
    Publishes(3, 2),
    Collects,
    Reads(One, 2),
    Reads(One, 3),
    Collects,
    Out(2),
    Reads(Other, 2),
    Reads(Other, 3),
    Collects,
    Out(0),
];

/// A seat that was dropped without a `join` is free again once the publisher has looked.
const SEATS: [Step; 6] = [
    HasSeat(true),
    HasSeat(true),
    HasSeat(false),
    Updates,
    HasSeat(true),
    HasSeat(true),
];

/// A reading that is forgotten holds its slot: the next loan is refused and names this slot, which cannot be
/// reclaimed. Other slots are loaned and read as before.
const FORGOTTEN: [Step; 10] = [
    Publishes(0, 1),
    Forgets(One),
    Collects,
    Out(0),
    IsStillRead(0),
    Reclaims(0, false),
    Out(1),
    Publishes(1, 1),
    Reads(One, 1),
    IsNext(2),
];

/// A call with one try finds a slot whose reading is forgotten, and gets no loan. The slot stays out, so the
/// next call gets another one. Only the record in that slot is lost.
const FORGOTTEN_PAST: [Step; 9] = [
    Publishes(0, 1),
    Forgets(One),
    LoansBy(1, false),
    Out(1),
    LoansBy(1, true),
    Out(1),
    Reclaims(0, false),
    LoansBy(70, true),
    Out(1),
];

/// A call with two tries gets another slot by its second try, after the first one found a slot
/// whose reading is forgotten.
const FORGOTTEN_BY_TWO: [Step; 4] = [Publishes(0, 1), Forgets(One), LoansBy(2, true), Out(1)];

/// A publisher that waits for a loan gets another slot, and does not stay at the one that is held for good.
const FORGOTTEN_WAITED: [Step; 4] = [Publishes(0, 1), Forgets(One), WaitsForLoan, Out(1)];

/// A limit of 0 tries takes nothing, neither a loan nor a record. A try to loan first takes back what was
/// given back. Where no try brings a loan or a record, no slot and no number is used up.
const LIMITS: [Step; 38] = [
    LoansBy(0, false),
    LoansBy(1, true),
    Out(0),
    Gets(One, 0, false),
    Gets(One, 1, false),
    Gets(One, 70, false),
    Publishes(0, 1),
    Gets(One, 0, false),
    Reads(One, 0),
    Publishes(1, 1),
    Publishes(2, 1),
    Gets(One, 70, true),
    Reads(One, 2),
    Gets(One, 70, false),
    Loans(true),
    Loans(true),
    Loans(true),
    Loans(true),
    Loans(true),
    Out(8),
    Loans(false),
    LoansBy(0, false),
    Out(8),
    LoansBy(1, true),
    Out(6),
    Loans(true),
    Loans(true),
    Out(8),
    LoansBy(0, false),
    LoansBy(1, false),
    LoansBy(70, false),
    Out(8),
    IsNext(3),
    GivesUp,
    LoansBy(70, true),
    Out(7),
    Publishes(3, 1),
    Reads(One, 3),
];

/// The slot of a loan that was dropped is free once it is reclaimed. The slot of a loan in
/// hand is not reclaimed.
const DROPPED: [Step; 9] = [
    Loans(true),
    Reclaims(0, false),
    DropsLoan,
    Out(1),
    Reclaims(1, false),
    Reclaims(0, true),
    Out(0),
    Publishes(0, 0),
    IsNext(1),
];

/// The slot of a second loan, which was dropped, is free once it is reclaimed. The slot of the first one, in
/// hand, is not reclaimed.
const DROPPED_OTHER: [Step; 7] = [
    Loans(true),
    Loans(true),
    Out(2),
    Reclaims(0, false),
    Reclaims(1, true),
    Out(1),
    GivesUp,
];

/// A record in a slot that was still read is written again once the slot is reclaimed. By 17 rounds with 16
/// records a lost record would show.
const READ_ON: [Step; 4] = [Publishes(0, 2), Reads(Other, 0), ReadsOn, Out(0)];

/// A lane is free after one look. The subscriber that left had given back all slots that there are, and
/// nothing was collected before.
const ALL_GIVEN: [Step; 20] = [
    Publishes(0, 1),
    Reads(One, 0),
    Publishes(1, 1),
    Reads(One, 1),
    Publishes(2, 1),
    Reads(One, 2),
    Publishes(3, 1),
    Reads(One, 3),
    Publishes(4, 1),
    Reads(One, 4),
    Publishes(5, 1),
    Reads(One, 5),
    Publishes(6, 1),
    Reads(One, 6),
    Publishes(7, 1),
    Reads(One, 7),
    Out(8),
    Leaves(One),
    Updates,
    Out(0),
];

/// The record of a loan that was given up is written again, and so is the record that lay in its slot before.
/// By 100 rounds with 16 records a lost record would show.
const GIVEN_UP: [Step; 3] = [Publishes(0, 0), Loans(true), GivesUp];

/// A publisher that has no record in a slot hands out all its records when it finishes.
const NONE_LEFT: [Step; 2] = [Loans(true), GivesUp];

/// Both subscribers take a seat, and no further seat is free.
const JOIN: [Step; 3] = [Joins(One, 1), Joins(Other, 2), HasSeat(false)];

/// One subscriber takes a seat.
const JOIN_ONE: [Step; 1] = [Joins(One, 1)];

/// How many records a bus of these rows has to write.
const RECORDS: usize = 16;

/// Plays each row on a new bus. A row is its name, its steps to begin with, its steps, their rounds, and how
/// many records have to be left at least when the publisher finishes. A failure names the row, and the place
/// of the step that came to something else.
#[test]
fn rows(rt: HostRuntime) -> Result<(), Fail> {
    // (name, steps taken once, steps of each round, rounds, least number of records that are left)
    let rows: [(&str, &[Step], &[Step], usize, usize); 18] = [
        ("BOTH", &JOIN, &BOTH, 100, 0),
        ("SLOW", &JOIN_ONE, &SLOW, 3, 0),
        ("LOANS", &[], &LOANS, 1, 0),
        ("LEFT", &JOIN, &LEFT, 1, 0),
        ("DEAD", &JOIN, &DEAD, 1, 0),
        ("GIVEN", &JOIN, &GIVEN, 1, 0),
        ("SEATS", &[], &SEATS, 1, 0),
        ("FORGOTTEN", &JOIN_ONE, &FORGOTTEN, 1, 0),
        ("FORGOTTEN_PAST", &JOIN_ONE, &FORGOTTEN_PAST, 1, RECORDS - 1),
        (
            "FORGOTTEN_BY_TWO",
            &JOIN_ONE,
            &FORGOTTEN_BY_TWO,
            1,
            RECORDS - 1,
        ),
        (
            "FORGOTTEN_WAITED",
            &JOIN_ONE,
            &FORGOTTEN_WAITED,
            1,
            RECORDS - 1,
        ),
        ("LIMITS", &JOIN_ONE, &LIMITS, 1, 0),
        ("DROPPED", &[], &DROPPED, 1, 0),
        ("DROPPED_OTHER", &[], &DROPPED_OTHER, 1, 0),
        ("READ_ON", &JOIN, &READ_ON, 17, 0),
        ("ALL_GIVEN", &JOIN_ONE, &ALL_GIVEN, 1, 0),
        ("GIVEN_UP", &[], &GIVEN_UP, 100, 0),
        ("NONE_LEFT", &[], &NONE_LEFT, 1, RECORDS),
    ];
    for (name, begin, steps, rounds, least) in &rows {
        let row = Row {
            begin,
            steps,
            rounds: *rounds,
        };
        let (wrong, left) = on_new_bus(&rt, rt.alloc(), SIZES, RECORDS, WORDS, &row)?;
        assert_eq!(rt; wrong, None, "{name}");
        assert!(rt; left >= *least, "{name}");
    }
    Ok(())
}

/// Sizes that a bus refuses, and whether it refuses them because of too many subscribers. At
/// most 63 may subscribe.
const REFUSED: [(Sizes, bool); 6] = [
    (Sizes { slots: 0, ..SIZES }, false),
    (
        Sizes {
            slots: 1 << 24,
            ..SIZES
        },
        false,
    ),
    (
        Sizes {
            subscribers: 0,
            ..SIZES
        },
        false,
    ),
    (
        Sizes {
            subscribers: 64,
            ..SIZES
        },
        true,
    ),
    (
        Sizes {
            subscribers: 70,
            ..SIZES
        },
        true,
    ),
    (
        Sizes {
            queue: 1 << 32,
            ..SIZES
        },
        false,
    ),
];

/// Each size of `REFUSED` is refused for its reason, and a bus whose queues hold no record can be made.
#[test]
fn a_bus_has_sizes(rt: HostRuntime) -> Result<(), Fail> {
    for (sizes, are_many) in &REFUSED {
        let is_refused = match Bus::<Words, Anything>::new(rt.alloc(), *sizes) {
            Err(BusError::TooManySubscribers) => *are_many,
            Err(_) => !*are_many,
            Ok(_) => false,
        };
        assert!(rt; is_refused);
    }
    let least = Sizes { queue: 0, ..SIZES };
    Bus::<Words, Anything>::new(rt.alloc(), least)?;
    Ok(())
}

/// Tells of the topics 69 and 3, the latter twice, and refuses topic 70 of a bus of 70 topics. The
/// listener hears nothing before that and each topic once after it, the lower one first. None where
/// an end is not to be had.
fn is_heard(rt: &impl Wait, news: &mut News) -> Option<bool> {
    let (mut notifier, mut listener) = news.ends()?;
    let mut right = listener.next(rt).is_none();
    right &= notifier.notify(rt, 69);
    right &= notifier.notify(rt, 3);
    right &= notifier.notify(rt, 3);
    right &= !notifier.notify(rt, 70);
    right &= listener.next(rt) == Some(3);
    right &= listener.next(rt) == Some(69);
    Some(right & listener.next(rt).is_none())
}

/// A topic that was told of twice is heard once. If it were heard twice, or not at all, a listener would look
/// in vain or miss what is new.
#[test]
fn a_topic_has_news_until_it_is_heard(rt: HostRuntime) -> Result<(), Fail> {
    let mut news = News::new(rt.alloc(), 70)?;
    assert!(rt; is_heard(&rt, &mut news) == Some(true));
    Ok(())
}
