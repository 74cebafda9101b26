//! Rows of steps on a loan channel, taken by one thread (`rooms::Step`). A number in a row is a value, the
//! number of a value, or a place.
use crate::rooms::Step::{
    DropsOther, FindsNone, Forgets, GivesUpOne, HasNoPlace, HasNoValue, IsNext, IsStillRead,
    KeepsOne, LoansOne, LoansOther, Reads, ReadsOfRound, Regains, RegainsOther, Sends, TakesBack,
};
use crate::rooms::{Room, Step, channel, is_refused};
use std::alloc::Global;
use std::sync::Wait;
use std::test::Fail;

/// How many places most channels of these rows have.
const PLACES: usize = 4;

/// Three values go into a queue of two, and the place of the first comes back. The other two are read, and
/// all places are free in the end.
const VALUES: [Step; 10] = [
    Sends(11, None),
    Sends(22, None),
    Sends(0, Some(0)),
    Reads(1, 22),
    Reads(2, 0),
    FindsNone,
    TakesBack(Some(1)),
    TakesBack(Some(2)),
    TakesBack(None),
    IsNext(3),
];

/// Loans on a channel of two places with three values. They come until no place is left, and later until no
/// value is left. A place whose loan was dropped can be regained once, and one whose loan is in hand cannot.
const LOANS: [Step; 12] = [
    LoansOne,
    LoansOther,
    HasNoPlace,
    KeepsOne,
    GivesUpOne,
    DropsOther,
    RegainsOther(true),
    RegainsOther(false),
    Regains(9, false),
    LoansOne,
    LoansOther,
    HasNoValue,
];

/// While a value waits in the first place, the second place is regained. The value still comes.
const BESIDE: [Step; 6] = [
    Sends(11, None),
    LoansOther,
    DropsOther,
    RegainsOther(true),
    Reads(0, 11),
    TakesBack(Some(0)),
];

/// A value is sent and read. Then its place is loaned again, and the loan is given up, by which the value in
/// the place is kept to be written again.
const KEPT: [Step; 5] = [
    Sends(11, None),
    ReadsOfRound(11),
    TakesBack(Some(0)),
    LoansOne,
    GivesUpOne,
];

/// A loan is dropped, and its value with it. Its place can be regained.
const DROPPED: [Step; 3] = [LoansOther, DropsOther, Regains(0, true)];

/// Plays `steps` in this many rounds, and `end` once, on a new channel. `sizes` are the numbers of its places
/// and of the values to write. It returns the first wrong step of both, if any, and how many values are left.
/// None where the channel or its ends are refused.
fn on_new(
    rt: &impl Wait,
    alloc: Global,
    sizes: (usize, usize),
    steps: &[Step],
    rounds: usize,
    end: &[Step],
) -> Option<(Option<usize>, Option<usize>, usize)> {
    let (places, values) = sizes;
    let mut channel = channel(alloc, places)?;
    let mut room = Room::new(alloc, &mut channel, values)?;
    let wrong = room.first_wrong(rt, steps, rounds);
    let last = room.first_wrong(rt, end, 1);
    Some((wrong, last, room.left()))
}

/// Each row on a new channel: no step is wrong, and the last number says how many values are left in the end.
/// What was given up, or lay where a loan was given up, is written again (`KEPT`); what was dropped with its
/// loan is gone.
#[test]
fn rows(rt: HostRuntime) -> Result<(), Fail> {
    let alloc = rt.alloc();
    let values = on_new(&rt, alloc, (PLACES, PLACES + 1), &VALUES, 1, &[]);
    assert_eq!(rt; values, Some((None, None, PLACES - 2)));
    let loans = on_new(&rt, alloc, (2, 3), &LOANS, 1, &[]);
    assert_eq!(rt; loans, Some((None, None, 0)));
    let beside = on_new(&rt, alloc, (2, 3), &BESIDE, 1, &[]);
    assert_eq!(rt; beside, Some((None, None, 1)));
    let kept = on_new(&rt, alloc, (1, 2), &KEPT, 100, &DROPPED);
    assert_eq!(rt; kept, Some((None, None, 1)));
    Ok(())
}

/// A value is sent and read, and its place comes back.
const READ: [Step; 3] = [Sends(11, None), Reads(0, 11), TakesBack(Some(0))];

/// A value that another channel sends, so that its receiver has a sample of the same place.
const FOREIGN: [Step; 1] = [Sends(12, None)];

/// Once nobody reads the place any more it can be regained. A reading that is forgotten keeps it for good,
/// and another place is used then.
const FORGOTTEN: [Step; 8] = [
    Regains(0, true),
    Sends(13, None),
    Forgets(1, 13),
    TakesBack(Some(0)),
    IsStillRead(0),
    Regains(0, false),
    Sends(14, None),
    Reads(2, 14),
];

/// A sample of `another` reads the first place of `room`. True if a loan of `room` is refused
/// meanwhile, the place cannot be regained, and the value stands. None of this is checked where the
/// sample cannot be read (false).
fn is_kept_by_another(rt: &impl Wait, room: &mut Room<'_>, another: &mut Room<'_>) -> bool {
    let Some(sample) = another.receiver.receive(rt) else {
        return false;
    };
    let read = room.receiver.read(&sample);
    another.receiver.give_back(sample);
    let Ok(reading) = read else {
        return false;
    };
    let mut right = *reading.get() == 11;
    right &= is_refused(rt, &mut room.sender, IsStillRead(0));
    right &= *reading.get() == 11;
    right & room.sender.regain(0).is_none()
}

/// Plays `READ` on one channel and `FOREIGN` on another, reads a place of the first by the other's sample,
/// and then plays `FORGOTTEN`. True if all steps come to what their rows say. None where a channel or its
/// ends are refused.
fn of_two_channels(rt: &impl Wait, alloc: Global) -> Option<bool> {
    let (mut channel, mut another) = (channel(alloc, PLACES)?, channel(alloc, PLACES)?);
    let mut one = Room::new(alloc, &mut channel, PLACES + 1)?;
    let mut other = Room::new(alloc, &mut another, PLACES + 1)?;
    let mut right = one.first_wrong(rt, &READ, 1).is_none();
    right &= other.first_wrong(rt, &FOREIGN, 1).is_none();
    right &= is_kept_by_another(rt, &mut one, &mut other);
    Some(right & one.first_wrong(rt, &FORGOTTEN, 1).is_none())
}

/// A place that is still read when its loan is tried stays out, and can be regained once the reading
/// ends. A reading that is forgotten keeps its place for good. If such a place was loaned, its reader
/// would see another value.
#[test]
fn a_place_is_still_read(rt: HostRuntime) -> Result<(), Fail> {
    assert!(rt; of_two_channels(&rt, rt.alloc()) == Some(true));
    Ok(())
}
