//! The single value (`UnrestrictedAtomic`), step by step. Its words are the version, the producer's role, and
//! two cells of which a store always writes the one that is not read. A store or load takes the steps for its
//! words and 2 more.
use crate::drive::{end_with, partly, with};
use crate::driven::{load, load_one, store};
use crate::rows::{Row, play};
use std::process::Abort;
use steps::atomic::LoadStage;
use tests_calls::long_values::{Greatest, Three};

/// The value of the words 1 and 2: 2^64 + 2.
const FIRST: u128 = 18446744073709551618;

/// The value of the words 3 and 4: 3 · 2^64 + 4.
const SECOND: u128 = 55340232221128654852;

/// A load of the opening value, a store, and a load of what was stored, at values of two words.
const TWO_WORDS: [Row<u128>; 3] = [
    Row::Load(0, 4),
    Row::Store(FIRST, true, 4),
    Row::Load(FIRST, 4),
];

/// A store of a pair, from the version at which `TWO_WORDS` ends.
const PAIR: [Row<(u64, u64)>; 1] = [Row::Store((3, 4), true, 4)];

/// Two stores and loads at values of three words. Each store raises the version by 1.
const THREE_WORDS: [Row<Three>; 6] = [
    Row::Version(1),
    Row::Store(Three(1, 2, 3), true, 5),
    Row::Version(2),
    Row::Load(Three(1, 2, 3), 5),
    Row::Store(Three(4, 5, 6), true, 5),
    Row::Load(Three(4, 5, 6), 5),
];

/// Two stores and loads at values of 128 words, the most that a value may have.
const MOST_WORDS: [Row<Greatest>; 4] = [
    Row::Store(Greatest(1, 9, 2), true, 130),
    Row::Load(Greatest(1, 9, 2), 130),
    Row::Store(Greatest(3, 9, 4), true, 130),
    Row::Load(Greatest(3, 9, 4), 130),
];

/// A load and a store at a value of one word.
const ONE_WORD: [Row<u64>; 2] = [Row::Load(8, 3), Row::Store(9, true, 3)];

/// At the last version a store is refused after one step, and the value and the version stay.
const LAST_VERSION: [Row<u64>; 3] = [
    Row::Store(9, false, 1),
    Row::Load(7, 3),
    Row::Version(u64::MAX),
];

/// At version 0, which no store leaves behind, the value lies in the second cell: the number of the cell,
/// version - 1, wraps.
const VERSION_ZERO: [Row<u64>; 2] = [Row::Load(8, 3), Row::Version(0)];

/// Plays the rows at values of two, three and 128 words. A store into the cell that is read, or a word at a
/// wrong place, would show in the words after a row.
#[test]
fn values_of_many_words(rt: HostRuntime) {
    let words = [1, 1, 0, 0, 0, 0];
    let stored = [2, 1, 0, 0, 1, 2];
    play(&rt, "TWO_WORDS", 0, words, &TWO_WORDS, stored);
    play(&rt, "PAIR", 0, stored, &PAIR, [3, 1, 3, 4, 1, 2]);
    let words = [1, 1, 0, 0, 0, 0, 0, 0];
    let stored = [3, 1, 4, 5, 6, 1, 2, 3];
    play(&rt, "THREE_WORDS", 0, words, &THREE_WORDS, stored);
    let words = with([0; 258], &[(0, 1)]);
    let stored = with(
        [9; 258],
        &[(0, 3), (1, 0), (2, 3), (129, 4), (130, 1), (257, 2)],
    );
    play(&rt, "MOST_WORDS", 0, words, &MOST_WORDS, stored);
}

/// Plays the rows at values of one word, up to the last version and from version 0. A load into the room
/// `OneWord` gives what a load into the general room gives.
#[test]
fn a_value_of_one_word(rt: HostRuntime) {
    let mut words = [2, 1, 7, 8];
    assert!(rt; end_with(load_one(), &mut words, 8, 3));
    play(&rt, "ONE_WORD", 0, words, &ONE_WORD, [3, 1, 9, 8]);
    let last = [u64::MAX, 1, 7, 8];
    play(&rt, "LAST_VERSION", 0, last, &LAST_VERSION, last);
    let zero = [0, 1, 7, 8];
    play(&rt, "VERSION_ZERO", 0, zero, &VERSION_ZERO, zero);
}

/// A load of two words copies one of them, and two stores end before it copies the other, so its copy is made
/// of two values. Its check of the version finds this and goes back, and it answers the second store's value.
/// None where a call ends too early or differs in its two forms.
fn a_load_goes_back_where_stores_moved_the_version(rt: &impl Abort) -> Option<()> {
    let mut words = [1, 1, 0, 0, 0, 0];
    let call = partly(load::<u128>(), 2, &mut words)?;
    for value in [FIRST, SECOND] {
        assert!(rt; end_with(store(value), &mut words, true, 4));
    }
    let call = partly(call, 1, &mut words)?;
    // The copy holds the high word 0 of the opening value and the low word 4 of the second store.
    assert!(rt; matches!(call.call.stage, LoadStage::ChecksVersion { version: 1 }));
    assert!(rt; call.room.words[0] == 0 && call.room.words[1] == 4);
    assert!(rt; call.call.goes_back(3) && !call.call.goes_back(1));
    // Four steps are left. With the three before, the load takes seven: it goes back once.
    assert!(rt; end_with(call, &mut words, SECOND, 4));
    assert!(rt; words == [3, 1, 3, 4, 1, 2]);
    Some(())
}

/// A load of 128 words copies 59 of them before two stores of all words, and the rest after these. It has to
/// go back at its check, and to answer the second store's value in 130 further steps.
fn a_load_of_128_words_goes_back(rt: &impl Abort) -> Option<()> {
    let mut words = with([0; 258], &[(0, 1)]);
    let call = partly(load::<Greatest>(), 60, &mut words)?;
    for value in [Greatest(1, 9, 2), Greatest(3, 9, 4)] {
        assert!(rt; end_with(store(value), &mut words, true, 130));
    }
    let call = partly(call, 69, &mut words)?;
    assert!(rt; matches!(call.call.stage, LoadStage::ChecksVersion { version: 1 }));
    // The first 59 words are those of the opening value, the others those of the second store.
    let mut mixed = [9; 128];
    for at in 0..59 {
        mixed[at] = 0;
    }
    mixed[127] = 4;
    assert!(rt; call.room.words == mixed);
    assert!(rt; end_with(call, &mut words, Greatest(3, 9, 4), 130));
    Some(())
}

/// Loads that are stopped on the way while stores end. If one of them answered at its first check, its value
/// would be made of two stored ones.
#[test]
fn stopped_calls(rt: HostRuntime) {
    assert!(rt; a_load_goes_back_where_stores_moved_the_version(&rt).is_some());
    assert!(rt; a_load_of_128_words_goes_back(&rt).is_some());
}
